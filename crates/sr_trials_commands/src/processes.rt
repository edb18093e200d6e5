//! The program in two processes: a server, and a client that dials it.
use sr_cell::list::Seq;
use sr_cell::text::Text;
use sr_cli::run::run;
use sr_io::real_host::RealHost;
use std::io::{ErrorKind, Read};
use std::net::TcpListener;
use std::path::{Path, PathBuf};
use std::process::{Child, Command, ExitCode, Output, Stdio};
use std::test::Fail;
use std::{env, fs, io};

const SCHEMA: &str = "CREATE TABLE sale (id INT PRIMARY KEY, amount INT)
";

const SCRIPT: &str = "write 1 INSERT INTO sale VALUES (12, 1400), (13, 20)
query 1 SELECT id, amount FROM sale WHERE amount BETWEEN 0 AND 100
cut 1
query 1 SELECT id FROM sale WHERE amount BETWEEN 0 AND 50
resume 1
";

/// What the client writes, and behind it what each test does.
const ANSWERED: &[u8] = b"0 resume 1 sent 0
0 toclient 1 welcome 0 fresh
1 write 1 sent 1
1 toclient 1 written 1 1
2 ask 1 2 fresh 1
2 part sale (id,amount) {amount 0..100}
2 query 1 asked 2
2 toclient 1 laid
2 answer 1 1 1 1
2 row 13, 20
2 held 1 sale (id,amount) {amount 0..100}
2 toclient 1 answered
3 cut 1 1
4 answer 1 2 1 1
4 row 13
4 query 1 answered 2
5 resume 1 sent 3
5 toclient 1 welcome 1 kept

test result: ok
";

/// What the server writes behind its first line: its first connection has a hello, a write and an ask, the other a resume.
const SERVED: &[u8] = b"connection 1 end 3
connection 2 end 1

test result: ok
";

/// The program: does what the words behind this test's name ask for, and ends well just where their status is 0. Without such words there
/// is nothing to do.
#[test]
fn is_the_program(rt: HostRuntime) -> Result<ExitCode, Fail> {
    let alloc = rt.alloc();
    let words = words_of(&rt)?;
    if words.is_empty() {
        return Ok(ExitCode::SUCCESS);
    }
    Ok(ExitCode::from(run(alloc, words.as_slice(), &mut RealHost::new(rt))))
}

/// The words behind this program's name and the test's.
fn words_of(rt: &HostRuntime) -> Result<Seq<Text>, Fail> {
    let mut words = Seq::new(rt.alloc());
    for word in env::args(rt)?.skip(2) {
        words.push(Text::from_string(word))?;
    }
    Ok(words)
}

/// The program, to be started with these words.
fn program(rt: &HostRuntime, words: &[&str]) -> io::Result<Command> {
    let name = env::args(rt)?.next();
    let mut program = Command::new(rt.alloc(), name.as_ref().map_or("", |it| it.as_str()))?;
    program.arg("processes::is_the_program")?;
    for word in words {
        program.arg(*word)?;
    }
    Ok(program)
}

/// Whether the server says that it can be dialled.
fn listens(server: &mut Child) -> bool {
    let mut line = [0u8; 10];
    match &mut server.stdout {
        Some(out) => out.read_exact(&mut line).is_ok()
            && line.as_slice() == b"listening\n".as_slice(),
        None => false,
    }
}

/// An address that nobody listens at.
fn free_address(rt: &HostRuntime) -> io::Result<String> {
    let address = TcpListener::bind(rt, "127.0.0.1:0")?.local_addr()?;
    Ok(format!(in rt.alloc(); "{address}")?)
}

/// A new file with this text, in the folder for temporary files; no other test has the address, which its name has.
fn file_of(rt: &HostRuntime, address: &str, ending: &str, text: &str) -> io::Result<PathBuf> {
    let mut path = env::temp_dir(rt)?;
    path.push(format!(in rt.alloc(); "naworuke-{address}{ending}")?)?;
    fs::write(rt, path.as_path(), text)?;
    Ok(path)
}

/// Starts a server, and a client once the server listens. Answers how the client ended, and then how the server did; where the client
/// does not write what is wanted, the server is ended. So no process is left.
fn session(rt: &HostRuntime, server: &[&str], client: &[&str]) -> io::Result<(Output, Output)> {
    let mut server = program(rt, server)?.stdout(Stdio::piped()).spawn(rt)?;
    let asked = if listens(&mut server) {
        program(rt, client)?.output(rt)
    } else {
        Err(io::Error::from(ErrorKind::Other))
    };
    let is_well = match &asked {
        Ok(asked) => asked.stdout.as_slice() == ANSWERED,
        Err(_) => false,
    };
    if !is_well {
        let _ = server.kill();
    }
    let served = server.wait_with_output(rt.alloc())?;
    Ok((asked?, served))
}

/// A session over these files, which are removed then.
fn session_over(
    rt: &HostRuntime,
    address: &str,
    schema: Path<'_>,
    script: Path<'_>,
) -> io::Result<(Output, Output)> {
    let (schema_name, script_name) = (schema.as_str(), script.as_str());
    let ended = session(
        rt,
        &["serve", "--schema", schema_name, address, "2"],
        &[
            "client",
            "--id",
            "1",
            "--schema",
            schema_name,
            address,
            script_name,
        ],
    );
    let removed = fs::remove_file(rt, schema).and(fs::remove_file(rt, script));
    removed.and(ended)
}

/// A session over new files, at an address that nobody listens at.
fn new_session(rt: &HostRuntime) -> io::Result<(Output, Output)> {
    let address = free_address(rt)?;
    let schema = file_of(rt, address.as_str(), ".schema", SCHEMA)?;
    let script = file_of(rt, address.as_str(), ".sql", SCRIPT)?;
    session_over(rt, address.as_str(), schema.as_path(), script.as_path())
}

#[test]
fn a_client_dials_a_server(rt: HostRuntime) -> Result<(), Fail> {
    let (asked, served) = new_session(&rt)?;
    assert_eq!(rt; asked.stdout.as_slice(), ANSWERED);
    assert!(rt; asked.status.success());
    assert_eq!(rt; served.stdout.as_slice(), SERVED);
    assert!(rt; served.status.success());
    Ok(())
}
