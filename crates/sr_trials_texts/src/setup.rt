//! Files, by value.
use sr_cell::list::{No, NoMemory};
use sr_setup::client_setup::{ClientFault, set_up_client};
use sr_setup::setup::{SetupFault, set_up};
use std::alloc::Global;

/// What setting up comes to: how many statements there are, or the line and the place of the fault.
fn outcome(
    alloc: Global,
    schema: &[u8],
    exec: &[u8],
) -> Result<Result<usize, (u64, u32)>, NoMemory> {
    if schema.len() > 1000 || exec.len() > 1000 {
        return Ok(Ok(0));
    }
    match set_up(alloc, schema, exec, &[]) {
        Ok(setup) => Ok(Ok(setup.statements.len())),
        Err(No::Refused(SetupFault::Line { line, place })) => Ok(Err((line, place))),
        Err(No::Refused(SetupFault::Create { line, fault })) => Ok(Err((line, fault.at))),
        Err(No::Refused(SetupFault::Load { .. })) => Ok(Err((0, 0))),
        Err(No::NoMemory) => Err(NoMemory),
    }
}

static FILES: [(&[u8], &[u8], Result<usize, (u64, u32)>); 9] = [
    (
        b"# a\r\n\nCREATE TABLE t (a INT PRIMARY KEY)",
        b"# a\n  \nx\r\n y",
        Ok(2),
    ),
    (b"", b"", Ok(0)),
    (b"push 1\nquerry", b"", Err((1, 0))),
    (b"\nquerry 1\npush 1", b"", Err((2, 0))),
    (b"push 65", b"", Err((1, 5))),
    (b"CREATE\npush", b"\xff", Err((2, 4))),
    (b"CREATE", b"x\nab\xff", Err((2, 2))),
    (b"CREATE", b"# \xc3\xa9 \xff", Err((1, 5))),
    (b"\nCREATE", b"x", Err((2, 6))),
];

#[test]
fn files_are_judged(rt: HostRuntime) {
    for (schema, exec, wanted) in &FILES {
        assert!(rt; outcome(rt.alloc(), schema, exec) == Ok(*wanted));
    }
}

/// What the files of client 2 come to: how many events there are, or the line and the place of the fault, which are 0 of a CREATE line.
fn client_outcome(
    alloc: Global,
    schema: &[u8],
    script: &[u8],
) -> Result<Result<usize, (u64, u32)>, NoMemory> {
    if schema.len() > 1000 || script.len() > 1000 {
        return Ok(Ok(0));
    }
    match set_up_client(alloc, 2, schema, script) {
        Ok(read) => Ok(Ok(read.lines.len())),
        Err(No::Refused(ClientFault::Line { line, place })) => Ok(Err((line, place))),
        Err(No::Refused(ClientFault::Create { .. })) => Ok(Err((0, 0))),
        Err(No::NoMemory) => Err(NoMemory),
    }
}

const TABLE: &[u8] = b"CREATE TABLE t (a INT PRIMARY KEY)";

static CLIENT_FILES: [(&[u8], &[u8], Result<usize, (u64, u32)>); 10] = [
    (
        TABLE,
        b"# a\n\nquery 2 SELECT a FROM t\r\nwrite 2 x\nexplain 2 SELECT a FROM t\nevict 2 0\ncut 2\nresume 2",
        Ok(6),
    ),
    (TABLE, b"cut 2\nquery 1 SELECT a FROM t", Err((2, 6))),
    (TABLE, b"evict 3 0", Err((1, 6))),
    (TABLE, b"cut 65", Err((1, 4))),
    (TABLE, b"cut 1 1", Err((1, 6))),
    (TABLE, b"\npush 2", Err((2, 0))),
    (TABLE, b"exec x", Err((1, 0))),
    (b"", TABLE, Err((1, 0))),
    (b"\npush 1", b"push 2", Err((2, 0))),
    (b"CREATE", b"cut 1", Err((1, 4))),
];

#[test]
fn files_of_a_client_are_judged(rt: HostRuntime) {
    for (schema, script, wanted) in &CLIENT_FILES {
        assert!(rt; client_outcome(rt.alloc(), schema, script) == Ok(*wanted));
    }
}
