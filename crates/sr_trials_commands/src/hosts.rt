//! The real host: it links another, gives up a peer that is silent for too long, and reads a file.
use sr_cell::list::No;
use sr_io::outside::{Failed, Host};
use sr_io::real_host::RealHost;
use sr_io::whole::send_all;
use std::test::Fail;
use std::time::{Duration, Instant};

/// Whether the call failed.
fn fails<T: Drop>(came: Result<T, No<Failed>>) -> bool {
    matches!(came, Err(No::Refused(Failed)))
}

/// Docks at the first of these ports of this machine that is free.
fn dock_somewhere<H: Host>(host: &mut H) -> Option<&'static str> {
    for address in [
        "127.0.0.1:47321",
        "127.0.0.1:47322",
        "127.0.0.1:47323",
        "127.0.0.1:47324",
    ] {
        if host.dock(address).is_ok() {
            return Some(address);
        }
    }
    None
}

/// Connects the client to the server.
fn connect<H: Host>(server: &mut H, client: &mut H) -> Result<(), No<Failed>> {
    let address = dock_somewhere(server);
    client.dial(address.unwrap_or(""))?;
    server.accept()
}

/// Whether the client receives nothing before it dials, and the server then what it sends, and the end.
fn links<H: Host>(server: &mut H, client: &mut H) -> Result<bool, No<Failed>> {
    let mut room = [0u8; 4];
    let is_alone = fails(client.recv(&mut room));
    connect(server, client)?;
    send_all(client, b"ab")?;
    let sent = server.recv(&mut room)?;
    client.hang_up();
    let more = server.recv(&mut room[2..])?;
    let is_well = room == [b'a', b'b', 0, 0] && client.link_faults() == 1;
    Ok(is_alone && sent == 2 && more == 0 && is_well)
}

#[test]
fn the_real_host_links_another(rt: HostRuntime) {
    let mut server = RealHost::new(&rt);
    let mut client = RealHost::new(&rt);
    assert!(rt; links(&mut server, &mut client) == Ok(true));
}

/// Whether the server gives up to receive while the client is silent, and receives what the client sends then.
fn outlasts_silence<H: Host>(server: &mut H, client: &mut H) -> Result<bool, No<Failed>> {
    let mut room = [0u8; 4];
    connect(server, client)?;
    let is_given_up = fails(server.recv(&mut room));
    send_all(client, b"ab")?;
    let sent = server.recv(&mut room)?;
    Ok(is_given_up && sent == 2 && server.link_faults() == 1)
}

#[test]
fn a_silent_peer_is_given_up(rt: HostRuntime) -> Result<(), Fail> {
    let patience = Duration::from_millis(100);
    let mut server = RealHost::with_patience(&rt, patience);
    let mut client = RealHost::new(&rt);
    let start = Instant::now(&rt)?;
    assert!(rt; outlasts_silence(&mut server, &mut client) == Ok(true));
    assert!(rt; start.elapsed(&rt)? >= patience);
    Ok(())
}

/// Whether the server gives up to send to the client, which reads nothing, once the system keeps no more for it.
fn outlasts_deafness<H: Host>(server: &mut H, client: &mut H) -> Result<bool, No<Failed>> {
    let bytes = [0u8; 4096];
    connect(server, client)?;
    for _ in 0..16384 {
        if fails(send_all(server, &bytes)) {
            return Ok(server.link_faults() == 1);
        }
    }
    Ok(false)
}

#[test]
fn a_peer_that_never_reads_is_given_up(rt: HostRuntime) {
    let mut server = RealHost::with_patience(&rt, Duration::from_millis(100));
    let mut client = RealHost::new(&rt);
    assert!(rt; outlasts_deafness(&mut server, &mut client) == Ok(true));
}

/// Whether there is nothing to read, then no such file, and then the program of this test, which begins as each program of Linux does.
fn reads<H: Host>(host: &mut H) -> Result<bool, No<Failed>> {
    let mut room = [0u8; 4];
    let given = host.read(&mut room)?;
    let is_missed = fails(host.pick("/no/such/file"));
    host.pick("/proc/self/exe")?;
    let count = host.read(&mut room)?;
    let is_well = room == [0x7f, b'E', b'L', b'F'] && host.read_faults() == 1;
    Ok(given == 0 && is_missed && count == 4 && is_well)
}

#[test]
fn the_real_host_reads_a_file(rt: HostRuntime) {
    let mut host = RealHost::new(&rt);
    assert!(rt; reads(&mut host) == Ok(true));
}
