// SPDX-License-Identifier: MIT OR Apache-2.0
use crate::deadline::Deadline;
use crate::texts::{CHANNEL_ACTIVATION, NACK_AND_REQUEST, answers, first, requests};
use controller::Controller;
use link_sockets::{open_links, relay_links, run_links};
use settings::Settings;
use std::alloc::Global;
use std::io::{Read, Write};
use std::net::{Net, Shutdown, TcpListener, TcpStream};
use std::process::Abort;
use std::thread;
use std::time::{Clock, Duration};

/// How many seconds a read waits at most.
const PATIENCE: u64 = 20;

/// The stream, with a read timeout of `PATIENCE` seconds.
fn with_patience<R: Abort>(rt: &R, stream: TcpStream) -> TcpStream {
    let patience = Some(Duration::from_secs(PATIENCE));
    stream.set_read_timeout(patience).expect(rt, "a time");
    stream
}

/// The stream of the next peer that connects.
fn accepted<R: Abort>(rt: &R, listener: &TcpListener) -> TcpStream {
    let (stream, _) = listener.accept().expect(rt, "a connection");
    with_patience(rt, stream)
}

/// Sends these octets and gets `wanted` octets. Then sends no more, and gets the rest that arrives.
fn play<R: Abort>(
    rt: &R,
    alloc: Global,
    mut stream: TcpStream,
    octets: &[u8],
    wanted: usize,
) -> Vec<u8> {
    stream.write_all(octets).expect(rt, "a write");
    let mut got = vec![in alloc; 0; wanted].expect(rt, "room");
    stream.read_exact(got.as_mut_slice()).expect(rt, "octets");
    stream.shutdown(Shutdown::Write).expect(rt, "an end");
    stream.read_to_end(&mut got).expect(rt, "a read to the end");
    got
}

/// Connects to a port as soon as somebody listens there.
fn connect<R>(rt: &R, port: u16) -> TcpStream
where
    R: Abort + Clock + Net<Listener = TcpListener, Stream = TcpStream>,
{
    for _ in 0..20_000 {
        if let Ok(stream) = TcpStream::connect(rt, ("127.0.0.1", port)) {
            return with_patience(rt, stream);
        }
        thread::sleep(rt, Duration::from_millis(1));
    }
    panic!(rt; "nobody listens")
}

/// Plays a station. Returns whether the station gets the octets that it should.
fn play_station<R>(rt: &R, alloc: Global, port: u16, cell: u8) -> bool
where
    R: Abort + Clock + Net<Listener = TcpListener, Stream = TcpStream>,
{
    let got = play(rt, alloc, connect(rt, port), first(38), 47);
    let expected = answers(alloc, cell, 3).expect(rt, "octets");
    got.len() >= 47 && expected.as_slice().starts_with(got.as_slice())
}

/// Whether `got` is the connection requests of these mobiles.
fn are_requests<R: Abort>(rt: &R, alloc: Global, got: &[u8], mobiles: &[(u8, u8)]) -> bool {
    let text = requests(alloc, mobiles).expect(rt, "octets");
    text.as_slice() == got
}

/// Plays the switch. Returns whether the switch gets a connection request of each cell, numbered 1
/// and 2.
fn play_switch<R: Abort>(rt: &R, alloc: Global, listener: TcpListener) -> bool {
    let got = play(rt, alloc, accepted(rt, &listener), &[], 68);
    let orders = [
        [(1, 1), (2, 2)],
        [(2, 2), (1, 1)],
        [(1, 2), (2, 1)],
        [(2, 1), (1, 2)],
    ];
    orders
        .iter()
        .any(|mobiles| are_requests(rt, alloc, got.as_slice(), mobiles))
}

/// The octets that arrive until the other side ends the link.
fn got_to_end<R: Abort>(rt: &R, alloc: Global, mut stream: TcpStream) -> Vec<u8> {
    let mut got = Vec::new(alloc);
    stream.read_to_end(&mut got).expect(rt, "a read to the end");
    got
}

/// Plays a station that gets a channel, refuses its activation and asks once more. Returns whether
/// the station then gets the end of its link.
fn play_last_access<R: Abort>(rt: &R, alloc: Global, mut stream: TcpStream) -> bool {
    let mut got = [0; 15];
    stream.write_all(first(13)).expect(rt, "a write");
    stream.read_exact(&mut got).expect(rt, "octets");
    stream.write_all(&NACK_AND_REQUEST).expect(rt, "a write");
    got == CHANNEL_ACTIVATION && got_to_end(rt, alloc, stream).is_empty()
}

/// A listener, and its port.
fn listener<R>(rt: &R) -> (TcpListener, u16)
where
    R: Abort + Net<Listener = TcpListener, Stream = TcpStream>,
{
    let listener = TcpListener::bind(rt, "127.0.0.1:0").expect(rt, "a listener");
    let port = listener.local_addr().expect(rt, "its address").port();
    (listener, port)
}

/// Two ports that nobody listens on any more.
fn free_ports<R>(rt: &R) -> (u16, u16)
where
    R: Abort + Net<Listener = TcpListener, Stream = TcpStream>,
{
    let (_first, one) = listener(rt);
    let (_second, other) = listener(rt);
    (one, other)
}

/// Settings of two cells, with these ports.
fn settings<R: Abort>(rt: &R, alloc: Global, switch: u16, one: u16, second: u16) -> Settings {
    let text = format!(in alloc;
        "[network]\nmcc = \"001\"\nmnc = \"01\"\n[switch]\naddress = \"127.0.0.1:{switch}\"\n\
[[cell]]\nlisten = \"127.0.0.1:{one}\"\nlac = 1\nci = 1\narfcn = 20\nbsic = 9\n\
channels = [0x41, 0x49, 0x0a]\n\
[[cell]]\nlisten = \"127.0.0.1:{second}\"\nlac = 1\nci = 2\narfcn = 30\nbsic = 18\n\
channels = [0x41, 0x0a]\n"
    )
    .expect(rt, "a text");
    Settings::read(alloc, text.as_str()).expect(rt, "the settings")
}

#[test]
fn two_stations_reach_the_switch_over_tcp(rt: HostRuntime) {
    let alloc = rt.alloc();
    let deadline = Deadline::new(rt, alloc, "two stations over TCP").expect(&rt, "a thread");
    let (switch_listener, switch_port) = listener(&rt);
    let (one, second) = free_ports(&rt);
    let settings = settings(&rt, alloc, switch_port, one, second);
    let switch = thread::spawn(&rt, move || play_switch(&rt, alloc, switch_listener)).expect(
        &rt, "a thread",
    );
    let station = thread::spawn(&rt, move || play_station(&rt, alloc, one, 1)).expect(
        &rt, "a thread",
    );
    let other = thread::spawn(&rt, move || play_station(&rt, alloc, second, 2)).expect(
        &rt, "a thread",
    );
    assert!(rt; run_links(rt, alloc, settings).is_ok());
    assert!(rt; switch.join(&rt));
    assert!(rt; station.join(&rt));
    assert!(rt; other.join(&rt));
    deadline.meet(&rt);
}

/// A controller gives its last connection number to an access, and the access fails. Then all links
/// end.
#[test]
fn links_end_behind_the_last_number(rt: HostRuntime) {
    let alloc = rt.alloc();
    let deadline = Deadline::new(rt, alloc, "the last number").expect(&rt, "a thread");
    let (switch_listener, switch_port) = listener(&rt);
    let (one, second) = free_ports(&rt);
    let settings = settings(&rt, alloc, switch_port, one, second);
    let station = thread::spawn(
        &rt,
        move || play_last_access(&rt, alloc, connect(&rt, one)),
    ).expect(&rt, "a thread");
    let other = thread::spawn(&rt, move || got_to_end(&rt, alloc, connect(&rt, second))).expect(
        &rt, "a thread",
    );
    let Ok(opened) = open_links(&rt, alloc, &settings) else {
        panic!(rt; "no links")
    };
    let Ok(controller) = Controller::new_from(alloc, settings, 16_777_215) else {
        panic!(rt; "no memory")
    };
    assert!(rt; relay_links(rt, alloc, opened, controller).is_ok());
    let switch = accepted(&rt, &switch_listener);
    assert!(rt; got_to_end(&rt, alloc, switch).is_empty());
    assert!(rt; station.join(&rt));
    assert!(rt; other.join(&rt).is_empty());
    deadline.meet(&rt);
}
