// SPDX-License-Identifier: MIT OR Apache-2.0
use crate::devices::{Call, Sink, Source, ended};
use dtap_codec::Modulus;
use link_workers::switch_worker;
use msc_end::MscEnd;
use std::alloc::{AllocError, Global};
use std::test::Fail;

/// The frame of a connection request.
const REQUEST: &[u8] = &[
    0x00, 0x1f, 0xfd, 0x01, 0x00, 0x00, 0x01, 0x02, 0x02, 0x04, 0x02, 0x42, 0xfe, 0x0f, 0x12, 0x00,
    0x10, 0x57, 0x05, 0x08, 0x00, 0x00, 0xf1, 0x10, 0x00, 0x01, 0x00, 0x01, 0x17, 0x03, 0x05, 0x24,
    0x71, 0x00,
];

/// The frame of the connection confirm that answers `REQUEST`.
const CONFIRM: &[u8] = &[
    0x00, 0x09, 0xfd, 0x02, 0x00, 0x00, 0x01, 0x80, 0x00, 0x01, 0x02, 0x00,
];

/// Over a device that works, a connection request is confirmed.
#[test]
fn refuses_faults_without_failure_at_a_connection_request(rt: HostRuntime) -> Result<(), Fail> {
    let alloc = rt.alloc();
    let calls = [
        Call::Octets(&[0x00, 0x01, 0xfe, 0x00]),
        Call::Octets(&[0x00, 0x01, 0xfd, 0x33]),
        Call::Octets(REQUEST),
    ];
    let switch = MscEnd::new(alloc, Modulus::Four);
    let answered = switch_worker(alloc, Source::new(&calls), Sink::new(alloc), switch);
    assert!(rt; answered.fault.is_none());
    assert!(rt; answered.writer.got.as_slice() == CONFIRM);
    assert!(rt; answered.switch.taken(1).is_some());
    Ok(())
}

#[test]
fn a_switch_that_wants_memory_writes_a_first_part(rt: HostRuntime) -> Result<(), Fail> {
    let alloc = rt.alloc();
    let sink = Sink {
        got: Vec::with_capacity(alloc, 12)?,
        ..Sink::new(alloc)
    };
    let switch = MscEnd::new(alloc, Modulus::Four);
    let source = Source::new(&[Call::Octets(REQUEST)]);
    let answered = switch_worker(alloc, source, sink, switch);
    let got = answered.writer.got.as_slice();
    assert!(rt; CONFIRM.starts_with(got));
    assert!(rt; got == CONFIRM || answered.fault.is_some());
    ended(answered.fault)
}

/// The frame of a mobile's message of this many octets. The message has no number.
fn message_of(alloc: Global, octets: u8) -> Result<Vec<u8>, AllocError> {
    let (length, data) = (octets.wrapping_add(10), octets.wrapping_add(3));
    let head = [
        0x01, length, 0xfd, 0x06, 0x80, 0x00, 0x01, 0x00, 0x01, data, 0x01, 0x80, octets,
    ];
    let mut text = head.to_vec(alloc)?;
    let message = vec![in alloc; 0x06; usize::from(octets)]?;
    text.extend_from_slice(message.as_slice())?;
    Ok(text)
}

/// The size in octets of the unnumbered message that the switch takes from this text; 0 if the
/// switch takes no such message. `None` if there is a fault or no connection, or if the switch
/// takes several such messages.
fn unnumbered(alloc: Global, text: &[u8]) -> Option<usize> {
    let calls = [Call::Octets(REQUEST), Call::Octets(text)];
    let switch = MscEnd::new(alloc, Modulus::Four);
    let answered = switch_worker(alloc, Source::new(&calls), Sink::new(alloc), switch);
    if answered.fault.is_some() {
        return None;
    }
    match answered.switch.unnumbered(1)? {
        [] => Some(0),
        [message] => Some(message.as_slice().len()),
        _ => None,
    }
}

#[test]
fn the_longest_unnumbered_message_has_251_octets(rt: HostRuntime) -> Result<(), Fail> {
    let alloc = rt.alloc();
    for (octets, taken) in [(251, 251), (252, 0)] {
        let text = message_of(alloc, octets)?;
        assert!(rt;
            unnumbered(alloc, text.as_slice()) == Some(taken),
            "{octets} octets"
        );
    }
    Ok(())
}
