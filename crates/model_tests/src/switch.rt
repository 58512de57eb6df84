// SPDX-License-Identifier: MIT OR Apache-2.0
use bssmap_codec::{InterfaceFault, Sccp, read_sccp, write_sccp};
use dtap_codec::{Modulus, Sapi};
use msc_end::MscEnd;
use octets::Octets;
use std::alloc::Global;
use std::process::Abort;
use std::test::Fail;

/// A message that arrives at the switch, or an action of the switch on connection 1.
#[derive(Clone, Copy)]
enum Event<'a> {
    Takes(&'a [u8]),
    Hands(Sapi, [u8; 2]),
    Assigns,
    Clears,
}

/// Events, and the octets of the messages that the switch sends at each event.
const LIFE: &[(Event, &[u8])] = &[
    // The connection request with the initial message 05 24 71.
    (
        Event::Takes(&[
            0x01, 0x00, 0x00, 0x01, 0x02, 0x02, 0x04, 0x02, 0x42, 0xfe, 0x0f, 0x12, 0x00, 0x10,
            0x57, 0x05, 0x08, 0x00, 0x00, 0xf1, 0x10, 0x00, 0x01, 0x00, 0x01, 0x17, 0x03, 0x05,
            0x24, 0x71, 0x00,
        ]),
        &[0x02, 0x00, 0x00, 0x01, 0x80, 0x00, 0x01, 0x02, 0x00],
    ),
    (
        Event::Takes(&[
            0x06, 0x80, 0x00, 0x01, 0x00, 0x01, 0x05, 0x01, 0x80, 0x02, 0x03, 0x45,
        ]),
        &[],
    ),
    (
        Event::Takes(&[
            0x06, 0x80, 0x00, 0x01, 0x00, 0x01, 0x05, 0x01, 0x83, 0x02, 0x09, 0x01,
        ]),
        &[],
    ),
    (
        Event::Hands(Sapi::Zero, [0x83, 0x02]),
        &[
            0x06, 0x00, 0x00, 0x01, 0x00, 0x01, 0x05, 0x01, 0x00, 0x02, 0x83, 0x02,
        ],
    ),
    (
        Event::Assigns,
        &[
            0x06, 0x00, 0x00, 0x01, 0x00, 0x01, 0x08, 0x00, 0x06, 0x01, 0x0b, 0x03, 0x01, 0x08,
            0x01,
        ],
    ),
    (
        Event::Clears,
        &[
            0x06, 0x00, 0x00, 0x01, 0x00, 0x01, 0x06, 0x00, 0x04, 0x20, 0x04, 0x01, 0x09,
        ],
    ),
    (
        Event::Takes(&[0x06, 0x80, 0x00, 0x01, 0x00, 0x01, 0x03, 0x00, 0x01, 0x21]),
        &[0x04, 0x00, 0x00, 0x01, 0x80, 0x00, 0x01, 0x00, 0x00],
    ),
];

fn takes(alloc: Global, switch: &mut MscEnd, text: &[u8], out: &mut Vec<Sccp>) -> Result<(), Fail> {
    let message = read_sccp(alloc, text)?;
    Ok(switch.on_message(&message, out)?)
}

fn happens(
    alloc: Global,
    switch: &mut MscEnd,
    event: Event,
    out: &mut Vec<Sccp>,
) -> Result<(), Fail> {
    match event {
        Event::Takes(text) => takes(alloc, switch, text, out),
        Event::Hands(sapi, message) => Ok(switch.send_dtap(1, sapi, &message, out)?),
        Event::Assigns => Ok(switch.assign(1, out)?),
        Event::Clears => Ok(switch.clear(1, out)?),
    }
}

/// The octets of these messages.
fn written(alloc: Global, messages: &[Sccp]) -> Result<Vec<u8>, InterfaceFault> {
    let mut text = Vec::new(alloc);
    for message in messages {
        write_sccp(alloc, message, &mut text)?;
    }
    Ok(text)
}

/// The octets of the messages that the switch sends at an event.
fn sent(alloc: Global, switch: &mut MscEnd, event: Event) -> Result<Vec<u8>, Fail> {
    let mut out = Vec::new(alloc);
    happens(alloc, switch, event, &mut out)?;
    Ok(written(alloc, out.as_slice())?)
}

/// Asserts that there is a list of messages, and that the list is as expected.
fn are(rt: &impl Abort, found: Option<&[Octets]>, expected: &[&[u8]]) {
    let found = found.unwrap_or(&[]);
    assert!(rt; found.len() == expected.len());
    for (found, expected) in found.iter().zip(expected.iter()) {
        assert!(rt; found.as_slice() == *expected);
    }
}

/// Asserts which messages the switch sends at each event.
fn all_happen(rt: &(impl Abort + AllocGlobal), switch: &mut MscEnd) -> Result<(), Fail> {
    for (event, expected) in LIFE {
        let found = sent(rt.alloc(), switch, *event)?;
        assert!(rt; found.as_slice() == *expected);
    }
    Ok(())
}

#[test]
fn a_connection_is_confirmed_used_assigned_and_cleared(rt: HostRuntime) -> Result<(), Fail> {
    let mut switch = MscEnd::new(rt.alloc(), Modulus::Four);
    let happened = all_happen(&rt, &mut switch);
    are(
        &rt,
        switch.taken(1),
        &[&[0x05, 0x24, 0x71], &[0x03, 0x45], &[0x09, 0x01]],
    );
    are(
        &rt,
        switch.accepted(1),
        &[&[0x05, 0x24, 0x71], &[0x03, 0x05]],
    );
    are(&rt, switch.unnumbered(1), &[&[0x09, 0x01]]);
    happened
}
