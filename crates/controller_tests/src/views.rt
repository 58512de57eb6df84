// SPDX-License-Identifier: MIT OR Apache-2.0
use crate::exchanges::Event::Comes;
use crate::exchanges::{Exchange, are, lines_of, lives, opened, step_of, two_cells};
use crate::parts::{ACCESS, COMMANDED, EXPIRES_AND_BREAKS, LIFE};
use controller::{Controller, Outputs, Step, run};
use dtap_codec::Sapi;
use octets::Octets;
use std::alloc::Global;
use std::process::Abort;
use std::test::Fail;

/// The messages that the switch sends after HANDOVER COMMAND wait, even a message of radio resource
/// management.
const WAIT_DOWN: &[Exchange] = &[
    (Comes(0, "060000010001050100028302"), &[]),
    (Comes(0, "060000010001050103020901"), &[]),
    (Comes(0, "060000010001050100020635"), &[]),
    (Comes(0, "060000010001050100028306"), &[]),
];

/// After HANDOVER COMPLETE the short message waits until its link is established. The messages that
/// arrive on the new channel wait until the old channel is released.
const WAIT_UP: &[Exchange] = &[
    (
        Comes(2, "0302014102000b0003062c00"),
        &[
            (0, "06800001000110000e1704010c05080000f11000010002"),
            (1, "082e0141"),
            (2, "0301014102000b00028302"),
            (2, "0301014102000b00020635"),
            (2, "0301014102000b00028306"),
            (2, "020401410203"),
        ],
    ),
    (Comes(2, "0302014102000b00020345"), &[]),
    (Comes(2, "0302014102030b00020904"), &[]),
    (Comes(2, "0302014102000b0002038f"), &[]),
];

/// The events of `parts`, which are parts of a life, as steps of a controller.
fn steps_of(alloc: Global, parts: &[&[Exchange]]) -> Result<Vec<Step>, Fail> {
    let mut steps = Vec::new(alloc);
    for part in parts {
        add_steps(alloc, part, &mut steps)?;
    }
    Ok(steps)
}

fn add_steps(alloc: Global, part: &[Exchange], steps: &mut Vec<Step>) -> Result<(), Fail> {
    for (event, _) in part {
        steps.push(step_of(alloc, *event)?)?;
    }
    Ok(())
}

/// Asserts that the messages are `expected`, given in hexadecimal digits.
fn are_messages(
    rt: &(impl Abort + AllocGlobal),
    messages: &[Octets],
    expected: &[&str],
) -> Result<(), Fail> {
    assert!(rt; messages.len() == expected.len());
    for (message, digits) in messages.iter().zip(expected.iter()) {
        let found = hex::encode(rt.alloc(), message.as_slice())?;
        assert!(rt; found.as_str() == *digits);
    }
    Ok(())
}

/// Asserts which messages of connection 1 are held for the mobile, and which for the switch.
fn held_are(
    rt: &(impl Abort + AllocGlobal),
    controller: &Controller,
    sapi: Sapi,
    down: &[&str],
    up: &[&str],
) -> Result<(), Fail> {
    let messages = controller.held(1, sapi)?;
    are_messages(rt, messages.as_slice(), down)?;
    let messages = controller.held_up(1, sapi)?;
    are_messages(rt, messages.as_slice(), up)
}

/// A SAPI, and the messages of this SAPI that are held for the mobile and for the switch.
type Held<'a> = (Sapi, &'a [&'a str], &'a [&'a str]);

/// Asserts what a controller puts at the events of `parts`, and afterwards the average quality and
/// the held messages of connection 1.
fn are_seen(
    rt: &(impl Abort + AllocGlobal),
    controller: &mut Controller,
    parts: &[&[Exchange]],
    quality: Option<u8>,
    held: &[Held],
) -> Result<(), Fail> {
    lives(rt, controller, parts)?;
    assert!(rt; controller.rxqual(1) == quality);
    for (sapi, down, up) in held {
        held_are(rt, controller, *sapi, down, up)?;
    }
    Ok(())
}

/// Does the same as `are_seen` with a new controller.
fn waits(
    rt: &(impl Abort + AllocGlobal),
    parts: &[&[Exchange]],
    quality: Option<u8>,
    held: &[Held],
) -> Result<(), Fail> {
    let mut controller = opened(rt.alloc())?;
    are_seen(rt, &mut controller, parts, quality, held)
}

/// The frames that a new controller puts at the events of `parts`.
pub(crate) fn ran(alloc: Global, parts: &[&[Exchange]]) -> Result<Outputs, Fail> {
    let steps = steps_of(alloc, parts)?;
    let (_, outputs) = run(alloc, two_cells(alloc)?, steps)?;
    Ok(outputs)
}

/// Asserts that a new controller puts the expected frames at the events of `parts`.
fn is_run(rt: &(impl Abort + AllocGlobal), parts: &[&[Exchange]]) -> Result<(), Fail> {
    let outputs = ran(rt.alloc(), parts)?;
    let lines = lines_of(rt.alloc(), parts)?;
    are(rt, &outputs, lines.as_slice())
}

#[test]
fn lives_are_run(rt: HostRuntime) -> Result<(), Fail> {
    is_run(&rt, LIFE)?;
    is_run(&rt, &[ACCESS, COMMANDED, EXPIRES_AND_BREAKS])
}

#[test]
fn what_waits_within_a_handover_is_seen(rt: HostRuntime) -> Result<(), Fail> {
    let held: &[Held] = &[(Sapi::Zero, &["8302", "8306"], &[])];
    waits(&rt, &[ACCESS, COMMANDED, WAIT_DOWN], Some(0), held)
}

#[test]
fn what_waits_after_a_handover_is_seen(rt: HostRuntime) -> Result<(), Fail> {
    let held: &[Held] = &[
        (Sapi::Zero, &[], &["0345", "038f"]),
        (Sapi::Three, &["0901"], &["0904"]),
    ];
    waits(&rt, &[ACCESS, COMMANDED, WAIT_DOWN, WAIT_UP], None, held)
}
