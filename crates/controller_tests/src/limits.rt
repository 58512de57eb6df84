// SPDX-License-Identifier: MIT OR Apache-2.0
use crate::exchanges::Event::Comes;
use crate::exchanges::{Exchange, are, lines_of, lives_ignoring};
use crate::parts::ACCESS;
use crate::views::ran;
use std::alloc::Global;
use std::test::Fail;

/// A message of the mobile waits for the switch to answer the CR.
const WAITS_UP: &[Exchange] = &[(Comes(1, "0302014102000b00020345"), &[])];

/// Another message of the mobile ends the connection. The switch is told once it answers the CR.
const ONE_MORE_UP: &[Exchange] = &[
    (
        Comes(1, "0302014102000b00020345"),
        &[(1, "0301014102000b0003060d01"), (1, "082e0141")],
    ),
    (
        Comes(0, "020000018000010200"),
        &[(0, "06800001000106000422040120")],
    ),
];

/// An assignment to 0A, up to ASSIGNMENT COMMAND.
const COMMANDED: &[Exchange] = &[
    (
        Comes(0, "060000010001080006010b03010801"),
        &[(1, "0821010a0301060400010801")],
    ),
    (
        Comes(1, "0822010a080000"),
        &[(1, "0301014102000b0006062e0a201400")],
    ),
];

/// A message of the switch waits until the mobile is on the new channel.
const WAITS_DOWN: &[Exchange] = &[(Comes(0, "060000010001050100028302"), &[])];

/// Another message of the switch ends the connection.
const ONE_MORE_DOWN: &[Exchange] = &[(
    Comes(0, "060000010001050100028302"),
    &[
        (0, "06800001000106000422040120"),
        (1, "0301014102000b0003060d01"),
        (1, "082e0141"),
        (1, "082e010a"),
    ],
)];

/// The frames that are put at the mobile's ASSIGNMENT COMPLETE, before the messages that waited.
const COMPLETED: &[Exchange] = &[(
    Comes(1, "0302010a02000b0003062900"),
    &[(0, "068000010001050003021500"), (1, "082e0141")],
)];

/// The parts `first`, then the part `again`, repeated `often` times, and then the part `last`.
fn parts_of<'a>(
    alloc: Global,
    first: &[&'a [Exchange<'a>]],
    again: &'a [Exchange<'a>],
    often: u32,
    last: &'a [Exchange<'a>],
) -> Result<Vec<&'a [Exchange<'a>]>, Fail> {
    let mut parts = Vec::new(alloc);
    parts.extend_from_slice(first)?;
    for _ in 0..often {
        parts.push(again)?;
    }
    parts.push(last)?;
    Ok(parts)
}

#[test]
fn sixteen_messages_wait_for_the_switch_and_no_more(rt: HostRuntime) -> Result<(), Fail> {
    let Some(asked) = ACCESS.first_chunk::<3>() else {
        return Err("no access".into());
    };
    let parts = parts_of(rt.alloc(), &[asked.as_slice()], WAITS_UP, 16, ONE_MORE_UP)?;
    lives_ignoring(&rt, parts.as_slice(), 0)
}

/// 32 messages of the switch wait until the mobile is on the new channel. Another message ends the
/// connection.
pub(crate) fn thirty_three_down(alloc: Global) -> Result<Vec<&'static [Exchange<'static>]>, Fail> {
    let first: [&[Exchange]; 2] = [ACCESS, COMMANDED];
    parts_of(alloc, &first, WAITS_DOWN, 32, ONE_MORE_DOWN)
}

#[test]
fn thirty_two_messages_wait_for_the_channel_and_no_more(rt: HostRuntime) -> Result<(), Fail> {
    let parts = thirty_three_down(rt.alloc())?;
    lives_ignoring(&rt, parts.as_slice(), 0)
}

#[test]
fn thirty_two_messages_that_waited_are_handed(rt: HostRuntime) -> Result<(), Fail> {
    let first: [&[Exchange]; 2] = [ACCESS, COMMANDED];
    let parts = parts_of(rt.alloc(), &first, WAITS_DOWN, 32, COMPLETED)?;
    let outputs = ran(rt.alloc(), parts.as_slice())?;
    let mut lines = lines_of(rt.alloc(), parts.as_slice())?;
    for _ in 0..32u32 {
        lines.push((1, "0301010a02000b00028302"))?;
    }
    are(&rt, &outputs, lines.as_slice())
}
