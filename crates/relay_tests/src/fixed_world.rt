// SPDX-License-Identifier: MIT OR Apache-2.0
use dtap_codec::Modulus;
use octets::Octets;
use program_base::read_line;
use std::alloc::Global;
use std::process::Abort;
use std::test::Fail;
use world::World;

/// The lines of a script, and whether the actor of each line can act.
const LINES: &[(&str, bool)] = &[
    ("upper 1 0 052471", true),
    ("upper 1 0 0305", true),
    ("airack 1 0", false),
    ("airup 1 0", true),
    ("airack 1 0", true),
    ("airup 1 0", true),
    ("switchtakes", true),
    ("switchtakes", true),
    ("switchtakes", false),
    ("upper 1 0 0345", false),
    ("handle", false),
];

/// Lets the actor of a line act. Returns whether the actor could act.
fn acts(alloc: Global, world: &mut World, line: &str) -> Result<bool, Fail> {
    let event = read_line(alloc, 1, line)?;
    Ok(world.step(event)?)
}

/// Asserts for each line whether the line's actor can act.
fn all_act(rt: &(impl Abort + AllocGlobal), world: &mut World) -> Result<(), Fail> {
    for (line, expected) in LINES {
        let acted = acts(rt.alloc(), world, line)?;
        assert!(rt; acted == *expected);
    }
    Ok(())
}

/// Asserts that there is a list of messages, and that the list is as expected.
fn are(rt: &(impl Abort + AllocGlobal), found: Option<&[Octets]>, expected: &[&[u8]]) {
    let found = found.unwrap_or(&[]);
    assert!(rt; found.len() == expected.len());
    for (found, expected) in found.iter().zip(expected.iter()) {
        assert!(rt; found.as_slice() == *expected);
    }
}

#[test]
fn events_act_one_by_one(rt: HostRuntime) -> Result<(), Fail> {
    let mut world = World::fixed(rt.alloc(), Modulus::Four);
    let acted = all_act(&rt, &mut world);
    assert!(rt; world.not_taken() == 4);
    are(&rt, world.sent(1), &[&[0x05, 0x24, 0x71], &[0x03, 0x05]]);
    are(&rt, world.taken(1), &[&[0x05, 0x24, 0x71], &[0x03, 0x45]]);
    are(
        &rt,
        world.accepted(1),
        &[&[0x05, 0x24, 0x71], &[0x03, 0x05]],
    );
    acted
}
