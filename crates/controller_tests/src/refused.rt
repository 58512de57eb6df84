// SPDX-License-Identifier: MIT OR Apache-2.0
use crate::exchanges::Event::Comes;
use crate::exchanges::{Exchange, are, lines_of, opened, step_of, two_cells};
use crate::late::{IS_CLEARED, IS_RELEASED};
use crate::limits::thirty_three_down;
use crate::parts::{ACCESS, COMMANDED, EXPIRES_AND_BREAKS, LIFE};
use controller::{Controller, Item, Outputs, Step};
use octets::Memory;
use std::process::Abort;
use std::test::Fail;

/// A controller, all outputs that it put, and how often memory was refused to it.
#[derive(Drop)]
struct Life {
    controller: Controller,
    outputs: Outputs,
    refusals: u32,
}

/// A controller that has put nothing. If memory is refused, the controller is made at a second try.
fn begun(rt: &(impl Abort + AllocGlobal)) -> Result<Life, Fail> {
    let alloc = rt.alloc();
    let (controller, refusals) = match Controller::new(alloc, two_cells(alloc)?) {
        Ok(controller) => (controller, 0),
        Err(Memory) => (opened(alloc)?, 1),
    };
    Ok(Life {
        controller,
        outputs: Outputs::new(alloc),
        refusals,
    })
}

impl Life {
    /// Takes an item. If memory is refused, asserts that nothing has changed, and takes the
    /// returned item once more.
    fn takes(&mut self, rt: &(impl Abort + AllocGlobal), item: Item) {
        let (put, ignored) = (self.outputs.len(), self.controller.ignored());
        if let Err(item) = self.controller.step(item, &mut self.outputs) {
            assert!(rt; self.outputs.len() == put && self.controller.ignored() == ignored);
            self.refusals = self.refusals.saturating_add(1);
            assert!(rt; self.controller.step(item, &mut self.outputs).is_ok());
        }
    }

    /// Lets time pass. If memory is refused, asserts that nothing has changed, and lets the time
    /// pass once more.
    fn passes(&mut self, rt: &(impl Abort + AllocGlobal), ms: u32) {
        let (put, ignored) = (self.outputs.len(), self.controller.ignored());
        if let Err(Memory) = self.controller.tick(ms, &mut self.outputs) {
            assert!(rt; self.outputs.len() == put && self.controller.ignored() == ignored);
            self.refusals = self.refusals.saturating_add(1);
            assert!(rt; self.controller.tick(ms, &mut self.outputs).is_ok());
        }
    }

    fn plays(
        &mut self,
        rt: &(impl Abort + AllocGlobal),
        exchanges: &[Exchange],
    ) -> Result<(), Fail> {
        for (event, _) in exchanges {
            match step_of(rt.alloc(), *event)? {
                Step::Take(item) => self.takes(rt, item),
                Step::Tick(ms) => self.passes(rt, ms),
            }
        }
        Ok(())
    }

    fn plays_all(
        &mut self,
        rt: &(impl Abort + AllocGlobal),
        parts: &[&[Exchange]],
    ) -> Result<(), Fail> {
        for part in parts {
            self.plays(rt, part)?;
        }
        Ok(())
    }

    /// Plays `parts`, which are parts of a life. Asserts what the controller put, and that it
    /// ignored something `ignored` times. `Err` if memory was refused meanwhile, which doesn't
    /// happen with ample memory.
    fn ends(
        &mut self,
        rt: &(impl Abort + AllocGlobal),
        parts: &[&[Exchange]],
        ignored: u64,
    ) -> Result<(), Fail> {
        self.plays_all(rt, parts)?;
        let lines = lines_of(rt.alloc(), parts)?;
        are(rt, &self.outputs, lines.as_slice())?;
        assert!(rt; self.controller.ignored() == ignored);
        if self.refusals > 0 {
            return Err(Fail::new("the controller wanted memory, and lived on"));
        }
        Ok(())
    }
}

/// Plays `parts`, during which a controller ignores something `ignored` times.
fn lives(rt: &(impl Abort + AllocGlobal), parts: &[&[Exchange]], ignored: u64) -> Result<(), Fail> {
    let mut life = begun(rt)?;
    life.ends(rt, parts, ignored)
}

/// A second assignment waits while the first is under way, and a third is refused. Then the only
/// other channel for speech serves the mobile, so the second assignment is refused, too.
const WAITS_IN_VAIN: &[Exchange] = &[
    (
        Comes(0, "060000010001080006010b03010801"),
        &[(1, "0821010a0301060400010801")],
    ),
    (Comes(0, "060000010001080006010b03010801"), &[]),
    (
        Comes(0, "060000010001080006010b03010801"),
        &[(0, "06800001000106000403040160")],
    ),
    (
        Comes(1, "0822010a080000"),
        &[(1, "0301014102000b0006062e0a201400")],
    ),
    (
        Comes(1, "0302010a02000b0003062900"),
        &[
            (0, "068000010001050003021500"),
            (1, "082e0141"),
            (0, "06800001000106000403040121"),
        ],
    ),
    (Comes(1, "08330141"), &[]),
];

/// An assignment during a handover waits, and a second assignment is refused. After the handover,
/// the first assignment begins in the new cell.
const WAITS_AND_BEGINS: &[Exchange] = &[
    (Comes(0, "060000010001080006010b03010801"), &[]),
    (
        Comes(0, "060000010001080006010b03010801"),
        &[(0, "06800001000106000403040160")],
    ),
    (
        Comes(2, "0302014102000b0003062c00"),
        &[
            (0, "06800001000110000e1704010c05080000f11000010002"),
            (1, "082e0141"),
            (2, "0821010a0301060400010801"),
        ],
    ),
    (Comes(1, "08330141"), &[]),
];

/// Four reports that don't lead to a handover: with a neighbour that is too weak, without a
/// neighbour, with bad quality once, and an invalid report, which is ignored.
const STAYS: &[Exchange] = &[
    (
        Comes(
            1,
            "082801411b05190314140004000b0012061514140056024000000000000000000000",
        ),
        &[],
    ),
    (
        Comes(
            1,
            "082801411b05190314140004000b00120615141401d7024000000000000000000000",
        ),
        &[],
    ),
    (
        Comes(
            1,
            "082801411b04190314140004000b0012061514145057024000000000000000000000",
        ),
        &[],
    ),
    (
        Comes(
            1,
            "082801411b05190314140004000b0012061514540057024000000000000000000000",
        ),
        &[],
    ),
];

#[test]
fn a_life_that_wants_memory_continues(rt: HostRuntime) -> Result<(), Fail> {
    lives(&rt, LIFE, 0)
}

#[test]
fn an_expiry_and_a_break_that_want_memory_come_again(rt: HostRuntime) -> Result<(), Fail> {
    lives(&rt, &[ACCESS, COMMANDED, EXPIRES_AND_BREAKS], 0)
}

#[test]
fn a_clear_within_a_handover_that_wants_memory_comes_again(rt: HostRuntime) -> Result<(), Fail> {
    lives(&rt, &[ACCESS, COMMANDED, IS_CLEARED], 16)
}

#[test]
fn a_mobile_that_asks_while_a_channel_is_released_asks_again(rt: HostRuntime) -> Result<(), Fail> {
    lives(&rt, &[ACCESS, IS_RELEASED], 13)
}

#[test]
fn messages_that_wait_and_one_too_many_come_again(rt: HostRuntime) -> Result<(), Fail> {
    let parts = thirty_three_down(rt.alloc())?;
    lives(&rt, parts.as_slice(), 0)
}

#[test]
fn assignments_that_wait_come_again(rt: HostRuntime) -> Result<(), Fail> {
    lives(&rt, &[ACCESS, WAITS_IN_VAIN], 0)
}

#[test]
fn an_assignment_that_waits_for_a_handover_comes_again(rt: HostRuntime) -> Result<(), Fail> {
    lives(&rt, &[ACCESS, COMMANDED, WAITS_AND_BEGINS], 0)
}

#[test]
fn reports_that_decide_nothing_come_again(rt: HostRuntime) -> Result<(), Fail> {
    lives(&rt, &[ACCESS, STAYS], 1)
}
