// SPDX-License-Identifier: MIT OR Apache-2.0
//! Wrappers of the judge's functions. Their contracts use definitions that proofs leave folded.
ghost use Rattle.std.specs.Prelude.{◌≡◌, IfOk, OnOk};
ghost use Rattle.run_judge.specs.JudgeState.{shown};
ghost use Rattle.judge_orders.specs.Steps.{after, after_hole, beginnings, begun_apart, ended_by};
ghost use Rattle.judge_orders.specs.Steps.{gives_again, waits_on};

use octets::Memory;
use run_judge::{Connection, Judge, Pair, Said, StationChannel};

#[tactic(auto, unfolding(crate::specs::Steps::after, crate::specs::Steps::ended_by))]
pub(crate) fn take(judge: &mut Judge, frame: u64, said: Said) -> Result<Option<Connection>, Memory>
    ensures after { OnOk result (shown judge.new ≡ after frame said (shown judge.old)) }
    ensures ended { IfOk result (λ ended. ended ≡ ended_by said (shown judge.old)) }
{
    judge.take(frame, said)
}

#[tactic(auto, unfolding(crate::specs::Steps::after_hole))]
pub(crate) fn miss(judge: &mut Judge, frame: u64)
    ensures { shown judge.new ≡ after_hole frame (shown judge.old) }
{
    judge.miss(frame);
}

#[tactic(auto, unfolding(crate::specs::Steps::beginnings))]
pub(crate) fn beginnings(judge: &Judge, source: u32, message: &[u8]) -> Result<Option<Pair>, Memory>
    ensures { IfOk result (λ pair. pair ≡ beginnings source message.now (shown judge.now)) }
{
    judge.beginnings(source, message)
}

#[tactic(auto, unfolding(crate::specs::Steps::begun_apart))]
pub(crate) fn begin_apart(
    judge: &Judge,
    pair: Pair,
    source: u32,
    frame: u64,
) -> Result<Judge, Memory>
    ensures { IfOk result
        (λ begun. shown begun ≡ begun_apart pair source frame (shown judge.now)) }
{
    judge.begin_apart(pair, source, frame)
}

#[tactic(auto, unfolding(crate::specs::Steps::waits_on))]
pub(crate) fn waits_on(judge: &Judge, at: StationChannel, message: &[u8]) -> bool
    ensures { result ≡ waits_on at message.now (shown judge.now) }
{
    judge.waits_on(at, message)
}

#[tactic(auto, unfolding(crate::specs::Steps::gives_again))]
pub(crate) fn gives_again(judge: &Judge, said: &Said) -> bool
    ensures { result ≡ gives_again said.now (shown judge.now) }
{
    judge.gives_again(said)
}
