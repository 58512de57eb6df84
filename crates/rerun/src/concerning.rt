// SPDX-License-Identifier: MIT OR Apache-2.0
ghost use Rattle.std.specs.Prelude.{◌≡◌, IfOk, option_to_list, slice_get};
ghost use Rattle.rerun.specs.Concerning.{concerns, has_channel, is_target, uses, what_concerns};
ghost use Rattle.rerun.specs.Concerning.{word_concerns};

use conn_fsm::{Conn, State, is_at};
use conn_messages::Place;
use conn_rules::Stage;
use controller::{Controller, Step, What};
use controller_model::Word;
use controller_parts::read_word;
use octets::Memory;
use std::alloc::Global;

/// Whether a step takes a frame for the connection with the number `number`: the frame has the
/// connection's reference, or came on the connection's serving channel or target channel.
pub(crate) fn concerns(
    alloc: Global,
    controller: &Controller,
    step: &Step,
    number: u32,
) -> Result<bool, Memory>
    ensures { IfOk result (λ is. is ≡ concerns controller.now step.now number) }
{
    match step {
        Step::Take(item) => what_concerns(alloc, controller, item.source, &item.what, number),
        Step::Tick(_) => Ok(false),
    }
}

fn what_concerns(
    alloc: Global,
    controller: &Controller,
    source: u16,
    what: &What,
    number: u32,
) -> Result<bool, Memory>
    ensures { IfOk result (λ is. is ≡ what_concerns controller.now source what.now number) }
{
    match what {
        What::Frame(frame) => {
            let word = read_word(alloc, source, frame)?;
            Ok(word_concerns(controller, &word, number))
        }
        What::Down => Ok(false),
    }
}

fn word_concerns(controller: &Controller, word: &Word, number: u32) -> bool
    ensures { result ≡ word_concerns controller.now word.now number }
{
    match word {
        Word::OnChannel(at, _) => has_channel(controller, at, number),
        Word::Reports(at, _, _) => has_channel(controller, at, number),
        Word::OnConnection(other, _) => *other == number,
        _ => false,
    }
}

/// Whether a connection with the number `number` uses the channel `at`.
#[tactic(auto, using(crate::proofs::Using::walk_on, crate::proofs::Using::walk_hits, crate::proofs::Using::walk_ends))]
fn has_channel(controller: &Controller, at: &Place, number: u32) -> bool
    ensures { result ≡ has_channel number at.now controller.now.entries }
{
    for place in 0..controller.connection_count() {
        if uses_at(controller, place, at, number) {
            return true;
        }
    }
    false
}

/// Whether the connection at `place` has the number `number` and uses the channel `at`.
#[tactic(auto, using(crate::proofs::Using::used_some, crate::proofs::Using::used_none))]
fn uses_at(controller: &Controller, place: usize, at: &Place, number: u32) -> bool
    ensures { result ≡ has_channel number at.now
        (option_to_list (slice_get controller.now.entries place)) }
{
    match controller.connection_at(place) {
        Some(conn) => conn.number() == number && uses(conn, at),
        None => false,
    }
}

/// Whether a channel serves a connection, or is the target of the connection's change of channel.
fn uses(conn: &Conn, at: &Place) -> bool
    ensures { result ≡ uses at.now conn.now }
{
    is_at(at, &conn.serving()) || is_target(at, conn.state())
}

fn is_target(at: &Place, state: State) -> bool
    ensures { result ≡ is_target at.now state }
{
    match state {
        State::Live(_, Stage::Preparing(target) | Stage::Changing(target)) => {
            is_at(at, &target.channel)
        }
        _ => false,
    }
}
