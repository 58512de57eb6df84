// SPDX-License-Identifier: MIT OR Apache-2.0
ghost use Rattle.std.specs.Prelude.{◌≡◌, IfOk, OnOk, None, Some, if◌then◌else◌};
ghost use Rattle.world_model.specs.Life.{actors_after};
ghost use Rattle.world_trace.specs.Causes.{cause, refusal};
ghost use Rattle.world_trace.specs.Crossings.{crossings};
ghost use Rattle.world_trace.specs.Fates.{fate_at};
ghost use Rattle.world_trace.specs.Makings.{made_at};
ghost use Rattle.world_trace.specs.Notes.{notes_at};
ghost use Rattle.world_trace.specs.Turns.{turn_sights};

use crate::cause::{Cause, cause_of};
use crate::crossing::Crossing;
use crate::expiry::note_expired;
use crate::fate::{Fate, connection_at, counts_of, fate_by};
use crate::got::{got, waiting};
use crate::made::Makings;
use crate::puts::puts_of;
use crate::sent::Marks;
use crate::turn::turn_sights;
use connection_notes::{Note, Sight, note_steps};
use octets::Memory;
use std::alloc::Global;
use world_actors::Network;
use world_model::Event;

/// What an event did.
#[derive(Drop)]
pub struct EventTrace {
    /// Why the event wasn't taken; `None` if it was taken.
    pub refusal: Option<Cause>,
    /// The frames that crossed a link of the controller: first the frames that were taken from a
    /// link, then the frames that were put on one.
    pub crossings: Vec<Crossing>,
    /// The fate of the message that the switch took on a connection; `None` if the switch took no
    /// message.
    pub fate: Option<Fate>,
    /// The frames that stations and the switch made for the controller.
    pub made: Vec<Crossing>,
    /// The notes on the controller's connections: first the timers that expired, then the changes.
    pub notes: Vec<Note>,
}

/// The frames that crossed the links at an event, and why the event wasn't taken; `None` if it was
/// taken.
#[derive(Drop)]
struct Passed {
    refusal: Option<Cause>,
    crossings: Vec<Crossing>,
}

/// Lets the event happen, and answers the event's trace: why the event wasn't taken, the frames
/// that crossed the controller's links or were made for the controller, and what became of the
/// controller's connections. An event that its actor can't take is a no-op. Fails only on
/// allocation failure; the actors are then unspecified. `Tracing` does the same for a sequence of
/// events.
pub fn step(alloc: Global, network: &mut Network, event: &Event) -> Result<EventTrace, Memory>
    ensures actors { OnOk result (network.new ≡ actors_after network.old event.now) }
    ensures refusal { IfOk result (λ trace. trace.refusal ≡ refusal network.old event.now) }
    ensures crossings { IfOk result (λ trace.
        trace.crossings.items ≡ crossings network.old event.now) }
    ensures fate { IfOk result (λ trace. trace.fate ≡ fate_at network.old event.now) }
    ensures made { IfOk result (λ trace. trace.made.items ≡ made_at network.old event.now) }
    ensures notes { IfOk result (λ trace. trace.notes.items ≡ notes_at network.old event.now) }
{
    let before = turn_sights(alloc, network, event)?;
    let (trace, _) = step_from(alloc, network, event, before.as_slice())?;
    Ok(trace)
}

/// Does the same as `step`, and also answers the sights of the connections after the event. If the
/// event isn't the controller's turn, `before` and the answered list are empty. Assumes: `before`
/// has the sights before the event, if it is the controller's turn.
pub(crate) fn step_from(
    alloc: Global,
    network: &mut Network,
    event: &Event,
    before: &[Sight],
) -> Result<(EventTrace, Vec<Sight>), Memory>
    requires { before.now ≡ turn_sights event.now network.old.controller }
    ensures actors { OnOk result (network.new ≡ actors_after network.old event.now) }
    ensures refusal { IfOk result (λ p. p.0.refusal ≡ refusal network.old event.now) }
    ensures crossings { IfOk result (λ p.
        p.0.crossings.items ≡ crossings network.old event.now) }
    ensures fate { IfOk result (λ p. p.0.fate ≡ fate_at network.old event.now) }
    ensures made { IfOk result (λ p. p.0.made.items ≡ made_at network.old event.now) }
    ensures notes { IfOk result (λ p. p.0.notes.items ≡ notes_at network.old event.now) }
    ensures behind { IfOk result (λ p.
        p.1.items ≡ turn_sights event.now network.new.controller) }
{
    let connection = connection_at(alloc, network, event)?;
    let counts = counts_of(network, connection);
    let makings = Makings::of(alloc, network, event)?;
    let mut notes = Vec::new(alloc);
    note_expired(network, event, &mut notes)?;
    let Passed { refusal, crossings } = pass(alloc, network, event)?;
    let fate = fate_by(counts, counts_of(network, connection));
    let mut made = Vec::new(alloc);
    makings.note_behind(alloc, network, &mut made)?;
    let puts = puts_of(crossings.as_slice());
    let behind = turn_sights(alloc, network, event)?;
    note_steps(puts, before, behind.as_slice(), &mut notes)?;
    let trace = EventTrace {
        refusal,
        crossings,
        fate,
        made,
        notes,
    };
    Ok((trace, behind))
}

/// Lets the event happen. Answers the frames that crossed the controller's links, and why the event
/// wasn't taken if it wasn't.
fn pass(alloc: Global, network: &mut Network, event: &Event) -> Result<Passed, Memory>
    ensures actors { OnOk result (network.new ≡ actors_after network.old event.now) }
    ensures refusal { IfOk result (λ passed. passed.refusal ≡ refusal network.old event.now) }
    ensures crossings { IfOk result (λ passed.
        passed.crossings.items ≡ crossings network.old event.now) }
{
    let first = waiting(alloc, network, event)?;
    let marks = Marks::of(alloc, network, event)?;
    let taken = network.step(event)?;
    let mut crossings = got(alloc, taken, first)?;
    marks.note_behind(alloc, network, &mut crossings)?;
    let refusal = refusal_of(network, event, taken);
    Ok(Passed { refusal, crossings })
}

/// Why an event wasn't taken; `None` if `taken` is true.
fn refusal_of(network: &Network, event: &Event, taken: bool) -> Option<Cause>
    ensures { result ≡ (if taken then None else Some (cause network.now event.now)) }
{
    if taken {
        None
    } else {
        Some(cause_of(network, event))
    }
}
