// SPDX-License-Identifier: MIT OR Apache-2.0
ghost use Rattle.std.specs.Prelude.{◌≡◌, ◌==◌, ◌++◌, codes, decimal};
ghost use Rattle.judge_report.specs.ConnectionText.{came_of, gone_of, has_fault, is_blamed};
ghost use Rattle.judge_report.specs.ConnectionText.{is_faulty, mark_text, outcome};
ghost use Rattle.judge_report.specs.ConnectionText.{outcome_unblamed, plural_end, reason_text};
ghost use Rattle.judge_report.specs.ConnectionText.{standing, standing_text, sum_of};

use crate::style::Strictness;
use run_judge::{Connection, Flows, Order, Reason, Unjudged};

/// The verdict on the flows of one direction.
#[derive(Clone, Copy)]
pub enum Standing {
    InOrder,
    NotInOrder,
    /// No fault was found, but the beginning of the connection isn't known.
    NotJudged,
}

/// The result of a connection's test point.
#[derive(Clone, Copy)]
pub enum Outcome {
    Passes,
    Fails,
    /// The connection isn't judged to the end, and has no fault.
    Skips(Unjudged),
}

/// The sum of two counts. Saturates.
pub(crate) fn sum_of(one: u64, other: u64) -> u64
    ensures { result ≡ sum_of one other }
{
    one.saturating_add(other)
}

/// The plural ending of a counted word: empty for 1, else `s`.
pub(crate) fn plural_end(count: u64) -> &'static str
    ensures { result.now ≡ plural_end count }
{
    match count {
        1 => "",
        _ => "s",
    }
}

/// The number of messages of both flows that arrived. Saturates.
pub(crate) fn came_of(flows: &Flows) -> u64
    ensures { result ≡ came_of flows.now }
{
    sum_of(flows.zero.came(), flows.three.came())
}

/// The number of messages of both flows that were passed on. Saturates.
pub(crate) fn gone_of(flows: &Flows) -> u64
    ensures { result ≡ gone_of flows.now }
{
    sum_of(flows.zero.gone(), flows.three.gone())
}

fn is_faulty(order: &Order) -> bool
    ensures { result ≡ is_faulty order.now }
{
    match order {
        Order::InOrder(_) => false,
        Order::Faulty(_) => true,
    }
}

/// Whether any flow has a fault.
pub(crate) fn has_fault(flows: &Flows) -> bool
    ensures { result ≡ has_fault flows.now }
{
    is_faulty(flows.zero.order()) || is_faulty(flows.three.order())
}

/// Whether any flow of a connection has a fault. Such a fault is the controller's.
pub(crate) fn is_blamed(connection: &Connection) -> bool
    ensures { result ≡ is_blamed connection.now }
{
    has_fault(&connection.up) || has_fault(&connection.down)
}

/// The verdict on the flows of one direction of a connection. `station` is the station that serves
/// the connection, or 0 if the beginning of the connection isn't known.
pub(crate) fn standing_of(station: u16, flows: &Flows) -> Standing
    ensures { result ≡ standing station flows.now }
{
    if has_fault(flows) {
        Standing::NotInOrder
    } else if station == 0 {
        Standing::NotJudged
    } else {
        Standing::InOrder
    }
}

impl Standing {
    /// The verdict in words.
    pub(crate) fn text(self) -> &'static str
        ensures { result.now ≡ standing_text self }
    {
        match self {
            Standing::InOrder => "in order",
            Standing::NotInOrder => "not in order",
            Standing::NotJudged => "not judged",
        }
    }
}

/// Why a connection isn't judged, in words.
pub(crate) fn reason_text(reason: Reason) -> &'static str
    ensures { result.now ≡ reason_text reason }
{
    match reason {
        Reason::Hole => "a hole in the capture",
        Reason::NoBeginning => "a connection whose ESTABLISH INDICATION isn't there",
        Reason::TwoBeginnings => "two channels on which a mobile sent this first message",
        Reason::UnknownChannel => "a command that names an unknown cell",
        Reason::TwoChannels => "a command that may name two channels",
        Reason::SharedReference => "the switch gave its reference to two connections",
        Reason::CommandOfSwitch => {
            "the switch sent a COMMAND of radio resource management as DTAP"
        }
        Reason::BeforeComplete => "a message on the next channel before its COMPLETE",
        Reason::OutsideTenure => "a station brought a message outside the tenure of its channel",
    }
}

/// The result of a connection's test point, from its verdict and `strictness`.
pub(crate) fn outcome_of(strictness: Strictness, connection: &Connection) -> Outcome
    ensures { result ≡ outcome strictness connection.now }
{
    if is_blamed(connection) {
        Outcome::Fails
    } else {
        outcome_unblamed(strictness, connection.unjudged)
    }
}

/// The result for a connection without a fault of the controller.
fn outcome_unblamed(strictness: Strictness, unjudged: Option<Unjudged>) -> Outcome
    ensures { result ≡ outcome_unblamed strictness unjudged }
{
    match (strictness, unjudged) {
        (_, None) => Outcome::Passes,
        (Strictness::Lenient, Some(unjudged)) => Outcome::Skips(unjudged),
        (Strictness::Strict, Some(_)) => Outcome::Fails,
    }
}

impl Outcome {
    /// The beginning of the test point's line.
    pub(crate) fn mark(self) -> &'static str
        ensures { result.now ≡ mark_text self }
    {
        match self {
            Outcome::Passes | Outcome::Skips(_) => "ok ",
            Outcome::Fails => "not ok ",
        }
    }
}
