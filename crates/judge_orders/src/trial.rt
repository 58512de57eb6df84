// SPDX-License-Identifier: MIT OR Apache-2.0
ghost use Rattle.std.specs.Prelude.{◌≡◌, [], ◌∷◌, ◌++◌, fold, map, option_map};
ghost use Rattle.std.specs.Prelude.{option_to_list, unwrap_or, IfOk, OnOk, Some};
ghost use Rattle.judge_orders.specs.Judged.{alone};
ghost use Rattle.judge_orders.specs.Orders.{decided_in, going_on};
ghost use Rattle.judge_orders.specs.Shown.{shown_trial};
ghost use Rattle.judge_orders.specs.Trial.{both_after, both_ended, decided, first_finding};
ghost use Rattle.judge_orders.specs.Trial.{in_trial, is_number, is_of, left_in, others_left};
ghost use Rattle.judge_orders.specs.Trial.{is_over, joins, judged_as, known_of, left_judged};
ghost use Rattle.judge_orders.specs.Trial.{may_be_joined, next_by, others, second_finding};
ghost use Rattle.judge_orders.specs.Trial.{tried_with, with_ended};

use crate::Judged;
use crate::finding::Finding;
use crate::steps::{take, waits_on};
use octets::{Memory, Octets};
use run_judge::{Connection, Judge, Pair, Said};
use std::alloc::Global;

/// A connection of a trial after its end.
#[derive(Drop)]
pub(crate) struct Tried {
    /// What holds for the connection in either order. Its messages aren't judged.
    pub known: Connection,
    /// The connection with its verdict by the first order, if that order has it.
    pub first: Option<Connection>,
    /// The connection with its verdict by the second order, if that order has it.
    pub second: Option<Connection>,
}

/// The connection that a frame ended by the first order, and the connection that it ended by the
/// second order, if any.
#[derive(Drop)]
pub(crate) struct Both {
    pub first: Option<Connection>,
    pub second: Option<Connection>,
}

/// The two orders of two connections that began with the same initial message on two channels.
#[derive(Drop)]
pub(crate) struct Trial {
    pub alloc: Global,
    pub message: Octets,
    pub pair: Pair,
    /// The judge of the first order: the first connection began on `pair.one`.
    pub first: Judge,
    /// The judge of the second order: the first connection began on `pair.other`.
    pub second: Judge,
    /// The number of the first connection.
    pub number: u64,
    /// The number of the second connection, from its CR on.
    pub next: Option<u64>,
    /// The connections of the trial that ended.
    pub ended: Vec<Tried>,
}

fn is_number(number: u64, next: Option<u64>) -> bool
    ensures { result ≡ is_number number next }
{
    match next {
        Some(other) => number == other,
        None => false,
    }
}

fn finding_of(connection: &Option<Connection>) -> Finding
    ensures { result ≡ tried_with connection.now }
{
    match connection {
        Some(connection) => Finding::of(connection),
        None => Finding::NotJudged,
    }
}

fn first_finding(tried: &[Tried]) -> Finding
    ensures { result ≡ first_finding tried.now }
{
    let mut finding = Finding::InOrder;
    for t in tried {
        finding = finding.worse(finding_of(&t.first));
    }
    finding
}

fn second_finding(tried: &[Tried]) -> Finding
    ensures { result ≡ second_finding tried.now }
{
    let mut finding = Finding::InOrder;
    for t in tried {
        finding = finding.worse(finding_of(&t.second));
    }
    finding
}

// The verdict `by_order`, or `known` if `by_order` is `None`.
fn connection_of(by_order: Option<Connection>, known: Connection) -> Connection
    ensures { result ≡ unwrap_or by_order known }
{
    match by_order {
        Some(connection) => {
            drop(known);
            connection
        }
        None => known,
    }
}

impl Tried {
    // The final verdict of the connection, from the findings of the two orders.
    fn judged_as(self, first_finding: Finding, second_finding: Finding) -> Judged
        ensures { result ≡ judged_as first_finding second_finding self }
    {
        let Tried {
            known,
            first,
            second,
        } = self;
        let connection = if first_finding.yields_to(second_finding) {
            drop(first);
            connection_of(second, known)
        } else {
            drop(second);
            connection_of(first, known)
        };
        Judged {
            connection,
            fit: Some(first_finding.fit_with(second_finding)),
        }
    }
}

impl Tried {
    // What is known of the connection without an order.
    fn into_known(self) -> Connection
        ensures { result ≡ self.known }
    {
        let Tried {
            known,
            first,
            second,
        } = self;
        drop(first);
        drop(second);
        known
    }
}

// Connections are large. Here and below, an unused value is dropped by a call of `drop`, because an
// implicit drop would have to be proved on each path.
fn add(one: Judged, judged: &mut Vec<Judged>) -> Result<(), Memory>
    ensures { OnOk result (judged.new.items ≡ judged.old.items ++ one ∷ []) }
{
    match judged.reserve(1) {
        Ok(()) => {
            judged.push_reserved(one);
            Ok(())
        }
        Err(_) => {
            drop(one);
            Err(Memory)
        }
    }
}

fn add_tried(one: Tried, tried: &mut Vec<Tried>) -> Result<(), Memory>
    ensures { OnOk result (tried.new.items ≡ tried.old.items ++ one ∷ []) }
{
    match tried.reserve(1) {
        Ok(()) => {
            tried.push_reserved(one);
            Ok(())
        }
        Err(_) => {
            drop(one);
            Err(Memory)
        }
    }
}

fn add_connection(one: Connection, connections: &mut Vec<Connection>) -> Result<(), Memory>
    ensures { OnOk result (connections.new.items ≡ connections.old.items ++ one ∷ []) }
{
    match connections.reserve(1) {
        Ok(()) => {
            connections.push_reserved(one);
            Ok(())
        }
        Err(_) => {
            drop(one);
            Err(Memory)
        }
    }
}

/// Appends the final verdicts of `tried`.
pub(crate) fn decide(tried: Vec<Tried>, judged: &mut Vec<Judged>) -> Result<(), Memory>
    ensures { OnOk result (judged.new.items ≡ judged.old.items ++ decided tried.items) }
{
    let first = first_finding(tried.as_slice());
    let second = second_finding(tried.as_slice());
    add_judged(tried, first, second, judged)
}

// Appends the final verdicts of `tried`, given the findings of the two orders.
fn add_judged(
    tried: Vec<Tried>,
    first: Finding,
    second: Finding,
    judged: &mut Vec<Judged>,
) -> Result<(), Memory>
    ensures { OnOk result
        (judged.new.items ≡ judged.old.items ++ map (judged_as first second) tried.items) }
{
    for t in tried {
        add(t.judged_as(first, second), judged)?;
    }
    Ok(())
}

/// Appends what is known of the connections `tried` without an order.
pub(crate) fn give_up(tried: Vec<Tried>, judged: &mut Vec<Judged>) -> Result<(), Memory>
    ensures { OnOk result (judged.new.items ≡ judged.old.items ++ map known_of tried.items) }
{
    for t in tried {
        add(Judged::alone(t.into_known()), judged)?;
    }
    Ok(())
}

/// Appends connections for which no orders were tried.
pub(crate) fn add_alone(
    connections: Vec<Connection>,
    judged: &mut Vec<Judged>,
) -> Result<(), Memory>
    ensures { OnOk result (judged.new.items ≡ judged.old.items ++ map alone connections.items) }
{
    for connection in connections {
        add(Judged::alone(connection), judged)?;
    }
    Ok(())
}

/// Appends the connection, if there is one, as a connection for which no orders were tried.
pub(crate) fn add_one_alone(
    connection: Option<Connection>,
    judged: &mut Vec<Judged>,
) -> Result<(), Memory>
    ensures { OnOk result
        (judged.new.items ≡ judged.old.items ++ map alone (option_to_list connection)) }
{
    match connection {
        Some(connection) => add(Judged::alone(connection), judged),
        None => Ok(()),
    }
}

impl Trial {
    // Whether connection `number` is one of the trial's two connections.
    fn is_of(&self, number: u64) -> bool
        ensures { result ≡ is_of number (shown_trial self.now) }
    {
        number == self.number || is_number(number, self.next)
    }

    // Whether `said` is the CR of the second connection.
    fn is_joined_by(&self, said: &Said) -> bool
        ensures { result ≡ joins said.now (shown_trial self.now) }
    {
        match said {
            Said::Requests { message, .. } => {
                self.next.is_none() && message.as_slice() == self.message.as_slice()
            }
            _ => false,
        }
    }

    // Whether the CR of the second connection is still outstanding: by one of the orders, the
    // channel of the second connection still waits for its CR.
    fn may_be_joined(&self) -> bool
        ensures { result ≡ may_be_joined (shown_trial self.now) }
    {
        let message = self.message.as_slice();
        self.next.is_none()
            && (waits_on(&self.first, self.pair.other, message)
                || waits_on(&self.second, self.pair.one, message))
    }

    /// Whether the connections of the trial ended and no CR is outstanding.
    pub(crate) fn is_over(&self) -> bool
        ensures { result ≡ is_over (shown_trial self.now) }
    {
        let connections = if self.next.is_some() { 2 } else { 1 };
        self.ended.len() == connections && !self.may_be_joined()
    }

    // Takes a connection that ended, with its verdict by each order. Returns the connection, unless
    // it is one of the trial's two. `Err`: allocation failed; the trial must not be used again,
    // here and below.
    fn end(
        &mut self,
        ended: Option<Connection>,
        first: Option<Connection>,
        second: Option<Connection>,
    ) -> Result<Option<Connection>, Memory>
        ensures others { IfOk result (λ other. other ≡ others ended (shown_trial self.old)) }
        ensures trial { OnOk result
            (shown_trial self.new ≡ with_ended ended first second (shown_trial self.old)) }
    {
        let Some(known) = ended else {
            drop(first);
            drop(second);
            return Ok(None);
        };
        if !self.is_of(known.number) {
            drop(first);
            drop(second);
            return Ok(Some(known));
        }
        let tried = Tried {
            known,
            first,
            second,
        };
        add_tried(tried, &mut self.ended)?;
        Ok(None)
    }

    // The number of the second connection: `begun` if `said` is the CR of the second connection,
    // else `self.next`.
    fn next_by(&self, said: &Said, begun: u64) -> Option<u64>
        ensures { result ≡ next_by said.now begun (shown_trial self.now) }
    {
        if self.is_joined_by(said) {
            Some(begun)
        } else {
            self.next
        }
    }

    // Gives frame number `frame` to both judges.
    fn take_both(&mut self, frame: u64, said: Said) -> Result<Both, Memory>
        ensures both { IfOk result (λ both. both ≡ both_ended said (shown_trial self.old)) }
        ensures trial { OnOk result (shown_trial self.new ≡ both_after frame said
            (shown_trial self.old)) }
    {
        let copy = said.copy(self.alloc)?;
        let first = take(&mut self.first, frame, said)?;
        match take(&mut self.second, frame, copy) {
            Ok(second) => Ok(Both { first, second }),
            Err(memory) => {
                drop(first);
                Err(memory)
            }
        }
    }

    /// Takes frame number `frame`, which ended the connection `ended`, if any. `begun` is the
    /// number of CRs up to and including the frame. Returns `ended`, unless it is one of the
    /// trial's two connections.
    pub(crate) fn take(
        &mut self,
        frame: u64,
        said: Said,
        begun: u64,
        ended: Option<Connection>,
    ) -> Result<Option<Connection>, Memory>
        ensures others { IfOk result (λ other. other ≡ others ended (shown_trial self.old)) }
        ensures trial { OnOk result
            (shown_trial self.new ≡ in_trial frame said begun ended (shown_trial self.old)) }
    {
        let next = self.next_by(&said, begun);
        match self.take_both(frame, said) {
            Ok(Both { first, second }) => {
                let other = self.end(ended, first, second)?;
                self.next = next;
                Ok(other)
            }
            Err(memory) => {
                drop(ended);
                Err(memory)
            }
        }
    }

    /// The connections of the trial that ended.
    pub(crate) fn into_ended(self) -> Vec<Tried>
        ensures { result.items ≡ (shown_trial self).ended }
    {
        let Trial {
            message,
            first,
            second,
            ended,
            ..
        } = self;
        drop(message);
        drop(first);
        drop(second);
        ended
    }

    /// Appends the final verdicts if the trial is over; else returns the trial.
    pub(crate) fn decide_if_over(self, judged: &mut Vec<Judged>) -> Result<Option<Trial>, Memory>
        ensures trial { IfOk result
            (λ trial. option_map shown_trial trial ≡ going_on (shown_trial self)) }
        ensures judged { OnOk result
            (judged.new.items ≡ judged.old.items ++ decided_in (shown_trial self)) }
    {
        if self.is_over() {
            decide(self.into_ended(), judged)?;
            Ok(None)
        } else {
            Ok(Some(self))
        }
    }

    // Ends a connection that is open at the end of the capture. Appends the connection to `other`,
    // unless it is one of the trial's two.
    fn leave(&mut self, connection: Connection, other: &mut Vec<Connection>) -> Result<(), Memory>
        ensures trial { OnOk result
            (shown_trial self.new ≡ left_in (shown_trial self.old) connection) }
        ensures others { OnOk result (other.new.items
            ≡ other.old.items ++ option_to_list (others (Some connection) (shown_trial self.old))) }
    {
        let source = connection.reference;
        match self.take(0, Said::Ends { source }, 0, Some(connection))? {
            Some(one) => add_connection(one, other),
            None => Ok(()),
        }
    }

    fn leave_all(
        &mut self,
        left: Vec<Connection>,
        other: &mut Vec<Connection>,
    ) -> Result<(), Memory>
        ensures trial { OnOk result
            (shown_trial self.new ≡ fold left_in (shown_trial self.old) left.items) }
        ensures others { OnOk result (other.new.items
            ≡ other.old.items ++ others_left (shown_trial self.old) left.items) }
    {
        for connection in left {
            self.leave(connection, other)?;
        }
        Ok(())
    }

    /// Appends the verdicts at the end of the capture, when the connections `left` are still open.
    pub(crate) fn finish(
        mut self,
        left: Vec<Connection>,
        judged: &mut Vec<Judged>,
    ) -> Result<(), Memory>
        ensures { OnOk result (judged.new.items
            ≡ judged.old.items ++ left_judged (shown_trial self) left.items) }
    {
        let mut others = Vec::new(self.alloc);
        match self.leave_all(left, &mut others) {
            Ok(()) => add_both(self.into_ended(), others, judged),
            Err(memory) => {
                drop(self);
                drop(others);
                Err(memory)
            }
        }
    }
}

// Appends the verdicts of the trial's connections, and then those of `others`.
fn add_both(
    tried: Vec<Tried>,
    others: Vec<Connection>,
    judged: &mut Vec<Judged>,
) -> Result<(), Memory>
    ensures { OnOk result (judged.new.items
        ≡ judged.old.items ++ (decided tried.items ++ map alone others.items)) }
{
    match decide(tried, judged) {
        Ok(()) => add_alone(others, judged),
        Err(memory) => {
            drop(others);
            Err(memory)
        }
    }
}
