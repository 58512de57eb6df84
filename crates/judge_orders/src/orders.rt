// SPDX-License-Identifier: MIT OR Apache-2.0
ghost use Rattle.std.specs.Prelude.{◌≡◌, ◌++◌, option_map, option_to_list, map, IfOk, None, OnOk};
ghost use Rattle.std.specs.Prelude.{Some};
ghost use Rattle.dtap_codec.specs.Number.{count_of};
ghost use Rattle.run_judge.specs.JudgeState.{shown};
ghost use Rattle.judge_orders.specs.Judged.{alone};
ghost use Rattle.judge_orders.specs.Left.{IsLeft};
ghost use Rattle.judge_orders.specs.Left.{judged_in_the_end};
ghost use Rattle.judge_orders.specs.Orders.{decided_in, going_on, judged_at_hole, judged_by};
ghost use Rattle.judge_orders.specs.Orders.{judged_in_trial};
ghost use Rattle.judge_orders.specs.Orders.{new_orders, orders_after, orders_after_hole};
ghost use Rattle.judge_orders.specs.Orders.{request_in, trial_after, trial_of};
ghost use Rattle.judge_orders.specs.Trial.{given_up, known_of, others};
ghost use Rattle.judge_orders.specs.Shown.{shown_orders, shown_trial};
ghost use Rattle.judge_orders.specs.Steps.{after, ended_by};

use crate::Judged;
use crate::left::left_in_order;
use crate::steps::{begin_apart, beginnings, gives_again, miss, take};
use crate::trial::{Trial, Tried, add_alone, add_one_alone, give_up};
use dtap_codec::{CellDescription, Modulus};
use octets::{Memory, Octets};
use run_judge::{Connection, Judge, Said};
use std::alloc::Global;
use std::mem::replace;

/// A CR: the controller's reference, and the initial message.
#[derive(Drop)]
pub(crate) struct Request {
    pub source: u32,
    pub message: Octets,
}

/// The connections of one controller after the frames so far, and the trial of two orders, if a
/// trial is pending.
#[derive(Drop)]
pub struct Orders {
    pub(crate) alloc: Global,
    pub(crate) judge: Judge,
    pub(crate) trial: Option<Trial>,
}

// The CR in `said`; `None` if `said` isn't a CR.
fn request_in(alloc: Global, said: &Said) -> Result<Option<Request>, Memory>
    ensures { IfOk result (λ request. request ≡ request_in said.now) }
{
    match said {
        Said::Requests { source, message } => Ok(Some(Request {
            source: *source,
            message: Octets::copy(alloc, message.as_slice())?,
        })),
        _ => Ok(None),
    }
}

impl Orders {
    /// The state before the first frame. N(SD) counts modulo `modulus`; `cells` has the cell of
    /// station N at index N - 1, as far as cells are known. Allocates nothing.
    pub fn new(alloc: Global, modulus: Modulus, cells: Vec<CellDescription>) -> Orders
        ensures { shown_orders result ≡ new_orders (count_of modulus) cells.items }
    {
        Orders {
            alloc,
            judge: Judge::new(alloc, modulus, cells),
            trial: None,
        }
    }

    /// Takes `said`, which the frame with the number `frame` says. Returns the connections whose
    /// verdict is final after the frame. `Err`: allocation failed; `self` must not be used again.
    pub fn take(&mut self, frame: u64, said: Said) -> Result<Vec<Judged>, Memory>
        ensures after { OnOk result
            (shown_orders self.new ≡ orders_after frame said (shown_orders self.old)) }
        ensures judged { IfOk result
            (λ judged. judged.items ≡ judged_by frame said (shown_orders self.old)) }
    {
        if self.trial.is_none() {
            return self.take_alone(frame, said);
        }
        match replace(&mut self.trial, None) {
            None => self.take_alone(frame, said),
            Some(trial) => {
                if gives_again(&self.judge, &said) {
                    self.take_giving_up(frame, said, trial)
                } else {
                    self.take_in_trial(frame, said, trial)
                }
            }
        }
    }

    // Takes a frame while no trial is pending. A trial may begin.
    fn take_alone(&mut self, frame: u64, said: Said) -> Result<Vec<Judged>, Memory>
        requires { (self.old).trial ≡ None }
        ensures judge { OnOk result
            (shown (self.new).judge ≡ after frame said (shown (self.old).judge)) }
        ensures trial { OnOk result (option_map shown_trial (self.new).trial
            ≡ trial_of (request_in said) frame (after frame said (shown (self.old).judge))) }
        ensures judged { IfOk result (λ judged.
            judged.items ≡ map alone (option_to_list (ended_by said (shown (self.old).judge)))) }
    {
        match request_in(self.alloc, &said)? {
            None => self.take_other(frame, said),
            Some(request) => self.take_request(frame, said, request),
        }
    }

    // Takes a frame that isn't a CR. No connection is moved unless it ends.
    fn take_other(&mut self, frame: u64, said: Said) -> Result<Vec<Judged>, Memory>
        ensures judge { OnOk result
            (shown (self.new).judge ≡ after frame said (shown (self.old).judge)) }
        ensures trial { (self.new).trial ≡ (self.old).trial }
        ensures judged { IfOk result (λ judged.
            judged.items ≡ map alone (option_to_list (ended_by said (shown (self.old).judge)))) }
    {
        match take(&mut self.judge, frame, said) {
            Ok(None) => Ok(Vec::new(self.alloc)),
            Ok(Some(ended)) => judged_alone(self.alloc, Some(ended)),
            Err(memory) => Err(memory),
        }
    }

    // Takes a CR, which may begin a trial.
    fn take_request(
        &mut self,
        frame: u64,
        said: Said,
        request: Request,
    ) -> Result<Vec<Judged>, Memory>
        requires { (self.old).trial ≡ None }
        ensures judge { OnOk result
            (shown (self.new).judge ≡ after frame said (shown (self.old).judge)) }
        ensures trial { OnOk result (option_map shown_trial (self.new).trial
            ≡ trial_of (Some request) frame (after frame said (shown (self.old).judge))) }
        ensures judged { IfOk result (λ judged.
            judged.items ≡ map alone (option_to_list (ended_by said (shown (self.old).judge)))) }
    {
        let ended = take(&mut self.judge, frame, said)?;
        match self.begin_trial(frame, request) {
            Ok(()) => judged_alone(self.alloc, ended),
            Err(memory) => {
                drop(ended);
                Err(memory)
            }
        }
    }

    fn begin_trial(&mut self, frame: u64, request: Request) -> Result<(), Memory>
        ensures trial { OnOk result (option_map shown_trial (self.new).trial
            ≡ trial_of (Some request) frame (shown (self.old).judge)) }
        ensures judge { OnOk result ((self.new).judge ≡ (self.old).judge) }
    {
        let trial = self.trial_of(frame, request)?;
        drop(replace(&mut self.trial, trial));
        Ok(())
    }

    // The trial that the CR `request` begins. `None` unless its initial message came on exactly two
    // channels.
    fn trial_of(&self, frame: u64, request: Request) -> Result<Option<Trial>, Memory>
        ensures { IfOk result (λ trial. option_map shown_trial trial
            ≡ trial_of (Some request) frame (shown (self.now).judge)) }
    {
        let Request { source, message } = request;
        let Some(pair) = beginnings(&self.judge, source, message.as_slice())? else {
            return Ok(None);
        };
        let first = begin_apart(&self.judge, pair, source, frame)?;
        let second = begin_apart(&self.judge, pair.turned(), source, frame)?;
        Ok(Some(Trial {
            alloc: self.alloc,
            message,
            pair,
            first,
            second,
            number: self.judge.begun(),
            next: None,
            ended: Vec::new(self.alloc),
        }))
    }

    // Takes a CC that gives a reference which is in use. Messages with the reference have two
    // possible owners, and the trial ends without a result.
    fn take_giving_up(
        &mut self,
        frame: u64,
        said: Said,
        trial: Trial,
    ) -> Result<Vec<Judged>, Memory>
        ensures judge { OnOk result
            (shown (self.new).judge ≡ after frame said (shown (self.old).judge)) }
        ensures trial { OnOk result ((self.new).trial ≡ (self.old).trial) }
        ensures judged { IfOk result (λ judged. judged.items ≡ given_up (shown_trial trial)) }
    {
        match take(&mut self.judge, frame, said) {
            Ok(none) => {
                drop(none);
                judged_known(self.alloc, trial.into_ended())
            }
            Err(memory) => {
                drop(trial);
                Err(memory)
            }
        }
    }

    fn take_in_trial(
        &mut self,
        frame: u64,
        said: Said,
        mut trial: Trial,
    ) -> Result<Vec<Judged>, Memory>
        ensures judge { OnOk result
            (shown (self.new).judge ≡ after frame said (shown (self.old).judge)) }
        ensures trial { OnOk result (option_map shown_trial (self.new).trial
            ≡ going_on (trial_after frame said (shown (self.old).judge) (shown_trial trial))) }
        ensures judged { IfOk result (λ judged. judged.items
            ≡ judged_in_trial frame said (shown (self.old).judge) (shown_trial trial)) }
    {
        match try_both(self.alloc, &mut self.judge, &mut trial, frame, said) {
            Ok(other) => self.go_on(trial, other),
            Err(memory) => {
                drop(trial);
                Err(memory)
            }
        }
    }

    // Goes on after the trial took a frame. `other` is the connection outside the trial that the
    // frame ended, if any.
    fn go_on(&mut self, trial: Trial, other: Option<Connection>) -> Result<Vec<Judged>, Memory>
        ensures judge { OnOk result ((self.new).judge ≡ (self.old).judge) }
        ensures trial { OnOk result
            (option_map shown_trial (self.new).trial ≡ going_on (shown_trial trial)) }
        ensures judged { IfOk result (λ judged. judged.items
            ≡ map alone (option_to_list other) ++ decided_in (shown_trial trial)) }
    {
        let mut judged = Vec::new(self.alloc);
        match self.keep(trial, other, &mut judged) {
            Ok(()) => Ok(judged),
            Err(memory) => {
                drop(judged);
                Err(memory)
            }
        }
    }

    fn keep(
        &mut self,
        trial: Trial,
        other: Option<Connection>,
        judged: &mut Vec<Judged>,
    ) -> Result<(), Memory>
        ensures judge { OnOk result ((self.new).judge ≡ (self.old).judge) }
        ensures trial { OnOk result
            (option_map shown_trial (self.new).trial ≡ going_on (shown_trial trial)) }
        ensures judged { OnOk result (judged.new.items ≡ judged.old.items
            ++ (map alone (option_to_list other) ++ decided_in (shown_trial trial))) }
    {
        match add_one_alone(other, judged) {
            Ok(()) => {
                let trial = trial.decide_if_over(judged)?;
                drop(replace(&mut self.trial, trial));
                Ok(())
            }
            Err(memory) => {
                drop(trial);
                Err(memory)
            }
        }
    }

    /// Records that frames are missing before frame number `frame`: the open connections aren't
    /// judged from there on, and a pending trial ends. Returns the connections whose verdict is
    /// final then. `Err`: allocation failed; `self` must not be used again.
    pub fn miss(&mut self, frame: u64) -> Result<Vec<Judged>, Memory>
        ensures after { OnOk result
            (shown_orders self.new ≡ orders_after_hole frame (shown_orders self.old)) }
        ensures judged { IfOk result
            (λ judged. judged.items ≡ judged_at_hole (shown_orders self.old)) }
    {
        miss(&mut self.judge, frame);
        match replace(&mut self.trial, None) {
            None => Ok(Vec::new(self.alloc)),
            Some(trial) => judged_known(self.alloc, trial.into_ended()),
        }
    }

    /// Returns the connections that are still open at the end of the capture, and those of a
    /// pending trial. `Err`: allocation failed.
    pub fn finish(self) -> Result<Vec<Judged>, Memory>
        ensures { IfOk result (λ judged. IsLeft (shown_orders self) judged.items) }
    {
        let Orders {
            alloc,
            judge,
            trial,
        } = self;
        match left_in_order(judge) {
            Ok(left) => judged_in_the_end(alloc, trial, left),
            Err(memory) => {
                drop(trial);
                Err(memory)
            }
        }
    }
}

// Gives a frame to the judge of all connections and to the trial. Returns the connection that the
// frame ended, unless it is one of the trial's connections.
fn try_both(
    alloc: Global,
    judge: &mut Judge,
    trial: &mut Trial,
    frame: u64,
    said: Said,
) -> Result<Option<Connection>, Memory>
    ensures judge { OnOk result (shown judge.new ≡ after frame said (shown judge.old)) }
    ensures trial { OnOk result (shown_trial trial.new
        ≡ trial_after frame said (shown judge.old) (shown_trial trial.old)) }
    ensures other { IfOk result
        (λ other. other ≡ others (ended_by said (shown judge.old)) (shown_trial trial.old)) }
{
    let copy = said.copy(alloc)?;
    let ended = take(judge, frame, said)?;
    trial.take(frame, copy, judge.begun(), ended)
}

fn judged_alone(alloc: Global, ended: Option<Connection>) -> Result<Vec<Judged>, Memory>
    ensures { IfOk result (λ judged. judged.items ≡ map alone (option_to_list ended)) }
{
    let mut judged = Vec::new(alloc);
    match add_one_alone(ended, &mut judged) {
        Ok(()) => Ok(judged),
        Err(memory) => {
            drop(judged);
            Err(memory)
        }
    }
}

fn judged_known(alloc: Global, tried: Vec<Tried>) -> Result<Vec<Judged>, Memory>
    ensures { IfOk result (λ judged. judged.items ≡ map known_of tried.items) }
{
    let mut judged = Vec::new(alloc);
    match give_up(tried, &mut judged) {
        Ok(()) => Ok(judged),
        Err(memory) => {
            drop(judged);
            Err(memory)
        }
    }
}

// The verdicts at the end of the capture, when the connections `left` are still open.
fn judged_in_the_end(
    alloc: Global,
    trial: Option<Trial>,
    left: Vec<Connection>,
) -> Result<Vec<Judged>, Memory>
    ensures { IfOk result (λ judged. judged.items
        ≡ judged_in_the_end (option_map shown_trial trial) left.items) }
{
    let mut judged = Vec::new(alloc);
    match finish(trial, left, &mut judged) {
        Ok(()) => Ok(judged),
        Err(memory) => {
            drop(judged);
            Err(memory)
        }
    }
}

fn finish(
    trial: Option<Trial>,
    left: Vec<Connection>,
    judged: &mut Vec<Judged>,
) -> Result<(), Memory>
    ensures { OnOk result (judged.new.items ≡ judged.old.items
        ++ judged_in_the_end (option_map shown_trial trial) left.items) }
{
    match trial {
        Some(trial) => trial.finish(left, judged),
        None => add_alone(left, judged),
    }
}
