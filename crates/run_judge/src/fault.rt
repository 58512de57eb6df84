// SPDX-License-Identifier: MIT OR Apache-2.0
ghost use Rattle.std.specs.Prelude.{◌≡◌};
ghost use Rattle.run_judge.specs.Flow.{fault_after, is_lost, overtaken};

use crate::Due;
use crate::flow::Passing;
use octets::Octets;
use std::mem::replace;

/// How the controller broke the order of a flow's messages. `behind`, `first` and `frame` are
/// numbers of frames.
#[derive(Drop)]
pub enum Fault {
    /// The message wasn't passed on, but a later message was, in the frame `behind`.
    Lost {
        due: Due,
        behind: u64,
    },
    /// The message was passed on in the frame `frame`, but a later message before that, in the
    /// frame `behind`.
    Overtaken {
        due: Due,
        behind: u64,
        frame: u64,
    },
    /// The message was passed on in the frame `first` and again in the frame `frame`.
    Doubled {
        message: Octets,
        first: u64,
        frame: u64,
    },
    /// Instead of the next due message, another one with the same first two octets was passed on.
    Changed {
        due: Due,
        message: Octets,
        frame: u64,
    },
    /// A message was passed on that didn't arrive.
    MadeUp {
        message: Octets,
        frame: u64,
    },
    /// A message was handed to a mobile that was commanded to another channel and hadn't answered.
    HandedWhileChanging {
        message: Octets,
        frame: u64,
    },
    /// A message was handed on a channel that doesn't serve the connection.
    HandedElsewhere {
        message: Octets,
        frame: u64,
    },
    /// A DT1 was sent after CLEAR COMPLETE. `message` is the DTAP message in the DT1; empty if the
    /// DT1 has no DTAP message.
    BehindClear {
        message: Octets,
        frame: u64,
    },
}

impl Fault {
    /// Takes a message that is passed on after the fault. If the fault was the loss of this
    /// message, the fault becomes `Overtaken`.
    pub(crate) fn go_on(&mut self, passing: Passing)
        ensures { self.new ≡ fault_after passing.message passing.frame self.old }
    {
        if is_lost(self, passing.message.as_slice()) {
            let Passing { message, frame } = passing;
            let lost = replace(self, Fault::MadeUp { message, frame });
            *self = overtaken(lost, frame);
        }
    }
}

fn is_lost(fault: &Fault, message: &[u8]) -> bool
    ensures { result ≡ is_lost message.now fault.now }
{
    match fault {
        Fault::Lost { due, .. } => due.message.as_slice() == message,
        _ => false,
    }
}

fn overtaken(fault: Fault, frame: u64) -> Fault
    ensures { result ≡ overtaken frame fault }
{
    match fault {
        Fault::Lost { due, behind } => Fault::Overtaken { due, behind, frame },
        fault => fault,
    }
}
