// SPDX-License-Identifier: MIT OR Apache-2.0
ghost use Rattle.std.specs.Prelude.{◌≡◌, IfOk, OnOk};
ghost use Rattle.run_judge.specs.Flow.{arrived, begun_flow, counted, is_in_order, is_repetition};
ghost use Rattle.run_judge.specs.Flow.{new_flow, passed_on, passed_wrongly, rejected, with_fault};

use crate::Fault;
use crate::stream::Stream;
use octets::{Memory, Octets};
use std::alloc::Global;
use std::marker::Model;

/// A message that arrived at the controller and wasn't passed on yet.
#[derive(Drop)]
pub struct Due {
    /// The place of the message's channel, from 0, in the order in which channels served the
    /// connection; 0 for a message of the switch.
    pub rank: u32,
    pub message: Octets,
    /// The number of the frame in which the message arrived.
    pub frame: u64,
    /// Whether the controller may leave the message out: after a SAPI "n" REJECT, if a copy of the
    /// message from a later channel was passed on, or if the message came before another initial
    /// message.
    pub is_optional: bool,
}

/// A message that was passed on.
#[derive(Drop)]
pub struct Passed {
    /// The rank that the message had when it was due.
    pub rank: u32,
    pub message: Octets,
    /// The number of the frame in which the message was passed on.
    pub frame: u64,
}

/// A message that is passed on in the frame with the number `frame`.
#[derive(Drop)]
pub(crate) struct Passing {
    pub(crate) message: Octets,
    pub(crate) frame: u64,
}

/// Whether the messages of a flow were passed on once and in order.
#[derive(Drop)]
pub enum Order {
    InOrder(Stream),
    /// The first fault. A lost message that is passed on later counts as overtaken.
    Faulty(Fault),
}

/// The messages of one SAPI, uplink or downlink.
#[derive(Drop)]
pub struct Flow {
    /// How many messages arrived; saturates.
    came: u64,
    /// How many messages were passed on; saturates.
    gone: u64,
    order: Order,
}

impl Model for Flow {
    ghost use Rattle.run_judge.specs.FlowState.{FlowState};

    ghost Value = { FlowState };

    ghost view = { λ f. record { came = f.came; gone = f.gone; order = f.order } };
}

impl Flow {
    /// A flow without messages. Allocates nothing.
    pub fn new(alloc: Global) -> Flow
        ensures { result ≡ new_flow }
    {
        Flow {
            came: 0,
            gone: 0,
            order: Order::InOrder(Stream::new(alloc)),
        }
    }

    /// A flow whose first message arrived and was passed on in the frame `frame`. Fails only if an
    /// allocation fails.
    pub fn begun(alloc: Global, message: Octets, frame: u64) -> Result<Flow, Memory>
        ensures { IfOk result (λ flow. flow ≡ begun_flow message frame) }
    {
        Ok(Flow {
            came: 1,
            gone: 1,
            order: Order::InOrder(Stream::begun(alloc, message, frame)?),
        })
    }

    /// How many messages arrived. The number saturates.
    pub fn came(&self) -> u64
        ensures { result ≡ self.now.came }
    {
        self.came
    }

    /// How many messages were passed on. The number saturates.
    pub fn gone(&self) -> u64
        ensures { result ≡ self.now.gone }
    {
        self.gone
    }

    /// Whether the messages were passed on once and in order.
    pub fn order(&self) -> &Order
        ensures { result.now ≡ self.now.order }
    {
        &self.order
    }

    /// Whether there was no fault so far.
    pub fn is_in_order(&self) -> bool
        ensures { result ≡ is_in_order self.now.order }
    {
        match self.order {
            Order::InOrder(_) => true,
            Order::Faulty(_) => false,
        }
    }

    /// Whether a message has the octets of the one that was passed on last; false after a fault.
    pub(crate) fn is_repetition(&self, message: &[u8]) -> bool
        ensures { result ≡ is_repetition message.now self.now.order }
    {
        match &self.order {
            Order::InOrder(stream) => stream.is_repetition(message),
            Order::Faulty(_) => false,
        }
    }

    /// Takes a message that arrives and is due. If a message of a later channel was passed on
    /// already, the arriving message becomes optional if a copy of it from a later channel was
    /// passed on; otherwise the fault `Lost` is recorded. Fails only if an allocation fails. After
    /// an `Err` the flow isn't to be used again.
    pub fn arrive(&mut self, due: Due) -> Result<(), Memory>
        ensures { OnOk result (self.new ≡ arrived due self.old) }
    {
        self.came = counted(self.came);
        self.order.arrive(due)
    }

    /// Takes a message that is passed on in the frame `frame`. Records a fault unless the message
    /// is due next. Fails only if an allocation fails. After an `Err` the flow isn't to be used
    /// again.
    pub fn pass(&mut self, message: Octets, frame: u64) -> Result<(), Memory>
        ensures { OnOk result (self.new ≡ passed_on message frame self.old) }
    {
        self.gone = counted(self.gone);
        self.order.pass(Passing { message, frame })
    }

    /// Makes the due messages optional, because a SAPI "n" REJECT was sent.
    pub fn reject(&mut self)
        ensures { self.new ≡ rejected self.old }
    {
        if let Order::InOrder(stream) = &mut self.order {
            stream.reject();
        }
    }

    /// Records a fault, unless the flow has a fault already.
    pub fn fail(&mut self, fault: Fault)
        ensures { self.new ≡ with_fault fault self.old }
    {
        if let Order::InOrder(_) = self.order {
            self.order = Order::Faulty(fault);
        }
    }

    /// Counts a message that was passed on where no message may be passed on. Records the fault
    /// `fault`, unless the flow has a fault already.
    pub fn pass_wrongly(&mut self, fault: Fault)
        ensures { self.new ≡ passed_wrongly fault self.old }
    {
        self.gone = counted(self.gone);
        self.fail(fault);
    }
}

fn counted(number: u64) -> u64
    ensures { result ≡ counted number }
{
    number.saturating_add(1)
}

impl Order {
    ghost use Rattle.run_judge.specs.Flow.{order_arrived, order_passed};

    fn arrive(&mut self, mut due: Due) -> Result<(), Memory>
        ensures { OnOk result (self.new ≡ order_arrived due self.old) }
    {
        let Order::InOrder(stream) = self else {
            return Ok(());
        };
        if stream.is_late(&due) {
            if !stream.has_passed_copy(&due) {
                let behind = stream.last_frame();
                *self = Order::Faulty(Fault::Lost { due, behind });
                return Ok(());
            }
            due.is_optional = true;
        }
        stream.arrive(due)
    }

    fn pass(&mut self, passing: Passing) -> Result<(), Memory>
        ensures { OnOk result (self.new ≡ order_passed passing.message passing.frame self.old) }
    {
        match self {
            Order::InOrder(stream) => match stream.place_of(passing.message.as_slice()) {
                Some(place) => stream.pass(place, passing),
                None => {
                    let fault = stream.fault(passing);
                    *self = Order::Faulty(fault);
                    Ok(())
                }
            },
            Order::Faulty(fault) => {
                fault.go_on(passing);
                Ok(())
            }
        }
    }
}
