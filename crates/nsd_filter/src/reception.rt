// SPDX-License-Identifier: MIT OR Apache-2.0
ghost use Rattle.std.specs.Prelude.{◌≡◌, [], ◌∷◌, ◌++◌, ◌<◌, OnOk, OnErr, Some};
ghost use Rattle.std.specs.Prelude.{None, vec_len};
ghost use Rattle.std.specs.Prelude.{vec_capacity};
ghost use Rattle.dtap_codec.specs.Number.{count_of, number_in};
ghost use Rattle.std.specs.Option.{is_none};
ghost use Rattle.nsd_filter.specs.AcceptedList.{accepted_list, delivery_by, not_of_the_flow};
ghost use Rattle.nsd_filter.specs.AcceptedList.{progress};
ghost use Rattle.nsd_filter.specs.Reception.{with_taken};

use crate::{Filter, Verdict};
use dtap_codec::{Modulus, number_of, without_number};
use octets::{Memory, Octets};
use std::alloc::Global;
use std::marker::Model;

/// The messages that the network's end of a connection took from its mobile, in three lists: all
/// messages, the messages of the flow that were accepted, and the messages that carry no number.
#[derive(Drop)]
pub struct Reception {
    alloc: Global,
    modulus: Modulus,
    filter: Filter,
    taken: Vec<Octets>,
    accepted: Vec<Octets>,
    unnumbered: Vec<Octets>,
}

impl Model for Reception {
    ghost use Rattle.dtap_codec.specs.Number.{count_of};
    ghost use Rattle.nsd_filter.specs.Reception.{ReceptionState, IsKept};

    ghost Value = { ReceptionState };

    ghost view = { λ reception. record {
      modulus = count_of reception.modulus;
      taken = reception.taken.items;
    } };

    ghost invariant = { λ reception. IsKept (count_of reception.modulus) reception.filter
        reception.taken.items reception.accepted.items reception.unnumbered.items };
}

impl Reception {
    /// The reception of a connection before its first message. Allocates nothing.
    pub fn new(alloc: Global, modulus: Modulus) -> Reception
        ensures { result ≡ record { modulus = count_of modulus; taken = [] } }
    {
        Reception {
            alloc,
            modulus,
            filter: Filter::new(modulus),
            taken: Vec::new(alloc),
            accepted: Vec::new(alloc),
            unnumbered: Vec::new(alloc),
        }
    }

    /// Takes the next message: judges its number, if it carries one, and appends the message to the
    /// lists to which it belongs. Returns `Memory` and changes nothing if an allocation fails.
    pub fn take(&mut self, message: Octets) -> Result<(), Memory>
        ensures ok { OnOk result (self.new ≡ with_taken message self.old) }
        ensures err { OnErr result (self.new ≡ self.old) }
    {
        match number_of(message.as_slice(), self.modulus) {
            Some(number) => self.take_numbered(message, number),
            None => self.take_unnumbered(message),
        }
    }

    /// Takes a message of the flow, which carries `number`. Returns `Memory` and changes nothing if
    /// an allocation fails.
    fn take_numbered(&mut self, message: Octets, number: u8) -> Result<(), Memory>
        requires { number_in self.old.modulus message ≡ Some number }
        ensures ok { OnOk result (self.new ≡ with_taken message self.old) }
        ensures err { OnErr result (self.new ≡ self.old) }
    {
        self.taken.reserve(1)?;
        self.accepted.reserve(1)?;
        let cleared = without_number(self.alloc, message.as_slice(), self.modulus)?;
        let verdict = self.filter.judge(number);
        give_up(&mut self.accepted, verdict, Octets::new(cleared));
        self.taken.push_reserved(message);
        Ok(())
    }

    /// Takes a message that carries no number. Returns `Memory` and changes nothing if an
    /// allocation fails.
    fn take_unnumbered(&mut self, message: Octets) -> Result<(), Memory>
        requires { number_in self.old.modulus message ≡ None }
        ensures ok { OnOk result (self.new ≡ with_taken message self.old) }
        ensures err { OnErr result (self.new ≡ self.old) }
    {
        self.taken.reserve(1)?;
        self.unnumbered.reserve(1)?;
        let copy = Octets::copy(self.alloc, message.as_slice())?;
        self.unnumbered.push_reserved(copy);
        self.taken.push_reserved(message);
        Ok(())
    }

    /// All messages that were taken, unchanged, in the order in which they arrived.
    pub fn taken(&self) -> &[Octets]
        ensures { result.now ≡ self.now.taken }
    {
        self.taken.as_slice()
    }

    /// The accepted list: the messages of the flow that were accepted, in the order in which they
    /// arrived, with their numbers cleared.
    pub fn accepted(&self) -> &[Octets]
        ensures { result.now ≡ accepted_list self.now.modulus self.now.taken }
    {
        self.accepted.as_slice()
    }

    /// The messages that were taken and carry no number, in the order in which they arrived.
    pub fn unnumbered(&self) -> &[Octets]
        ensures { result.now ≡ not_of_the_flow self.now.taken }
    {
        self.unnumbered.as_slice()
    }

    /// Whether a gap was found in the flow. After a gap no message of the flow is accepted.
    pub fn has_gap(&self) -> bool
        ensures { result ≡ is_none (progress self.now.modulus self.now.taken) }
    {
        self.filter.is_broken()
    }
}

/// Appends `message` to `accepted` if the verdict is `Accept`, else drops it. `accepted` must have
/// room.
fn give_up(accepted: &mut Vec<Octets>, verdict: Verdict, message: Octets)
    requires { vec_len accepted.old < vec_capacity accepted.old }
    ensures { accepted.new.items ≡ accepted.old.items ++ delivery_by verdict message }
{
    match verdict {
        Verdict::Accept => accepted.push_reserved(message),
        Verdict::Duplicate | Verdict::Gap => {}
    }
}
