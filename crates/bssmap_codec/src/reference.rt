// SPDX-License-Identifier: MIT OR Apache-2.0
ghost use Rattle.std.specs.Prelude.{◌≡◌, ◌<◌, ◌^◌, ◌++◌, IfOk, OnOk};
ghost use Rattle.octets.specs.Answer.{result_map};
ghost use Rattle.bssmap_codec.specs.Reference.{reference_at, reference_text};

use crate::InterfaceFault;
use octets::Memory;
use octets::front::octet;
use std::marker::Model;

/// The local reference of an SCCP connection: three octets, the high one first (Q.713 clause 3.2).
/// Contracts see the number that the octets spell.
#[derive(Clone, Copy)]
pub struct Reference {
    number: u32,
}

impl Model for Reference {
    ghost use Rattle.std.specs.Prelude.{ℕ, ◌<◌, ◌^◌};

    ghost Value = { ℕ };

    ghost view = { λ reference. reference.number };

    ghost inverse = { λ number. record { number = number } };

    ghost invariant = { λ reference. reference.number < 2 ^ 24 };
}

impl Reference {
    /// The reference with number `number`, which must be below 2^24.
    pub fn new(number: u32) -> Reference
        requires { number < 2 ^ 24 }
        ensures { result ≡ number }
    {
        Reference { number }
    }

    /// The number of the reference, below 2^24.
    pub fn number(self) -> u32
        ensures number { result ≡ self }
        ensures three_octets { result < 2 ^ 24 }
    {
        self.number
    }

    /// Appends the three octets of the reference. Returns `Memory` if an allocation fails.
    pub(crate) fn put(self, text: &mut Vec<u8>) -> Result<(), Memory>
        ensures { OnOk result (text.new.items ≡ text.old.items ++ reference_text self) }
    {
        let [_, high, middle, low] = self.number.to_be_bytes();
        text.extend_from_slice(&[high, middle, low])?;
        Ok(())
    }
}

/// The number of the reference at the front, and the octets after it. Returns `Short` if there are
/// fewer than three octets.
#[tactic(auto, unfolding(crate::specs::Reference::reference_at))]
pub fn number(octets: &[u8]) -> Result<(u32, &[u8]), InterfaceFault>
    ensures read { result_map (λ p. (p.0, p.1.now)) result ≡ reference_at octets.now }
    ensures three_octets { IfOk result (λ p. p.0 < 2 ^ 24) }
{
    let (high, rest) = octet(octets, InterfaceFault::Short)?;
    let (middle, rest) = octet(rest, InterfaceFault::Short)?;
    let (low, rest) = octet(rest, InterfaceFault::Short)?;
    Ok((u32::from_be_bytes([0, high, middle, low]), rest))
}
