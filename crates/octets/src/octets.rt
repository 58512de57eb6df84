// SPDX-License-Identifier: MIT OR Apache-2.0
ghost use Rattle.std.specs.Prelude.{◌≡◌, ◌↔◌, [], length, option_map, IfOk, IsTrue};

use crate::Memory;
use std::alloc::Global;
use std::marker::Model;

/// The octets of a message. In contracts the value is the list of octets, so two messages with the
/// same octets are equal.
#[derive(Debug, Drop)]
pub struct Octets {
    octets: Vec<u8>,
}

impl Model for Octets {
    ghost use Rattle.std.specs.Prelude.{ℕ, List};

    ghost Value = { List ℕ };

    ghost view = { λ message. message.octets.items };
}

impl Octets {
    /// Wraps the octets. Allocates nothing.
    pub fn new(octets: Vec<u8>) -> Octets
        ensures { result ≡ octets.items }
    {
        Octets { octets }
    }

    /// Copies the octets of a slice. Fails only if memory runs out.
    pub fn copy(alloc: Global, octets: &[u8]) -> Result<Octets, Memory>
        ensures { IfOk result (λ copy. copy ≡ octets.now) }
    {
        Ok(Octets {
            octets: Vec::from_slice(alloc, octets)?,
        })
    }

    /// Copies the octets of an optional slice; `None` gives `Ok(None)`. Fails only if memory runs
    /// out.
    pub fn copy_optional(alloc: Global, octets: Option<&[u8]>) -> Result<Option<Octets>, Memory>
        ensures { IfOk result (λ copy. copy ≡ option_map (λ o. o.now) octets.entry) }
    {
        match octets {
            Some(octets) => Ok(Some(Octets::copy(alloc, octets)?)),
            None => Ok(None),
        }
    }

    /// The octets, in order.
    pub fn as_slice(&self) -> &[u8]
        ensures { result.now ≡ self.now }
    {
        self.octets.as_slice()
    }

    /// The number of octets.
    pub fn len(&self) -> usize
        ensures { result ≡ length self.now }
    {
        self.octets.len()
    }

    /// Whether there are no octets.
    pub fn is_empty(&self) -> bool
        ensures { IsTrue result ↔ (self.now ≡ []) }
    {
        self.octets.is_empty()
    }

    /// Unwraps the octets. Allocates nothing.
    pub fn into_vec(self) -> Vec<u8>
        ensures { result.items ≡ self }
    {
        let Octets { octets } = self;
        octets
    }
}
