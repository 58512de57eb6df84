// SPDX-License-Identifier: MIT OR Apache-2.0
use link_workers::Gate;

/// A gate that is never shut: it lets every item through.
#[derive(Clone, Copy)]
pub struct OpenGate;

impl Gate for OpenGate {
    ghost use Rattle.std.specs.Prelude.{None};

    ghost refused = { λ _. 0 };

    ghost passed = { λ _. None };

    fn pass(&mut self, _source: u16) -> bool {
        true
    }
}
