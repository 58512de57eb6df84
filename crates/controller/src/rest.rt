// SPDX-License-Identifier: MIT OR Apache-2.0
ghost use Rattle.std.specs.Prelude.{◌≡◌};
ghost use Rattle.controller.specs.Rest as words;

use crate::controller::Controller;
use controller_model::MAX_CONNECTION_NUMBER;

impl Controller {
    /// Whether every link is down and no connection is left. A controller at rest puts no frames,
    /// whatever steps follow.
    pub fn is_at_rest(&self) -> bool
        ensures { result ≡ words.is_at_rest self.now }
    {
        self.connections.len() == 0 && all_down(self.links.as_slice())
    }

    /// The number of connections that are left once all numbers up to 16,777,215 were used, after
    /// which no connection opens. `None` while a number is left.
    pub fn left_without_number(&self) -> Option<usize>
        ensures { result ≡ words.left_without_number self.now }
    {
        if self.next_number > MAX_CONNECTION_NUMBER {
            Some(self.connections.len())
        } else {
            None
        }
    }
}

fn all_down(links: &[bool]) -> bool
    ensures { result ≡ words.all_down links.now }
{
    for up in links {
        if *up {
            return false;
        }
    }
    true
}
