// SPDX-License-Identifier: MIT OR Apache-2.0
ghost use Rattle.std.specs.Prelude.{◌≡◌, ℕ, ◌<◌, ◌↔◌, Option, Some, None, IsTrue};
ghost use Rattle.dtap_codec.specs.Number.{count_of};
ghost use Rattle.nsd_filter.specs.Filter.{IsStateOf};
ghost use Rattle.nsd_filter.specs.Judgement.{judgement, progress_after};

use crate::Verdict;
use dtap_codec::Modulus;
use std::marker::Model;

/// Judges the send sequence numbers of a flow's messages, in the order in which the messages
/// arrive. A filter stores the expected number, while the contracts speak of the number of accepted
/// messages, which they call progress.
#[derive(Drop)]
pub struct Filter {
    modulus: Modulus,
    /// The number that the next message should carry; `None` after a gap.
    expected: Option<u8>,
}

impl Model for Filter {
    ghost use Rattle.std.specs.Prelude.{ℕ, ◌<◌};
    ghost use Rattle.std.specs.Option.{ForSome};
    ghost use Rattle.dtap_codec.specs.Number.{count_of};
    ghost use Rattle.nsd_filter.specs.Filter.{FilterState};

    ghost Value = { FilterState };

    ghost view = { λ filter. record {
      modulus = count_of filter.modulus;
      expected = filter.expected;
    } };

    ghost invariant = { λ filter. ForSome filter.expected
        (λ number. number < count_of filter.modulus) };
}

impl Filter {
    /// A filter that has accepted no message and expects the number 0.
    pub fn new(modulus: Modulus) -> Filter
        ensures modulus { result.modulus ≡ count_of modulus }
        ensures is_state { IsStateOf result (Some 0) }
    {
        Filter {
            modulus,
            expected: Some(0),
        }
    }

    /// Judges the number of the next message: `Accept` for the expected number, `Duplicate` for the
    /// number before the expected one, else `Gap`. After a gap, every number is judged `Gap`.
    /// `number` must be below the modulus.
    pub fn judge(&mut self, number: u8) -> Verdict
        requires { number < self.old.modulus }

        // The verdict is right for every progress that fits the filter's state.
        ensures verdict { (progress : Option ℕ) → IsStateOf self.old progress →
            result ≡ judgement self.old.modulus progress number }
        ensures after { (progress : Option ℕ) → IsStateOf self.old progress →
            IsStateOf self.new (progress_after self.old.modulus progress number) }
        ensures modulus { self.new.modulus ≡ self.old.modulus }
    {
        let count = self.modulus.count();
        match self.expected {
            Some(expected) if number == expected => {
                self.expected = Some((expected + 1) % count);
                Verdict::Accept
            }
            Some(expected) if number == (expected + (count - 1)) % count => Verdict::Duplicate,
            _ => {
                self.expected = None;
                Verdict::Gap
            }
        }
    }

    /// Whether a number was judged `Gap`.
    pub fn is_broken(&self) -> bool
        ensures { (progress : Option ℕ) → IsStateOf self.now progress →
            IsTrue result ↔ (progress ≡ None) }
    {
        self.expected.is_none()
    }
}
