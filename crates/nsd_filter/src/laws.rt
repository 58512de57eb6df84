// SPDX-License-Identifier: MIT OR Apache-2.0
//! Laws: each contract states what holds of the definitions that it names. Their bodies are empty.

ghost use Rattle.std.specs.Prelude.{◌≡◌, ◌≢◌, ℕ, ◌≤◌, List, None, take};
ghost use Rattle.dtap_codec.specs.Places.{Rise};
ghost use Rattle.nsd_filter.specs.AcceptedList.{accepted_list, progress};

/// The accepted list of `messages` is the first `k` messages of `sent`, each once and in order, and
/// no gap is found. Assumes: each message of the flow in `messages` carries the next place of
/// `sent`, from 0 on, or repeats the previous place; `k` is the place after the last one; the
/// modulus `m` is 2 or more. This is a law on lists alone.
pub fn accepts_in_order()
    ensures accepted { (m : ℕ) (sent messages : List (List ℕ)) (k : ℕ) → 2 ≤ m →
        Rise m sent 0 messages k → accepted_list m messages ≡ take k sent }
    ensures no_gap { (m : ℕ) (sent messages : List (List ℕ)) (k : ℕ) → 2 ≤ m →
        Rise m sent 0 messages k → progress m messages ≢ None }
{}
