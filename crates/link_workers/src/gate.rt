// SPDX-License-Identifier: MIT OR Apache-2.0
/// Decides for each item that a reader has read whether the reader may put the item.
pub trait Gate {
    ghost use Rattle.std.specs.Prelude.{◌≡◌, ℕ, ◌+◌, MatchBool, Option};
    ghost use Rattle.link_workers.specs.Gates.{HasLet};

    // How often in a row the gate has refused.
    ghost refused: { Self → ℕ };

    // How many items the gate has let through, if it counts them.
    ghost passed: { Self → Option ℕ };

    /// Whether the next item of the source may be put. False is a refusal.
    fn pass(&mut self, source: u16) -> bool
        ensures refused { MatchBool result
            (refused self.new ≡ 0) (refused self.new ≡ refused self.old + 1) }
        ensures passed { MatchBool result (HasLet (passed self.old) (passed self.new) 1)
            (HasLet (passed self.old) (passed self.new) 0) };
}
