// SPDX-License-Identifier: MIT OR Apache-2.0
ghost use Rattle.std.specs.Prelude.{◌≤◌, ◌<◌, IfSome, MatchOption};
ghost use Rattle.ruled_relay.specs.Signs.{HasNoneSet, IsFirstSet};
ghost use Rattle.ruled_relay.specs.Among.{HasNoneFrom};

use crate::sources::{Sources, WIDTH, bit_of};
use octets::Memory;
use std::alloc::Global;
use std::sync::atomic::{AtomicBool, AtomicU64, Ordering};
use std::sync::{Arc, Wait};
use std::thread::Parker;
use std::time::Duration;

/// Wakes the thread that waits for items. A wait ends at a ring, at its timeout, or spuriously; no
/// contract promises that a ring ends a wait.
#[derive(Drop)]
pub(crate) struct Bell {
    shared: Arc<Shared, Global>,
}

/// The state that the handles of a bell share.
#[derive(Drop)]
struct Shared {
    parker: Parker,
    /// Whether `ring_last` was called since the last call of `was_last`.
    last: AtomicBool,
    /// A flag for each source: one bit each, 64 bits to a word. A thread that has put an item
    /// raises the flag of the item's source. `Desk::take` tries flagged sources first. It lowers
    /// the flag of a source before it looks into the queue, so the flag is raised again for an item
    /// that is put after the look. If the flag is lowered, the queue may have items all the same.
    /// The bell of an outbox has no flags.
    signs: Vec<AtomicU64>,
}

impl Bell {
    pub(crate) fn new(alloc: Global) -> Result<Bell, Memory> {
        Bell::with_signs(alloc, 0)
    }

    /// A bell with a flag for each source below `sources`; no flag is raised. Returns `Err` if
    /// memory runs out.
    pub(crate) fn with_signs(alloc: Global, sources: u16) -> Result<Bell, Memory> {
        let words = usize::from(sources).div_ceil(WIDTH);
        let mut signs = Vec::with_capacity(alloc, words)?;
        for _ in 0..words {
            signs.push(AtomicU64::new(0))?;
        }
        let shared = Shared {
            parker: Parker::new(),
            last: AtomicBool::new(false),
            signs,
        };
        let shared = Arc::new(alloc, shared)?;
        Ok(Bell { shared })
    }

    /// Another handle of the same bell, for another thread.
    pub(crate) fn share(&self) -> Result<Bell, Memory> {
        let shared = Arc::try_clone(&self.shared)?;
        Ok(Bell { shared })
    }

    /// Ends the current wait, or the next wait if no thread waits.
    pub(crate) fn ring(&self) {
        self.shared.parker.unpark();
    }

    /// Records that nothing more will be put, and rings.
    pub(crate) fn ring_last(&self) {
        self.shared.last.store(true, Ordering::SeqCst);
        self.ring();
    }

    /// Whether `ring_last` was called since the last call of `was_last`.
    pub(crate) fn was_last(&self) -> bool {
        self.shared.last.swap(false, Ordering::SeqCst)
    }

    /// Raises the flag of a source. A no-op if the flag is raised, or if the source has no flag.
    pub(crate) fn raise(&self, source: u16) {
        if let Some(word) = self.shared.signs.get(usize::from(source) / WIDTH) {
            let sign = bit_of(source);
            if word.load(Ordering::SeqCst) & sign == 0 {
                word.fetch_or(sign, Ordering::SeqCst);
            }
        }
    }

    /// Lowers the flag of a source. A no-op if the flag is lowered, or if the source has no flag.
    pub(crate) fn lower(&self, source: u16) {
        if let Some(word) = self.shared.signs.get(usize::from(source) / WIDTH) {
            let sign = bit_of(source);
            if word.load(Ordering::SeqCst) & sign != 0 {
                word.fetch_and(!sign, Ordering::SeqCst);
            }
        }
    }

    /// The first source of `from..to` that is flagged or in `others`; `None` if there is no such
    /// source.
    pub(crate) fn first_raised(&self, others: &Sources, from: u16, to: u16) -> Option<u16>
        ensures within { IfSome result (λ source. (from ≤ source) × (source < to)) }
        // No source of `others` is skipped: `others` has no source from `from` up to the result, or
        // up to `to` if the result is `None`.
        ensures first { MatchOption result (HasNoneFrom from to others.now.words.items)
            (λ source. HasNoneFrom from source others.now.words.items) }
    {
        let from = usize::from(from);
        let to = usize::from(to);
        for place in from / WIDTH..to.div_ceil(WIDTH) {
            let begin = from.max(place * WIDTH);
            let word = self.word(place) | others.word(place);
            if let Some(sign) = first_set(word, (begin % WIDTH) as u32) {
                let source = place * WIDTH + sign as usize;
                return if source < to {
                    Some(source as u16)
                } else {
                    None
                };
            }
        }
        None
    }

    /// The word with the flags of the 64 sources from `64 * place` on; 0 past the end.
    fn word(&self, place: usize) -> u64 {
        match self.shared.signs.get(place) {
            Some(word) => word.load(Ordering::SeqCst),
            None => 0,
        }
    }

    /// Waits for a ring, at most for `longest`. May return without a ring.
    pub(crate) fn wait<R: Wait>(&self, rt: &R, longest: Duration) {
        self.shared.parker.park_timeout(rt, longest);
    }
}

/// The position of the lowest set bit of `word` among the positions from `from` on; `None` if no
/// bit is set there. The lowest bit has position 0.
fn first_set(word: u64, from: u32) -> Option<u32>
    requires { from < 64 }
    ensures { MatchOption result (HasNoneSet from word) (IsFirstSet from word) }
{
    let rest = word >> from;
    if rest == 0 {
        return None;
    }
    Some(from + rest.trailing_zeros())
}
