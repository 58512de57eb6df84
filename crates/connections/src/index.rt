// SPDX-License-Identifier: MIT OR Apache-2.0
ghost use Rattle.std.specs.Prelude.{ℕ, ◌≡◌, ◌<◌, ◌≤◌, ◌==◌, ◌++◌, [], ◌∷◌, length};
ghost use Rattle.std.specs.Prelude.{slice_get, option_map, IfErr, IfOk, OnOk};
ghost use Rattle.std.specs.Map.{lookup, remove_entry};
ghost use Rattle.connections.specs.Index.{AreNumbersBelow, HasNoPlace, IsPlaceOf, NumbersRise};
ghost use Rattle.connections.specs.Index.{number_in};

use indexmap::IndexMap;
use octets::Memory;
use std::alloc::Global;
use std::marker::Model;

/// The numbers of connections, each with the key of its slot: a list by rising number, and a hash
/// map of the same pairs for look-up. A number that is to be removed is searched in the list from
/// the end, by doubling steps and then by bisection. The time of the search depends on how many
/// numbers follow the removed one, not on the length of the list.
#[derive(Drop)]
pub(crate) struct Index {
    pairs: Vec<(u32, usize)>,
    keys: IndexMap<u32, usize>,
}

impl Model for Index {
    ghost use Rattle.std.specs.Prelude.{vec_capacity};
    ghost use Rattle.std.specs.HashMap.{spare};
    ghost use Rattle.connections.specs.Index.{AreSame, IndexState, NumbersRise};

    ghost Value = { IndexState };

    ghost view = { λ i. record {
      entries = i.pairs.items;
      room = vec_capacity i.pairs;
      spare = spare i.keys;
    } };

    ghost invariant = { λ i. NumbersRise i.pairs.items × AreSame i.keys.entries i.pairs.items };
}

impl Index {
    pub(crate) fn new(alloc: Global) -> Index
        ensures { result.entries ≡ [] }
    {
        Index {
            pairs: Vec::new(alloc),
            keys: IndexMap::new(alloc),
        }
    }

    pub(crate) fn len(&self) -> usize
        ensures { result ≡ length self.now.entries }
    {
        self.pairs.len()
    }

    /// The key of `number`; `None` if the index doesn't have this number.
    pub(crate) fn key_of(&self, number: u32) -> Option<usize>
        ensures { result ≡ lookup (λ k. number == k) self.now.entries }
    {
        self.keys.get(&number).copied()
    }

    /// The key of the number at `place`, from 0; `None` past the last number.
    pub(crate) fn at(&self, place: usize) -> Option<usize>
        ensures { result ≡ option_map (λ p. p.1) (slice_get self.now.entries place) }
    {
        self.pairs.get(place).map(|pair| pair.1)
    }

    /// Makes room for one more number. `Err` if an allocation fails; the numbers are unchanged in
    /// any case.
    pub(crate) fn reserve(&mut self) -> Result<(), Memory>
        ensures room { OnOk result (length self.new.entries < self.new.room) }
        ensures spare { OnOk result (0 < self.new.spare) }
        ensures same { self.new.entries ≡ self.old.entries }
    {
        self.pairs.reserve(1)?;
        self.keys.reserve(1)?;
        Ok(())
    }

    /// Appends `number` with its key. Assumes: there is room for one more number, and `number` is
    /// above all numbers of the index.
    pub(crate) fn push_reserved(&mut self, number: u32, key: usize)
        requires room { length self.old.entries < self.old.room }
        requires spare { 0 < self.old.spare }
        requires last { AreNumbersBelow number self.old.entries }
        ensures { self.new.entries ≡ self.old.entries ++ (number, key) ∷ [] }
    {
        self.pairs.push_reserved((number, key));
        match self.keys.insert(number, key) {
            Ok(_) => {}
            Err(_) => unreachable!(),
        }
    }

    /// Removes `number`. A no-op if the index doesn't have this number.
    pub(crate) fn remove(&mut self, number: u32)
        ensures { self.new.entries ≡ remove_entry (λ k. number == k) self.old.entries }
    {
        if let Ok(place) = self.place_of(number) {
            self.pairs.remove(place);
            self.keys.swap_remove(&number);
        }
    }

    // The place of `number`; if the index doesn't have this number, `Err` with the place where the
    // number would stand.
    fn place_of(&self, number: u32) -> Result<usize, usize>
        ensures found { IfOk result (IsPlaceOf self.now.entries number) }
        ensures absent { IfErr result (λ _. HasNoPlace self.now.entries number) }
    {
        let from = search_from(&self.pairs, number);
        match halved(&self.pairs[from..], number) {
            Ok(place) => Ok(from + place),
            Err(place) => Err(from + place),
        }
    }
}

// A place from which to search for `number`: all numbers before this place are smaller than
// `number`. The place is found from the end, by doubling steps.
fn search_from(pairs: &[(u32, usize)], number: u32) -> usize
    requires { NumbersRise pairs.now }
    ensures within { result ≤ length pairs.now }
    ensures before { (i : ℕ) → i < result → number_in pairs.now i < number }
{
    let mut from = pairs.len().saturating_sub(1);
    while from > 0 && pairs[from].0 > number {
        from = from.saturating_sub(pairs.len() - from);
    }
    from
}

// The place of `number`, by bisection; if `pairs` doesn't have this number, `Err` with the place
// where the number would stand.
fn halved(pairs: &[(u32, usize)], number: u32) -> Result<usize, usize>
    requires { NumbersRise pairs.now }
    ensures found { IfOk result (IsPlaceOf pairs.now number) }
    ensures absent { IfErr result (λ _. HasNoPlace pairs.now number) }
    ensures bound { IfErr result (λ place. place ≤ length pairs.now) }
{
    pairs.binary_search_by_key(&number, |pair| pair.0)
}
