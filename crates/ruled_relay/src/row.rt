// SPDX-License-Identifier: MIT OR Apache-2.0
//! A row of queues: one queue for each source.
ghost use Rattle.std.specs.Prelude.{◌≡◌, ◌<◌, ◌≤◌, true, None, vec_len};
ghost use Rattle.std.specs.Prelude.{IfSome, MatchOption};
ghost use Rattle.ruled_relay.specs.Row.{AreDrained, EachMayTake, HasAt, JoinsAt, TakesAmong};
ghost use Rattle.ruled_relay.specs.Row.{TakesAt, TakesInTurn, TakesOne};
ghost use Rattle.ruled_relay.specs.Rule.{putting};
ghost use Rattle.ruled_relay.specs.Among.{HasNoneFrom, IsAmong, OthersStay, among};

use crate::bell::Bell;
use crate::end::End;
use crate::item::{Item, What};
use crate::sources::Sources;
use std::sync::Wait;

/// Takes the first item of the queue of `source`. `None` if that queue was empty.
fn take_at<R: Wait>(rt: &R, ends: &mut Vec<End<What>>, source: u16) -> Option<Item>
    requires within { source < vec_len ends.old }
    requires takes { EachMayTake ends.old.items }
    ensures { TakesAt source ends.old.items result ends.new.items }
{
    let end = &mut ends[usize::from(source)];
    let what = end.take(rt)?;
    Some(Item { source, what })
}

/// Takes an item of the sources `from..to`. Tries their queues in order until a queue has an item;
/// `None` if each queue was empty.
pub(crate) fn take_among<R: Wait>(
    rt: &R,
    ends: &mut Vec<End<What>>,
    from: u16,
    to: u16,
) -> Option<Item>
    requires within { to ≤ vec_len ends.old }
    requires takes { EachMayTake ends.old.items }
    ensures { TakesAmong from to ends.old.items result ends.new.items }
{
    for source in from..to {
        if let Some(item) = take_at(rt, ends, source) {
            return Some(item);
        }
    }
    None
}

/// Takes the first item of `source`, a source that was flagged or is in `more`. `None` if its queue
/// was empty. Afterwards the source is in `more` unless its queue was empty. Lowers the source's
/// flag before it looks into the queue, so the flag is raised again for an item that is put after
/// the look.
fn take_raised<R: Wait>(
    rt: &R,
    bell: &Bell,
    more: &mut Sources,
    ends: &mut Vec<End<What>>,
    source: u16,
) -> Option<Item>
    requires within { source < vec_len ends.old }
    requires takes { EachMayTake ends.old.items }
    ensures takes { TakesAt source ends.old.items result ends.new.items }
    // Afterwards `source` is in `more` exactly if an item was taken from its queue.
    ensures more { MatchOption result (among more.new.words.items source ≡ 0)
        (λ _. IsAmong source more.new.words.items) }
    ensures others { OthersStay source more.old.words.items more.new.words.items }
{
    bell.lower(source);
    more.insert(source);
    let item = take_at(rt, ends, source);
    if item.is_none() {
        more.remove(source);
    }
    item
}

/// Takes an item of those sources of `from..to` that are flagged or in `more`. Tries their queues
/// in order until a queue has an item; `None` if each queue was empty.
fn take_among_raised<R: Wait>(
    rt: &R,
    bell: &Bell,
    more: &mut Sources,
    ends: &mut Vec<End<What>>,
    from: u16,
    to: u16,
) -> Option<Item>
    requires within { to ≤ vec_len ends.old }
    requires takes { EachMayTake ends.old.items }
    ensures takes { TakesOne to ends.old.items result ends.new.items }
    // No source of `more` is skipped. Afterwards `more` has no source from `from` up to the source
    // of the item, or up to `to` if the result is `None`.
    ensures asked { MatchOption result (HasNoneFrom from to more.new.words.items)
        (λ item. HasNoneFrom from item.source more.new.words.items) }
    ensures more { IfSome result (λ item. IsAmong item.source more.new.words.items) }
{
    let mut next = from;
    while let Some(source) = bell.first_raised(more, next, to) {
        if let Some(item) = take_raised(rt, bell, more, ends, source) {
            return Some(item);
        }
        next = source + 1;
    }
    None
}

/// Takes an item of the sources that are flagged or in `more`. Tries their queues round robin from
/// `turn` until a queue has an item. `None` if each queue that was tried was empty; the queues of
/// other sources may have items.
fn take_signed<R: Wait>(
    rt: &R,
    bell: &Bell,
    more: &mut Sources,
    ends: &mut Vec<End<What>>,
    turn: u16,
    sources: u16,
) -> Option<Item>
    requires within { (turn ≤ sources) × (sources ≤ vec_len ends.old) }
    requires takes { EachMayTake ends.old.items }
    ensures takes { TakesOne sources ends.old.items result ends.new.items }
    ensures more { IfSome result (λ item. IsAmong item.source more.new.words.items) }
{
    match take_among_raised(rt, bell, more, ends, turn, sources) {
        Some(item) => Some(item),
        None => take_among_raised(rt, bell, more, ends, 0, turn),
    }
}

/// Takes an item. Tries the queues of all sources, flagged or not, round robin from `turn` until a
/// queue has an item; `None` if each queue was empty.
fn take_unsigned<R: Wait>(
    rt: &R,
    ends: &mut Vec<End<What>>,
    turn: u16,
    sources: u16,
) -> Option<Item>
    requires within { (turn ≤ sources) × (sources ≤ vec_len ends.old) }
    requires takes { EachMayTake ends.old.items }
    ensures one { TakesOne sources ends.old.items result ends.new.items }
    ensures turn { TakesInTurn turn sources ends.old.items result ends.new.items }
{
    match take_among(rt, ends, turn, sources) {
        Some(item) => Some(item),
        None => take_among(rt, ends, 0, turn),
    }
}

/// Takes an item. Tries the sources that are flagged or in `more`, round robin from `turn`. If
/// their queues are empty, tries all sources, also round robin from `turn`, and adds the source of
/// the item to `more`. Returns `None` only if the queue of every source was tried and was empty.
pub(crate) fn take_in_turn<R: Wait>(
    rt: &R,
    bell: &Bell,
    more: &mut Sources,
    ends: &mut Vec<End<What>>,
    turn: u16,
    sources: u16,
) -> Option<Item>
    requires within { (turn ≤ sources) × (sources ≤ vec_len ends.old) }
    requires takes { EachMayTake ends.old.items }
    ensures one { TakesOne sources ends.old.items result ends.new.items }
    ensures none { result ≡ None → AreDrained sources ends.old.items }
    // Afterwards the source of the item is in `more`.
    ensures more { IfSome result (λ item. IsAmong item.source more.new.words.items) }
{
    if let Some(item) = take_signed(rt, bell, more, ends, turn, sources) {
        return Some(item);
    }
    let item = take_unsigned(rt, ends, turn, sources)?;
    more.insert(item.source);
    Some(item)
}

/// Joins `other`, the putting end of a queue, into the taking end of that queue, which stands at
/// the place `at`.
pub(crate) fn join_at(ends: &mut Vec<End<What>>, at: usize, other: End<What>)
    requires within { at < vec_len ends.old }
    requires queue { HasAt at ends.old.items (λ e.
        (other.queue ≡ e.queue) × (e.seen.takes ≡ true)) }
    requires puts { other.seen ≡ putting other.seen.put }
    ensures { JoinsAt at other ends.old.items ends.new.items }
{
    let end = &mut ends[at];
    end.join(other);
}
