// SPDX-License-Identifier: MIT OR Apache-2.0
ghost use Rattle.std.specs.Prelude.{◌≡◌, ◌<◌, map, vec_len};

use crate::frames::{frame, is_frame};
use octets::Memory;
use ruled_relay::{Inbox, Item, PutFault, SourcePass, What};
use std::alloc::Global;
use std::sync::Wait;
use std::test::Fail;

/// An item of a source: a frame of one octet.
fn item(alloc: Global, source: u16, octet: u8) -> Result<Item, Memory> {
    let what = What::Frame(frame(alloc, octet)?);
    Ok(Item { source, what })
}

/// Two items of source 0 and an item of source 1, each with a frame of one octet.
fn items(alloc: Global) -> Result<(Item, Item, Item), Memory> {
    let one = item(alloc, 0, 1)?;
    let two = item(alloc, 0, 2)?;
    let three = item(alloc, 1, 3)?;
    Ok((one, two, three))
}

/// Whether the item is of this source and has the frame of this octet.
fn is_item(item: Option<Item>, source: u16, octet: u8) -> bool {
    match item {
        Some(
            Item {
                source: of,
                what: What::Frame(frame),
            },
        ) => of == source && is_frame(&frame, octet),
        _ => false,
    }
}

/// Puts an item through the pass at a place.
fn put_at<R: Wait>(
    rt: &R,
    passes: &mut Vec<SourcePass>,
    at: usize,
    item: Item,
) -> Result<(), PutFault>
    requires { at < vec_len passes.old }
    ensures count { vec_len passes.new ≡ vec_len passes.old }
    ensures queues { map (λ p. p.queue) passes.new.items ≡ map (λ p. p.queue) passes.old.items }
{
    passes[at].put(rt, item)
}

/// Whether the item was given back because the queue is full.
fn is_full(put: Result<(), PutFault>, source: u16, octet: u8) -> bool {
    match put {
        Err(PutFault::Full(back)) => is_item(Some(back), source, octet),
        Err(PutFault::Foreign(_)) | Ok(()) => false,
    }
}

/// Whether the item was given back because its source isn't that of the pass.
fn is_foreign(put: Result<(), PutFault>, source: u16, octet: u8) -> bool {
    match put {
        Err(PutFault::Foreign(back)) => is_item(Some(back), source, octet),
        Err(PutFault::Full(_)) | Ok(()) => false,
    }
}

/// An inbox of one item for each of two sources.
#[test]
fn refuses_take_never_gives_and_put_is_always_full(rt: HostRuntime) -> Result<(), Fail> {
    let alloc = rt.alloc();
    let (mut desk, mut passes) = Inbox::new(alloc, 2, 1)?;
    let (one, two, foreign) = items(alloc)?;
    let again = item(alloc, 0, 2)?;
    assert!(rt; put_at(&rt, &mut passes, 0, one).is_ok());
    assert!(rt; is_full(put_at(&rt, &mut passes, 0, two), 0, 2));
    assert!(rt; is_foreign(put_at(&rt, &mut passes, 0, foreign), 1, 3));
    assert!(rt; is_item(desk.take(&rt), 0, 1));
    assert!(rt; desk.take(&rt).is_none());
    assert!(rt; put_at(&rt, &mut passes, 0, again).is_ok());
    let mut left = Inbox::finish(desk, passes);
    assert!(rt; is_item(left.next(&rt), 0, 2));
    assert!(rt; left.next(&rt).is_none());
    Ok(())
}

/// Each of five sources has a sign. The last source has an item, and then no source has an item.
#[test]
fn one_of_five_sources_has_an_item(rt: HostRuntime) -> Result<(), Fail> {
    let alloc = rt.alloc();
    let (mut desk, mut passes) = Inbox::new(alloc, 5, 1)?;
    let last = item(alloc, 4, 1)?;
    assert!(rt; desk.take(&rt).is_none());
    assert!(rt; put_at(&rt, &mut passes, 4, last).is_ok());
    assert!(rt; is_item(desk.take(&rt), 4, 1));
    assert!(rt; desk.take(&rt).is_none());
    Ok(())
}

/// The desk holds two items of source 0 and one item of source 1. There is no source 2.
#[test]
fn a_source_alone_is_asked_and_then_the_next(rt: HostRuntime) -> Result<(), Fail> {
    let alloc = rt.alloc();
    let (mut desk, mut passes) = Inbox::new(alloc, 2, 2)?;
    let (one, two, three) = items(alloc)?;
    assert!(rt; put_at(&rt, &mut passes, 0, one).is_ok());
    assert!(rt; put_at(&rt, &mut passes, 0, two).is_ok());
    assert!(rt; put_at(&rt, &mut passes, 1, three).is_ok());
    assert!(rt; desk.take_of(&rt, 2).is_none());
    assert!(rt; is_item(desk.take_of(&rt, 1), 1, 3));
    assert!(rt; desk.take_of(&rt, 1).is_none());
    assert!(rt; is_item(desk.take_of(&rt, 0), 0, 1));
    assert!(rt; desk.take_of(&rt, 1).is_none());
    assert!(rt; is_item(desk.take(&rt), 0, 2));
    Ok(())
}

#[test]
fn two_sources_take_turns(rt: HostRuntime) -> Result<(), Fail> {
    let alloc = rt.alloc();
    let (mut desk, mut passes) = Inbox::new(alloc, 2, 2)?;
    let (one, two, three) = items(alloc)?;
    assert!(rt; put_at(&rt, &mut passes, 0, one).is_ok());
    assert!(rt; put_at(&rt, &mut passes, 0, two).is_ok());
    assert!(rt; put_at(&rt, &mut passes, 1, three).is_ok());
    assert!(rt; is_item(desk.take(&rt), 0, 1));
    assert!(rt; is_item(desk.take(&rt), 1, 3));
    assert!(rt; is_item(desk.take(&rt), 0, 2));
    assert!(rt; desk.take(&rt).is_none());
    Ok(())
}
