// SPDX-License-Identifier: MIT OR Apache-2.0
ghost use Rattle.std.specs.Prelude.{◌≡◌, IfOk, option_to_list};
ghost use Rattle.world_trace.specs.Crossings.{down, far_end, up, up_by};

use conn_messages::SWITCH_LINK;
use ipa_framing::Frame;
use octets::{Memory, Octets};
use ruled_relay::{Item, What};
use std::alloc::Global;
use world_model::OutboxEntry;

/// An end of a link.
#[derive(Clone, Copy)]
pub enum End {
    Switch,
    /// The base station of this number, from 1.
    Station(u16),
    Controller,
}

/// The point that a frame passes on its way over a link.
#[derive(Clone, Copy)]
pub enum Passage {
    /// The frame was made, and waits until it is put on the link.
    Made,
    /// The frame is put on the link.
    Sent,
    /// The frame is taken from the link.
    Got,
}

/// A frame that crosses a link, or is made for one.
#[derive(Drop)]
pub struct Crossing {
    pub passage: Passage,
    pub from: End,
    pub to: End,
    pub frame: Frame,
}

impl Crossing {
    /// The crossing of an item's frame to the controller. `None` if the item says that the link
    /// broke.
    pub(crate) fn up(
        alloc: Global,
        passage: Passage,
        item: &Item,
    ) -> Result<Option<Crossing>, Memory>
        ensures { IfOk result (λ crossing. option_to_list crossing ≡ up passage item.now) }
    {
        match &item.what {
            What::Frame(frame) => Ok(Some(Crossing {
                passage,
                from: far_end(item.source),
                to: End::Controller,
                frame: copy_of(alloc, frame)?,
            })),
            What::Down => Ok(None),
        }
    }

    /// The crossing of an outbox entry's frame from the controller.
    pub(crate) fn down(
        alloc: Global,
        passage: Passage,
        entry: &OutboxEntry,
    ) -> Result<Crossing, Memory>
        ensures { IfOk result (λ crossing. crossing ≡ down passage entry.now) }
    {
        Ok(Crossing {
            passage,
            from: End::Controller,
            to: far_end(entry.out.to),
            frame: copy_of(alloc, &entry.out.frame)?,
        })
    }
}

/// The end of a link of the controller that isn't the controller.
fn far_end(link: u16) -> End
    ensures { result ≡ far_end link }
{
    if link == SWITCH_LINK {
        End::Switch
    } else {
        End::Station(link)
    }
}

fn copy_of(alloc: Global, frame: &Frame) -> Result<Frame, Memory>
    ensures { IfOk result (λ copy. copy ≡ frame.now) }
{
    Ok(Frame {
        stream: frame.stream,
        body: Octets::copy(alloc, frame.body.as_slice())?,
    })
}
