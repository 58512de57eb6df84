// SPDX-License-Identifier: MIT OR Apache-2.0
ghost use Rattle.std.specs.Prelude.{◌≡◌, ◌++◌, IfOk, OnOk};
ghost use Rattle.std.specs.List.{flat_map};
ghost use Rattle.trace_pictures.specs.FramesSent.{end_of, link_frame, put_at};

use frame_pictures::{End, LinkFrame};
use ipa_framing::Frame;
use octets::{Memory, Octets};
use std::alloc::Global;
use world_trace::{Crossing, Passage};

/// Appends the frames of those crossings that were put on a link. `ms` is the time of these frames
/// in milliseconds.
pub(crate) fn add_frames(
    alloc: Global,
    ms: u64,
    crossings: &[Crossing],
    frames: &mut Vec<LinkFrame>,
) -> Result<(), Memory>
    ensures { OnOk result (frames.new.items
        ≡ frames.old.items ++ flat_map (put_at ms) crossings.now) }
{
    for crossing in crossings {
        add_frame(alloc, ms, crossing, frames)?;
    }
    Ok(())
}

fn add_frame(
    alloc: Global,
    ms: u64,
    crossing: &Crossing,
    frames: &mut Vec<LinkFrame>,
) -> Result<(), Memory>
    ensures { OnOk result (frames.new.items ≡ frames.old.items ++ put_at ms crossing.now) }
{
    match crossing.passage {
        Passage::Sent => {
            frames.push(link_frame(alloc, ms, crossing)?)?;
            Ok(())
        }
        Passage::Made | Passage::Got => Ok(()),
    }
}

fn link_frame(alloc: Global, ms: u64, crossing: &Crossing) -> Result<LinkFrame, Memory>
    ensures { IfOk result (λ frame. frame ≡ link_frame ms crossing.now) }
{
    Ok(LinkFrame {
        ms,
        from: end_of(crossing.from),
        to: end_of(crossing.to),
        frame: Frame {
            stream: crossing.frame.stream,
            body: Octets::copy(alloc, crossing.frame.body.as_slice())?,
        },
    })
}

fn end_of(end: world_trace::End) -> End
    ensures { result ≡ end_of end }
{
    match end {
        world_trace::End::Switch => End::Switch,
        world_trace::End::Station(number) => End::Station(number),
        world_trace::End::Controller => End::Controller,
    }
}
