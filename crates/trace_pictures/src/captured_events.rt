// SPDX-License-Identifier: MIT OR Apache-2.0
ghost use Rattle.std.specs.Prelude.{◌≡◌, IfOk};
ghost use Rattle.frame_pictures.specs.Capture.{capture_of};
ghost use Rattle.trace_pictures.specs.FramesSent.{frames_sent, time_after};

use crate::link_frames::add_frames;
use frame_pictures::{LinkFrame, capture};
use octets::Memory;
use std::alloc::Global;
use world_actors::Network;
use world_model::Event;
use world_trace::Tracing;

/// Lets these events happen, and answers the capture file of the frames that the events put on
/// links. Fails only on allocation failure; the network is then unspecified.
pub fn capture_events(
    alloc: Global,
    network: &mut Network,
    events: &[Event],
) -> Result<Vec<u8>, Memory>
    ensures { IfOk result (λ file.
        file.items ≡ capture_of (frames_sent network.old 0 events.now)) }
{
    let frames = frames_sent(alloc, network, events)?;
    capture(alloc, frames.as_slice())
}

/// Lets these events happen, and answers the frames that the events put on links, in order. The
/// time of a frame is the sum of the ticks up to the frame's event, in milliseconds, modulo 2 to
/// the 64. Fails only on allocation failure; the network is then unspecified.
pub fn frames_sent(
    alloc: Global,
    network: &mut Network,
    events: &[Event],
) -> Result<Vec<LinkFrame>, Memory>
    ensures { IfOk result (λ frames. frames.items ≡ frames_sent network.old 0 events.now) }
{
    let mut frames = Vec::new(alloc);
    let mut ms = 0;
    let mut tracing = Tracing::of(alloc, network)?;
    for event in events {
        ms = time_after(ms, event);
        let trace = tracing.step(network, event)?;
        add_frames(alloc, ms, trace.crossings.as_slice(), &mut frames)?;
    }
    Ok(frames)
}

/// The time after an event: the sum of the ticks so far, in milliseconds, modulo 2 to the 64.
fn time_after(ms: u64, event: &Event) -> u64
    ensures { result ≡ time_after ms event.now }
{
    match event {
        Event::Tick(more) => ms.wrapping_add(u64::from(*more)),
        _ => ms,
    }
}
