// SPDX-License-Identifier: MIT OR Apache-2.0
ghost use Rattle.std.specs.Prelude.{◌≡◌, ◌≢◌, ◌⊎◌, ◌++◌, ℕ, IfErr, IfSome};
ghost use Rattle.std.specs.Prelude.{List, Some};
ghost use Rattle.ipa_framing.specs.declared.frame.Frame.{Frame as FrameValue};
ghost use Rattle.ipa_framing.specs.Frame.{IsPartial, IsTooLong, Splits};
ghost use Rattle.link_workers.specs.declared.fault.IoFault.TheVariants.{ReadFailed};
ghost use Rattle.link_workers.specs.Gates.{LetsAll, LetsDown, LetsEach};
ghost use Rattle.link_workers.specs.Reading.{AsksForDown, IsReported, Parts, PutsAll, PutsDown};
ghost use Rattle.link_workers.specs.Reading.{PutsWhole, Serves};
ghost use Rattle.link_workers.specs.Unread.{IsUnread};

use crate::framing::{BLOCK, read_on};
use crate::gated_pass::{GatedPass, put_once_there_is_room};
use crate::link_reads::LinkReads;
use crate::unread::{UnreadLink, fault_of};
use crate::{Gate, IoFault, LinkReader};
use ipa_framing::Framer;
use ruled_relay::{SourcePass, What};
use std::alloc::Global;
use std::io::Read;
use std::sync::Wait;

/// A reader that has ended, with its gate and its pass. `fault` is `None` if the octets were read
/// to their end and the gate let `Down` through.
#[derive(Drop)]
pub struct HasRead<I, G> {
    pub reader: I,
    pub gate: G,
    pub pass: SourcePass,
    pub fault: Option<IoFault>,
}

/// Reads octets to their end, and puts each frame in the octets as an item of `source`; then puts
/// `Down`. Before each item, asks the gate until the gate lets the item through, and waits until
/// the queue has room. Ignores an incomplete frame at the end. Returns the reader, the gate and the
/// pass, with the fault. Assumes: `source` is the source of `pass`.
///
/// - `ReadFailed`: a read failed (interrupted reads are retried), or 2^40 reads didn't reach the
///   end.
/// - `FrameFault`: a frame has a body of more than 2,048 octets.
/// - `Memory`: an allocation failed.
/// - `GateShut`: the gate refused one item `limit` times. If that item is `Down`, `GateShut`
///   replaces an earlier fault.
///
/// `Down` is put after any fault. After `GateShut`, the gate isn't asked again.
pub fn serve_reader<I: Read, G: Gate, R: Wait>(
    rt: &R,
    alloc: Global,
    mut reader: I,
    gate: G,
    pass: SourcePass,
    source: u16,
    limit: u32,
) -> HasRead<I, G>
    requires { source ≡ pass.source }
    ensures serves { Serves (I.remaining reader) (I.remaining result.reader) limit
        (G.refused gate) (G.refused result.gate) pass result.pass result.fault }
    ensures asked { LetsAll result.fault (G.passed gate) (G.passed result.gate) pass result.pass }
{
    let mut gated = GatedPass {
        gate,
        pass,
        source,
        limit,
    };
    let fault = fault_of(put_all(rt, alloc, &mut reader, &mut gated));
    let fault = put_down(rt, &mut gated, fault);
    let GatedPass { gate, pass, .. } = gated;
    HasRead {
        reader,
        gate,
        pass,
        fault,
    }
}

/// Like `serve_reader`, for the device of a link and the source of `pass`. If reading stops with a
/// fault, tells the device that fault before putting `Down`.
pub fn serve_link_reader<I: LinkReader, G: Gate, R: Wait>(
    rt: &R,
    alloc: Global,
    mut reader: I,
    gate: G,
    pass: SourcePass,
    limit: u32,
) -> HasRead<I, G>
    ensures serves { Serves (I.remaining reader) (I.remaining result.reader) limit
        (G.refused gate) (G.refused result.gate) pass result.pass result.fault }
    ensures asked { LetsAll result.fault (G.passed gate) (G.passed result.gate) pass result.pass }
    ensures told { IsReported result.fault (I.told result.reader) }
{
    let source = pass.source();
    let mut gated = GatedPass {
        gate,
        pass,
        source,
        limit,
    };
    let fault = fault_of(put_all(rt, alloc, &mut reader, &mut gated));
    tell(&mut reader, fault);
    let fault = put_down(rt, &mut gated, fault);
    let GatedPass { gate, pass, .. } = gated;
    HasRead {
        reader,
        gate,
        pass,
        fault,
    }
}

/// Tells the device the fault with which reading stopped, if there is a fault.
fn tell<I: LinkReader>(reader: &mut I, fault: Option<IoFault>)
    ensures told { IfSome fault (λ fault. I.told reader.new ≡ Some fault) }
    ensures same { I.remaining reader.new ≡ I.remaining reader.old }
{
    if let Some(fault) = fault {
        reader.break_off(fault);
    }
}

/// Asks the gate as `ask_for_down` does, puts `Down`, and returns the fault with which the reader
/// ends.
fn put_down<G: Gate, R: Wait>(
    rt: &R,
    gated: &mut GatedPass<G>,
    fault: Option<IoFault>,
) -> Option<IoFault>
    ensures puts { PutsDown gated.old.limit
        (G.refused gated.old.gate) (G.refused gated.new.gate)
        gated.old.pass gated.new.pass fault result }
    ensures asked { LetsAll result (G.passed gated.old.gate) (G.passed gated.new.gate)
        gated.old.pass gated.new.pass }
{
    let fault = ask_for_down(rt, gated, fault);
    put_once_there_is_room(rt, &mut gated.pass, What::Down);
    gated.pass.ring();
    fault
}

/// Asks the gate until the gate lets `Down` through, unless the gate remained shut before. Returns
/// the fault with which the reader ends.
#[tactic(auto, using(crate::proofs::Letting::asking_for_down))]
fn ask_for_down<G: Gate, R: Wait>(
    rt: &R,
    gated: &mut GatedPass<G>,
    fault: Option<IoFault>,
) -> Option<IoFault>
    ensures asks { AsksForDown gated.old.limit
        (G.refused gated.old.gate) (G.refused gated.new.gate) fault result }
    ensures passed { LetsDown result (G.passed gated.old.gate) (G.passed gated.new.gate) }
    ensures same { (gated.new.limit ≡ gated.old.limit) × (gated.new.pass ≡ gated.old.pass) }
{
    match fault {
        Some(IoFault::GateShut) => fault,
        _ => match gated.ask(rt) {
            Ok(()) => fault,
            Err(shut) => Some(shut),
        },
    }
}

/// Reads the octets of a link to their end, and puts the frames in the octets.
fn put_all<I: Read, G: Gate, R: Wait>(
    rt: &R,
    alloc: Global,
    reader: &mut I,
    gated: &mut GatedPass<G>,
) -> Result<(), UnreadLink>
    ensures puts { PutsAll (I.remaining reader.old) (I.remaining reader.new) gated.old.limit
        (G.refused gated.old.gate) (G.refused gated.new.gate) gated.old.pass gated.new.pass result }
    ensures each { LetsEach (G.passed gated.old.gate) (G.passed gated.new.gate)
        gated.old.pass gated.new.pass }
    ensures why { IfErr result (λ unread. IsUnread unread) }
    ensures same { gated.new.limit ≡ gated.old.limit }
{
    let mut framer = Framer::new(alloc);
    let mut block = [0; BLOCK];
    let mut reads = LinkReads::none();
    while read_on(reader, &mut reads, &mut block, &mut framer)? {
        put_frames(rt, &mut framer, gated)?;
        gated.pass.ring();
    }
    Ok(())
}

/// Puts the complete frames that the framer holds.
#[tactic(auto, using(crate::proofs::Letting::each_none))]
fn put_frames<G: Gate, R: Wait>(
    rt: &R,
    framer: &mut Framer,
    gated: &mut GatedPass<G>,
) -> Result<(), IoFault>
    ensures puts { PutsWhole framer.old framer.new gated.old.limit (G.refused gated.old.gate)
        (G.refused gated.new.gate) gated.old.pass gated.new.pass result }
    ensures each { LetsEach (G.passed gated.old.gate) (G.passed gated.new.gate)
        gated.old.pass gated.new.pass }
    ensures unfailed { IfErr result (λ fault. fault ≢ ReadFailed) }
    ensures same { gated.new.limit ≡ gated.old.limit }
{
    while let Some(frame) = framer.next()? {
        gated.put(rt, What::Frame(frame))?;
    }
    Ok(())
}

/// Law: complete frames at the front of octets are the first of the frames into which the octets
/// are split. They are all of these frames if they are followed by only an incomplete frame, or by
/// a frame that is too long. A reader thus puts the first frames of the octets that it read, and
/// puts all frames unless memory ran out or its gate remained shut.
pub fn frames_put_are_the_first()
    ensures first { (octets : List ℕ) (frames : List FrameValue) (rest : List ℕ)
        (all : List FrameValue) (end : List ℕ)
        → Parts octets frames rest → Splits octets all end
        → (more : List FrameValue) × (all ≡ frames ++ more) }
    ensures whole { (octets : List ℕ) (frames : List FrameValue) (rest : List ℕ)
        (all : List FrameValue) (end : List ℕ)
        → Parts octets frames rest → IsPartial rest ⊎ IsTooLong rest → Splits octets all end
        → (all ≡ frames) × (end ≡ rest) }
{}
