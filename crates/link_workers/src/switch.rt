// SPDX-License-Identifier: MIT OR Apache-2.0
ghost use Rattle.std.specs.Prelude.{◌≡◌, ◌++◌, IfErr, IfOk, OnOk};
ghost use Rattle.ipa_framing.specs.Frame.{frame_text};
ghost use Rattle.link_workers.specs.Switching.{AnswersFrame, AnswersWhole, IsAnswerFault};
ghost use Rattle.link_workers.specs.Switching.{PlaysSwitch, message_in, replies_text, reply_frame};
ghost use Rattle.link_workers.specs.Unread.{IsUnread, fault_in};

use crate::IoFault;
use crate::framing::{BLOCK, read_on};
use crate::link_reads::LinkReads;
use crate::unread::{UnreadLink, fault_of};
use crate::writing::write_octets;
use bssmap_codec::{InterfaceFault, Sccp, read_sccp, write_sccp};
use ipa_framing::{Frame, Framer, SCCP_STREAM, write_frame};
use msc_end::MscEnd;
use octets::{Memory, Octets};
use std::alloc::Global;
use std::io::{Read, Write};

/// A switch for tests that has ended, with its reader and its writer. `fault` is `None` if the
/// octets were read to their end and all replies were written.
#[derive(Drop)]
pub struct HasAnswered<I, O> {
    pub reader: I,
    pub writer: O,
    pub switch: MscEnd,
    pub fault: Option<IoFault>,
}

/// Plays the switch at the other end of a link: answers the SCCP messages that are read, in order,
/// and writes the replies. A frame of another stream, or a frame whose body can't be read as an
/// SCCP message, gets no reply. Returns the reader, the writer and the switch, with the fault.
///
/// - `ReadFailed`: a read failed (interrupted reads are retried), or 2^40 reads didn't reach the
///   end.
/// - `WriteFailed`: a write failed (interrupted writes are retried) or took no octet.
/// - `FrameFault`: a frame has a body of more than 2,048 octets, or a reply can't be encoded.
/// - `Memory`: an allocation failed.
pub fn switch_worker<I: Read, O: Write>(
    alloc: Global,
    mut reader: I,
    mut writer: O,
    mut switch: MscEnd,
) -> HasAnswered<I, O>
    ensures { PlaysSwitch (I.remaining reader) (I.remaining result.reader) (O.contents writer)
        (O.contents result.writer) switch result.switch result.fault }
{
    let answered = answer_all(alloc, &mut reader, &mut writer, &mut switch);
    HasAnswered {
        reader,
        writer,
        switch,
        fault: fault_of(answered),
    }
}

/// Reads the octets of a link to their end, and answers the frames in the octets.
fn answer_all<I: Read, O: Write>(
    alloc: Global,
    reader: &mut I,
    writer: &mut O,
    switch: &mut MscEnd,
) -> Result<(), UnreadLink>
    ensures plays { PlaysSwitch (I.remaining reader.old) (I.remaining reader.new)
        (O.contents writer.old) (O.contents writer.new) switch.old switch.new (fault_in result) }
    ensures why { IfErr result (λ unread. IsUnread unread) }
{
    let mut framer = Framer::new(alloc);
    let mut block = [0; BLOCK];
    let mut reads = LinkReads::none();
    while read_on(reader, &mut reads, &mut block, &mut framer)? {
        answer_frames(alloc, &mut framer, writer, switch)?;
    }
    Ok(())
}

/// Answers the complete frames that the framer holds.
fn answer_frames<O: Write>(
    alloc: Global,
    framer: &mut Framer,
    writer: &mut O,
    switch: &mut MscEnd,
) -> Result<(), IoFault>
    ensures { AnswersWhole framer.old framer.new
        (O.contents writer.old) (O.contents writer.new) switch.old switch.new result }
{
    while let Some(frame) = framer.next()? {
        answer(alloc, &frame, writer, switch)?;
    }
    Ok(())
}

/// Answers a frame: hands the frame's SCCP message to the switch, and writes the replies. A frame
/// without an SCCP message is ignored.
fn answer<O: Write>(
    alloc: Global,
    frame: &Frame,
    writer: &mut O,
    switch: &mut MscEnd,
) -> Result<(), IoFault>
    ensures { AnswersFrame (O.contents writer.old) (O.contents writer.new)
        switch.old switch.new frame.now result }
{
    let Some(message) = message_of(alloc, frame)? else {
        return Ok(());
    };
    let mut replies = Vec::new(alloc);
    switch.on_message(&message, &mut replies)?;
    let text = text_of(alloc, replies.as_slice())?;
    write_octets(writer, text.as_slice())
}

/// The SCCP message in a frame; `None` if the frame is of another stream or its body can't be read.
/// Returns `Err` on allocation failure.
fn message_of(alloc: Global, frame: &Frame) -> Result<Option<Sccp>, Memory>
    ensures { IfOk result (λ message. message ≡ message_in frame.now) }
{
    if frame.stream != SCCP_STREAM {
        return Ok(None);
    }
    match read_sccp(alloc, frame.body.as_slice()) {
        Ok(message) => Ok(Some(message)),
        Err(InterfaceFault::Memory) => Err(Memory),
        Err(_) => Ok(None),
    }
}

/// The octets of the frames that carry these replies, in order.
fn text_of(alloc: Global, replies: &[Sccp]) -> Result<Vec<u8>, IoFault>
    ensures text { IfOk result (λ text. text.items ≡ replies_text replies.now) }
    ensures fault { IfErr result (λ fault. IsAnswerFault fault) }
{
    let mut text = Vec::new(alloc);
    for reply in replies {
        write_reply(alloc, reply, &mut text)?;
    }
    Ok(text)
}

/// Appends the octets of the frame that carries this reply to `text`.
fn write_reply(alloc: Global, reply: &Sccp, text: &mut Vec<u8>) -> Result<(), IoFault>
    ensures text { OnOk result (text.new.items
        ≡ text.old.items ++ frame_text (reply_frame reply.now)) }
    ensures fault { IfErr result (λ fault. IsAnswerFault fault) }
{
    let mut body = Vec::new(alloc);
    write_sccp(alloc, reply, &mut body)?;
    let frame = Frame {
        stream: SCCP_STREAM,
        body: Octets::new(body),
    };
    write_frame(&frame, text)?;
    Ok(())
}
