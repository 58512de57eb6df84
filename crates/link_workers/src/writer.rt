// SPDX-License-Identifier: MIT OR Apache-2.0
ghost use Rattle.std.specs.Prelude.{◌≡◌};
ghost use Rattle.std.specs.Io.KnownBytes.{Keeps};
ghost use Rattle.link_workers.specs.Writing.{Delivers, Gathers, TakesToEnd, WritesLines};

use crate::IoFault;
use crate::writing::write_octets;
use ipa_framing::write_frame;
use ruled_relay::{Line, Taker};
use std::alloc::Global;
use std::io::Write;
use std::sync::Wait;
use std::time::Duration;

/// The number of octets at which gathering for one write stops.
const GATHERED: usize = 8192;

/// The longest sleep, in seconds, of a writer that has nothing to write.
const LONGEST_SLEEP: u64 = 1;

/// Why a writer didn't write all lines.
#[derive(Clone, Copy)]
struct Broken {
    fault: IoFault,
    /// Whether the mark after the last frame was taken.
    at_end: bool,
}

/// A writer that has ended, with its taker. `fault` is `None` if all frames were written and the
/// flush succeeded.
#[derive(Drop)]
pub struct HasWritten<O> {
    pub writer: O,
    pub taker: Taker,
    pub fault: Option<IoFault>,
}

/// Takes the lines of an outbox up to the mark `End`, and writes the octets of the frames in these
/// lines. Gathers waiting lines into one write of about 8 KiB. Flushes the writer at the end.
/// Returns the writer and the taker, with the fault.
///
/// - `WriteFailed`: a write failed (interrupted writes are retried) or took no octet, or the flush
///   at the end failed.
/// - `FrameFault`: a frame has a body of more than 2,048 octets.
/// - `Memory`: an allocation failed.
///
/// After a fault, flushes the writer at once, then takes and drops the lines up to `End`. Also
/// flushes the writer once the putting end of the outbox has called `give_up` and no line waits.
pub fn serve_writer<O: Write, R: Wait>(
    rt: &R,
    alloc: Global,
    mut writer: O,
    mut taker: Taker,
) -> HasWritten<O>
    ensures { Delivers (O.contents writer) (O.contents result.writer)
        taker result.taker result.fault }
{
    let written = write_lines(rt, alloc, &mut writer, &mut taker);
    let flushed = writer.flush();
    let fault = match written {
        Ok(()) => match flushed {
            Ok(()) => None,
            Err(_) => Some(IoFault::WriteFailed),
        },
        Err(broken) => {
            if !broken.at_end {
                drop_lines(rt, &mut taker);
            }
            Some(broken.fault)
        }
    };
    HasWritten {
        writer,
        taker,
        fault,
    }
}

/// Takes the lines up to the mark, and writes their frames.
fn write_lines<O: Write, R: Wait>(
    rt: &R,
    alloc: Global,
    writer: &mut O,
    taker: &mut Taker,
) -> Result<(), Broken>
    ensures { WritesLines (O.contents writer.old) (O.contents writer.new)
        taker.old taker.new result }
{
    let mut text = Vec::new(alloc);
    for _ in rt.forever() {
        text.clear();
        let at_end = match gather(rt, writer, taker, &mut text) {
            Ok(at_end) => at_end,
            Err(fault) => {
                return Err(Broken {
                    fault,
                    at_end: false,
                });
            }
        };
        if let Err(fault) = write_octets(writer, text.as_slice()) {
            return Err(Broken { fault, at_end });
        }
        if at_end {
            return Ok(());
        }
    }
    unreachable!()
}

/// Takes the lines that wait in the outbox, and appends the octets of their frames to `text` until
/// `text` has `GATHERED` octets. If no line waits and `text` is empty, rests until a line is put.
/// Returns whether the mark was taken.
fn gather<O: Write, R: Wait>(
    rt: &R,
    writer: &mut O,
    taker: &mut Taker,
    text: &mut Vec<u8>,
) -> Result<bool, IoFault>
    ensures gathers { Gathers taker.old taker.new text.old.items text.new.items result }
    ensures same { Keeps (O.contents writer.old) (O.contents writer.new) }
{
    for _ in rt.forever() {
        if text.len() >= GATHERED {
            return Ok(false);
        }
        match taker.take(rt) {
            Some(Line::Frame(frame)) => write_frame(&frame, text)?,
            Some(Line::End) => return Ok(true),
            None if text.is_empty() => rest(rt, writer, taker),
            None => return Ok(false),
        }
    }
    unreachable!()
}

/// Sleeps until the putting end rings, at most for `LONGEST_SLEEP`. If the outbox was given up,
/// first flushes the writer, since only the mark is still to come.
fn rest<O: Write, R: Wait>(rt: &R, writer: &mut O, taker: &Taker)
    ensures { Keeps (O.contents writer.old) (O.contents writer.new) }
{
    if taker.was_given_up() {
        let _ = writer.flush();
    }
    taker.wait(rt, Duration::from_secs(LONGEST_SLEEP));
}

/// Takes and drops the lines up to the mark.
fn drop_lines<R: Wait>(rt: &R, taker: &mut Taker)
    ensures { TakesToEnd taker.old taker.new }
{
    for _ in rt.forever() {
        match taker.take(rt) {
            Some(Line::Frame(_)) => {}
            Some(Line::End) => return,
            None => taker.wait(rt, Duration::from_secs(LONGEST_SLEEP)),
        }
    }
    unreachable!()
}
