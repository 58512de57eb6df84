// SPDX-License-Identifier: MIT OR Apache-2.0
ghost use Rattle.std.specs.Prelude.{◌≡◌, ◌++◌, IfErr, OnOk};
ghost use Rattle.dtap_codec.specs.Number.{count_of};
ghost use Rattle.program_io.specs.Status.{status_of};
ghost use Rattle.rerun_lines.specs.StepText.{break_line, end_text, frame_line, front_text};
ghost use Rattle.rerun_lines.specs.StepText.{said_text};

use crate::clock::clock_column;
use crate::ends::{Way, is_uplink, put_ends, put_number};
use crate::mark::Mark;
use crate::pieces::{put_clock, put_octets};
use dtap_codec::Modulus;
use frame_words::{write_digits, write_said};
use ipa_framing::Frame;
use octets::Memory;
use program_io::Failure;
use run_record::Stamp;
use std::alloc::Global;

/// Appends the line of a frame that crossed a link.
pub(crate) fn put_frame_line(
    alloc: Global,
    modulus: Modulus,
    mark: Mark,
    way: Way,
    link: u16,
    frame: &Frame,
    text: &mut Vec<u8>,
) -> Result<(), Failure>
    ensures text { OnOk result (text.new.items
        ≡ text.old.items ++ frame_line (count_of modulus) mark way link frame.now) }
    ensures err { IfErr result (λ failure. status_of failure ≡ 3) }
{
    put_front(mark.number, way, link, text)?;
    put_said(alloc, modulus, is_uplink(way, link), frame, text)?;
    put_end(alloc, mark.stamp, frame.body.as_slice(), text)
}

/// Appends the line of a link that broke.
pub(crate) fn put_break_line(mark: Mark, link: u16, text: &mut Vec<u8>) -> Result<(), Memory>
    ensures { OnOk result (text.new.items ≡ text.old.items ++ break_line mark link) }
{
    put_front(mark.number, Way::Taken, link, text)?;
    put_octets(b"LINK DOWN\tbroken", text)?;
    put_clock(mark.stamp, text)
}

/// Appends the columns before the name.
fn put_front(number: u64, way: Way, link: u16, text: &mut Vec<u8>) -> Result<(), Memory>
    ensures { OnOk result (text.new.items ≡ text.old.items ++ front_text number way link) }
{
    put_number(number, text)?;
    put_ends(way, link, text)
}

/// Appends the name of a frame, and what else is said of it.
fn put_said(
    alloc: Global,
    modulus: Modulus,
    is_numbered: bool,
    frame: &Frame,
    text: &mut Vec<u8>,
) -> Result<(), Failure>
    ensures text { OnOk result (text.new.items
        ≡ text.old.items ++ said_text (count_of modulus) is_numbered frame.now) }
    ensures err { IfErr result (λ failure. status_of failure ≡ 3) }
{
    write_said(alloc, modulus, frame, "\tsent", is_numbered, text)
}

/// Appends the time of day, and the column of octets.
fn put_end(alloc: Global, stamp: Stamp, octets: &[u8], text: &mut Vec<u8>) -> Result<(), Failure>
    ensures text { OnOk result (text.new.items ≡ text.old.items ++ end_text stamp octets.now) }
    ensures err { IfErr result (λ failure. status_of failure ≡ 3) }
{
    put_octets(&clock_column(stamp), text)?;
    write_digits(alloc, octets, text)?;
    put_octets(b"\n", text)?;
    Ok(())
}
