// SPDX-License-Identifier: MIT OR Apache-2.0
ghost use Rattle.std.specs.Prelude.{◌≡◌, ◌++◌, IfErr, OnOk, codes, option_map};
ghost use Rattle.std.specs.Prelude.{slice_get};
ghost use Rattle.program_io.specs.Status.{status_of};
ghost use Rattle.rerun_lines.specs.DifferenceText.{conn_text, difference_line, on_link_text};
ghost use Rattle.rerun_lines.specs.DifferenceText.{owner_text, place_text, put_text, recorded_text};

use crate::clock::clock_column;
use crate::ends::put_link;
use crate::mark::Mark;
use crate::pieces::{put_decimal, put_octets};
use conn_messages::Out;
use frame_words::{write_digits, write_message_name};
use ipa_framing::Frame;
use octets::Memory;
use program_io::Failure;
use record_steps::PutFrame;
use std::alloc::Global;

/// Appends the line of a step that put another frame at this place, from 0, than its record has
/// there, or of which one of them lacks a frame there.
pub fn put_difference(
    alloc: Global,
    mark: Mark,
    place: usize,
    outs: &[Out],
    recorded: &[PutFrame],
    text: &mut Vec<u8>,
) -> Result<(), Failure>
    ensures text { OnOk result (text.new.items
        ≡ text.old.items ++ difference_line mark place outs.now recorded.now) }
    ensures err { IfErr result (λ failure. status_of failure ≡ 3) }
{
    let out = out_at(outs, place);
    put_owner(out, text)?;
    put_place(mark, place, text)?;
    put_both(alloc, recorded_at(recorded, place), out, text)
}

fn out_at(outs: &[Out], place: usize) -> Option<&Out>
    ensures { option_map (λ o. o.now) result ≡ slice_get outs.now place }
{
    match outs.get(place) {
        Some(out) => Some(out),
        None => None,
    }
}

fn recorded_at(recorded: &[PutFrame], place: usize) -> Option<&PutFrame>
    ensures { option_map (λ p. p.now) result ≡ slice_get recorded.now place }
{
    match recorded.get(place) {
        Some(put) => Some(put),
        None => None,
    }
}

/// Appends the connection that a frame belongs to.
fn put_owner(out: Option<&Out>, text: &mut Vec<u8>) -> Result<(), Memory>
    ensures { OnOk result
        (text.new.items ≡ text.old.items ++ owner_text (option_map (λ o. o.now) out.entry)) }
{
    match out {
        Some(out) => put_conn(out.conn, text),
        None => {
            text.extend_from_slice(b"no conn")?;
            Ok(())
        }
    }
}

fn put_conn(conn: u32, text: &mut Vec<u8>) -> Result<(), Memory>
    ensures { OnOk result (text.new.items ≡ text.old.items ++ conn_text conn) }
{
    if conn == 0 {
        text.extend_from_slice(b"no conn")?;
        return Ok(());
    }
    put_octets(b"conn ", text)?;
    put_decimal(u64::from(conn), text)
}

/// Appends which step it is, and how many of its frames are the same before.
fn put_place(mark: Mark, place: usize, text: &mut Vec<u8>) -> Result<(), Memory>
    ensures { OnOk result (text.new.items ≡ text.old.items ++ place_text mark place) }
{
    put_octets(b"\tstep ", text)?;
    put_decimal(mark.number, text)?;
    put_octets(b" after ", text)?;
    put_decimal(place as u64, text)?;
    put_octets(b" frames", text)?;
    put_octets(&clock_column(mark.stamp), text)
}

/// Appends the frame of the record, and that which was put.
fn put_both(
    alloc: Global,
    recorded: Option<&PutFrame>,
    out: Option<&Out>,
    text: &mut Vec<u8>,
) -> Result<(), Failure>
    ensures text { OnOk result (text.new.items ≡ text.old.items
        ++ (codes "record: " ++ recorded_text (option_map (λ p. p.now) recorded.entry)
        ++ codes "\trerun: " ++ put_text (option_map (λ o. o.now) out.entry) ++ codes "\n")) }
    ensures err { IfErr result (λ failure. status_of failure ≡ 3) }
{
    put_octets(b"record: ", text)?;
    put_recorded(alloc, recorded, text)?;
    put_octets(b"\trerun: ", text)?;
    put_out(alloc, out, text)?;
    put_octets(b"\n", text)?;
    Ok(())
}

fn put_recorded(
    alloc: Global,
    recorded: Option<&PutFrame>,
    text: &mut Vec<u8>,
) -> Result<(), Failure>
    ensures text { OnOk result (text.new.items
        ≡ text.old.items ++ recorded_text (option_map (λ p. p.now) recorded.entry)) }
    ensures err { IfErr result (λ failure. status_of failure ≡ 3) }
{
    match recorded {
        Some(put) => put_on_link(alloc, u16::from(put.link), &put.frame, text),
        None => put_nothing(text),
    }
}

fn put_out(alloc: Global, out: Option<&Out>, text: &mut Vec<u8>) -> Result<(), Failure>
    ensures text { OnOk result (text.new.items
        ≡ text.old.items ++ put_text (option_map (λ o. o.now) out.entry)) }
    ensures err { IfErr result (λ failure. status_of failure ≡ 3) }
{
    match out {
        Some(out) => put_on_link(alloc, out.to, &out.frame, text),
        None => put_nothing(text),
    }
}

fn put_nothing(text: &mut Vec<u8>) -> Result<(), Failure>
    ensures text { OnOk result (text.new.items ≡ text.old.items ++ codes "nothing") }
    ensures err { IfErr result (λ failure. status_of failure ≡ 3) }
{
    put_octets(b"nothing", text)?;
    Ok(())
}

/// Appends a frame on a link: who is at the other end, its name, and the octets of its body.
fn put_on_link(alloc: Global, link: u16, frame: &Frame, text: &mut Vec<u8>) -> Result<(), Failure>
    ensures text { OnOk result
        (text.new.items ≡ text.old.items ++ on_link_text link frame.now) }
    ensures err { IfErr result (λ failure. status_of failure ≡ 3) }
{
    put_link(link, text)?;
    put_octets(b" ", text)?;
    write_message_name(alloc, frame, text)?;
    put_octets(b" ", text)?;
    write_digits(alloc, frame.body.as_slice(), text)
}
