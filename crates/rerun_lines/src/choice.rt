// SPDX-License-Identifier: MIT OR Apache-2.0
ghost use Rattle.std.specs.Prelude.{◌≡◌};
ghost use Rattle.rerun_lines.specs.Chosen.{fits, has_link, is_between, is_from, shows_note};
ghost use Rattle.rerun_lines.specs.Chosen.{shows_out, shows_taken, shows_time, touches};

use crate::clock::time_of_day;
use conn_messages::Out;
use connection_notes::Note;
use controller_model::Step;
use run_record::Stamp;

/// Which lines of a run are shown.
#[derive(Clone, Copy)]
pub struct Choice {
    /// Those of the connection with this number.
    pub conn: Option<u32>,
    /// Those of the link of this cell's station. What becomes of connections is shown where the
    /// step took something of that station, or put a frame on its link.
    pub cell: Option<u16>,
    /// From this time of day on, in milliseconds since midnight.
    pub from: u32,
    /// Up to this one. If it is before the other, it is that of the next day.
    pub to: u32,
}

impl Choice {
    /// Whether lines of this time are shown.
    pub(crate) fn shows_time(&self, stamp: Stamp) -> bool
        ensures { result ≡ shows_time self.now stamp }
    {
        is_between(self.from, self.to, time_of_day(stamp))
    }

    /// Whether it is shown what a step took of a link. `concerns` says whether it is for the
    /// connection that is wanted.
    pub(crate) fn shows_taken(&self, concerns: bool, link: u16) -> bool
        ensures { result ≡ shows_taken self.now concerns link }
    {
        (self.conn.is_none() || concerns) && fits_link(self.cell, link)
    }

    /// Whether a frame that was put is shown.
    pub(crate) fn shows_out(&self, out: &Out) -> bool
        ensures { result ≡ shows_out self.now out.now }
    {
        fits_conn(self.conn, out.conn) && fits_link(self.cell, out.to)
    }

    /// Whether it is shown what became of a connection, at a step that touched the cell or didn't.
    pub(crate) fn shows_note(&self, touched: bool, note: Note) -> bool
        ensures { result ≡ shows_note self.now touched note }
    {
        touched && fits_conn(self.conn, note.number())
    }

    /// Whether a step took something of the cell's station, or put a frame on its link; or no cell
    /// is wanted.
    pub(crate) fn touches(&self, step: &Step, outs: &[Out]) -> bool
        ensures { result ≡ touches self.now.cell step.now outs.now }
    {
        match self.cell {
            None => true,
            Some(cell) => is_from(cell, step) || has_link(cell, outs),
        }
    }
}

fn fits_conn(wanted: Option<u32>, number: u32) -> bool
    ensures { result ≡ fits wanted number }
{
    match wanted {
        None => true,
        Some(wanted) => wanted == number,
    }
}

fn fits_link(wanted: Option<u16>, link: u16) -> bool
    ensures { result ≡ fits wanted link }
{
    match wanted {
        None => true,
        Some(wanted) => wanted == link,
    }
}

/// Whether a time of day is between two others, of which the second may be on the next day.
fn is_between(from: u32, to: u32, time: u32) -> bool
    ensures { result ≡ is_between from to time }
{
    if from <= to {
        from <= time && time <= to
    } else {
        from <= time || time <= to
    }
}

/// Whether a step took something of the link with this number.
fn is_from(link: u16, step: &Step) -> bool
    ensures { result ≡ is_from link step.now }
{
    match step {
        Step::Take(item) => item.source == link,
        Step::Tick(_) => false,
    }
}

/// Whether a frame was put on the link with this number.
fn has_link(link: u16, outs: &[Out]) -> bool
    ensures { result ≡ has_link link outs.now }
{
    for out in outs {
        if out.to == link {
            return true;
        }
    }
    false
}
