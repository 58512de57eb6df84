// SPDX-License-Identifier: MIT OR Apache-2.0
ghost use Rattle.std.specs.Prelude.{◌≡◌, ◌≤◌, IfErr, OnOk};
ghost use Rattle.std.specs.Io.KnownBytes.{Appends};
ghost use Rattle.program_io.specs.Status.{status_of};
ghost use Rattle.judge_report.specs.Sums.{counted_if, end_text, fails, no_sums, start_text};
ghost use Rattle.judge_report.specs.Sums.{status_of_sums, sums_text, with_one};

use crate::style::{Form, Strictness};
use crate::verdict::{is_blamed, plural_end};
use judge_orders::Judged;
use program_io::{Failure, put};
use std::io::Write;

/// The numbers of printed connections. Each number saturates.
#[derive(Clone, Copy)]
pub struct Sums {
    pub printed: u64,
    /// The number of printed connections with a fault of the controller.
    pub blamed: u64,
    /// The number of printed connections that aren't judged to the end.
    pub unjudged: u64,
}

impl Sums {
    /// The sums before any connection.
    pub fn none() -> Sums
        ensures { result ≡ no_sums }
    {
        Sums {
            printed: 0,
            blamed: 0,
            unjudged: 0,
        }
    }

    /// The sums with this connection added.
    pub fn with(self, judged: &Judged) -> Sums
        ensures { result ≡ with_one self judged.now }
    {
        Sums {
            printed: self.printed.saturating_add(1),
            blamed: counted_if(is_blamed(&judged.connection), self.blamed),
            unjudged: counted_if(judged.connection.unjudged.is_some(), self.unjudged),
        }
    }

    /// The exit status of a program that has printed these connections: 1 if the controller has a
    /// fault, or if, under `Strict`, a connection isn't judged to the end; else 0.
    pub fn status(self, strictness: Strictness) -> u8
        ensures { result ≡ status_of_sums strictness self }
    {
        if self.fails(strictness) { 1 } else { 0 }
    }

    fn fails(self, strictness: Strictness) -> bool
        ensures { result ≡ fails strictness self }
    {
        match strictness {
            Strictness::Lenient => self.blamed != 0,
            Strictness::Strict => self.blamed != 0 || self.unjudged != 0,
        }
    }
}

fn counted_if(holds: bool, count: u64) -> u64
    ensures { result ≡ counted_if holds count }
{
    if holds {
        count.saturating_add(1)
    } else {
        count
    }
}

/// Writes the line before all connections: the version in TAP, nothing in text. Fails if a write
/// fails.
pub fn write_start<W: Write>(form: Form, output: &mut W) -> Result<(), Failure>
    ensures text { OnOk result (Appends (W.contents output.old) (W.contents output.new)
        (start_text form)) }
    ensures err { IfErr result (λ failure. status_of failure ≡ 3) }
{
    match form {
        Form::Text => {}
        Form::Tap => put(output, b"TAP version 14\n")?,
    }
    Ok(())
}

/// Writes the lines after all connections: the sums, and in TAP the plan. Fails if an allocation or
/// a write fails.
pub fn write_end<W: Write>(form: Form, sums: Sums, output: &mut W) -> Result<(), Failure>
    ensures text { OnOk result (Appends (W.contents output.old) (W.contents output.new)
        (end_text form sums)) }
    ensures err { IfErr result (λ failure. status_of failure ≡ 3) }
{
    match form {
        Form::Text => write_sums(sums, output),
        Form::Tap => {
            put(output, b"# ")?;
            write_sums(sums, output)?;
            let Sums { printed, .. } = sums;
            writeln!(output, "1..{printed}")?;
            Ok(())
        }
    }
}

fn write_sums<W: Write>(sums: Sums, output: &mut W) -> Result<(), Failure>
    ensures text { OnOk result (Appends (W.contents output.old) (W.contents output.new)
        (sums_text sums)) }
    ensures err { IfErr result (λ failure. status_of failure ≡ 3) }
{
    let Sums {
        printed,
        blamed,
        unjudged,
    } = sums;
    let in_order = printed.saturating_sub(blamed);
    let end = plural_end(printed);
    write!(output, "{printed} connection{end}: {in_order} in order, ")?;
    writeln!(output, "{blamed} not, {unjudged} not judged to the end")?;
    Ok(())
}
