// SPDX-License-Identifier: MIT OR Apache-2.0
ghost use Rattle.std.specs.Prelude.{◌≡◌, IfErr, OnOk};
ghost use Rattle.std.specs.Io.KnownBytes.{Appends};
ghost use Rattle.dtap_codec.specs.Number.{count_of};
ghost use Rattle.program_io.specs.Status.{status_of};
ghost use Rattle.judge_report.specs.JudgedText.{fit_line, fit_text, judged_text};

use crate::connection::write_connection;
use crate::lines::lead_of;
use crate::style::{Form, Style};
use judge_orders::{Fit, Judged};
use program_io::{Failure, put};
use std::alloc::Global;
use std::io::Write;

/// Writes the verdict of a connection, and, if two orders were tried, which of them fit. `place` is
/// the place of the connection among the printed connections, from 1. Fails if an allocation or a
/// write fails.
pub fn write_judged<W: Write>(
    alloc: Global,
    style: Style,
    place: u64,
    judged: &Judged,
    output: &mut W,
) -> Result<(), Failure>
    ensures text { OnOk result (Appends (W.contents output.old) (W.contents output.new)
        (judged_text (count_of style.modulus) style.form style.strictness place judged.now)) }
    ensures err { IfErr result (λ failure. status_of failure ≡ 3) }
{
    write_connection(alloc, style, place, &judged.connection, output)?;
    write_fit(style.form, judged.fit, output)
}

/// Writes which of the two orders fit, if they were tried.
fn write_fit<W: Write>(form: Form, fit: Option<Fit>, output: &mut W) -> Result<(), Failure>
    ensures text { OnOk result (Appends (W.contents output.old) (W.contents output.new)
        (fit_line form fit)) }
    ensures err { IfErr result (λ failure. status_of failure ≡ 3) }
{
    let Some(fit) = fit else {
        return Ok(());
    };
    put(output, lead_of(form).as_bytes())?;
    put(output, words_of(fit).as_bytes())?;
    put(output, b"\n")?;
    Ok(())
}

fn words_of(fit: Fit) -> &'static str
    ensures { result.now ≡ fit_text fit }
{
    match fit {
        Fit::One => "two channels with this first message: the other way round not in order",
        Fit::Both => "two channels with this first message: in order either way round",
        Fit::Neither => "two channels with this first message: in order neither way round",
    }
}
