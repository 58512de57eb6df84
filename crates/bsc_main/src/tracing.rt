// SPDX-License-Identifier: MIT OR Apache-2.0
//! `bsc trace`: the lines, the pictures, and the output about a fault.
use bsc_program::{Failure, ProgramFault};
use program_base::{
    KeptScript, WatchedInput, WatchedOutput, read_settings, settings_text_or_status,
};
use program_io::put;
use settings_hint::hint_of;
use std::fs;
use std::io::{self, BufWriter, Read, Write};
use trace_pictures::{Form, captured, drawn, form_of, whole_script};
use trace_program::trace;

/// What `trace` draws: a chart in place of the lines, and a capture in addition to the lines or the
/// chart.
#[derive(Drop)]
pub(crate) struct Pictures {
    chart: Option<Form>,
    /// The file into which the capture is written.
    capture: Option<String>,
}

/// The pictures that these words ask for; `None` if `chart` is the name of no form of chart.
pub(crate) fn pictures_of(chart: Option<String>, capture: Option<String>) -> Option<Pictures> {
    let chart = match chart {
        Some(word) => Some(form_of(word.as_str())?),
        None => None,
    };
    Some(Pictures { chart, capture })
}

/// Traces the script on standard input with the settings in this file, and returns the exit status
/// of the program. The output is buffered. If something fails, a second line on standard error has
/// the reason: why the settings can't be read, where the settings have their fault, why a line is
/// bad, or which device failed.
pub(crate) fn traced(
    rt: &HostRuntime,
    file: &str,
    strict: bool,
    pictures: &Pictures,
) -> Result<u8, ProgramFault> {
    let settings = match settings_text_or_status(rt, file) {
        Ok(settings) => settings,
        Err(status) => return Ok(status),
    };
    let Ok(mut buffered) = BufWriter::new(rt.alloc(), rt.stdout()) else {
        return Err(ProgramFault::Failed(Failure::Memory));
    };
    let mut stdin = rt.stdin();
    let mut input = WatchedInput::new(rt.alloc(), &mut stdin);
    let mut output = WatchedOutput::new(&mut buffered);
    let text = settings.as_str();
    let status = match shown_of(rt, text, strict, pictures, &mut input, &mut output) {
        Ok(status) => status,
        Err(fault) => {
            let _ = eprintln!(rt; "bsc: {fault}");
            fault.status()
        }
    };
    match status {
        1 => tell_place(rt, file, text),
        2 => tell_line(rt, text, &input),
        3 => tell_device(rt, &input, &output),
        _ => {}
    }
    Ok(status)
}

/// Prints where the settings in this text have their fault.
pub(crate) fn tell_place(rt: &HostRuntime, file: &str, text: &str) {
    let Err(ProgramFault::Settings(fault)) = read_settings(rt.alloc(), text) else {
        return;
    };
    if let Some(hint) = hint_of(rt.alloc(), text, &fault) {
        let _ = eprintln!(rt; "bsc: settings: {file}{hint}");
    }
}

/// Prints which line of the script is bad and why, judged with the settings in `text`.
fn tell_line<R: Read>(rt: &HostRuntime, text: &str, input: &WatchedInput<'_, R>) {
    let Ok(settings) = read_settings(rt.alloc(), text) else {
        return;
    };
    if let Some((number, complaint)) = input.bad_line(u16::from(settings.cell_count())) {
        let _ = eprintln!(rt; "bsc: line {number}: {complaint}");
    }
}

/// Prints which device failed, if one did.
fn tell_device<R: Read, W: Write>(
    rt: &HostRuntime,
    input: &WatchedInput<'_, R>,
    output: &WatchedOutput<'_, W>,
) {
    if input.has_failed() {
        let _ = eprintln!(rt; "bsc: standard input: a read failed");
    } else if output.has_failed() {
        let _ = eprintln!(rt; "bsc: standard output: a write failed");
    }
}

/// Shows the messages on the links in a script: as lines or as a chart, and also as a capture if a
/// capture is wanted.
fn shown_of<R: Read, W: Write>(
    rt: &HostRuntime,
    settings: &str,
    strict: bool,
    pictures: &Pictures,
    input: &mut R,
    output: &mut W,
) -> Result<u8, ProgramFault> {
    if pictures.chart.is_none() && pictures.capture.is_none() {
        return Ok(trace(
            rt.alloc(),
            settings,
            strict,
            input,
            output,
            &mut rt.stderr(),
        ));
    }
    let script = whole_script(rt.alloc(), settings, input)?;
    if let Some(name) = &pictures.capture {
        if !is_captured(rt, settings, &script, name.as_str())? {
            let _ = eprintln!(rt; "bsc: cannot write {name}");
            return Ok(Failure::Device.status());
        }
    }
    match pictures.chart {
        Some(form) => charted(rt, settings, strict, &script, form, output),
        None => {
            let mut octets = script.octets.as_slice();
            Ok(trace(
                rt.alloc(),
                settings,
                strict,
                &mut octets,
                output,
                &mut rt.stderr(),
            ))
        }
    }
}

/// Writes the capture of a script into this file, and returns whether the file could be written.
/// Creates the file before the capture is made.
fn is_captured(
    rt: &HostRuntime,
    settings: &str,
    script: &KeptScript,
    name: &str,
) -> Result<bool, ProgramFault> {
    let Ok(mut file) = fs::create(rt, name) else {
        return Ok(false);
    };
    let octets = captured(rt.alloc(), settings, script.events.as_slice())?;
    Ok(put(&mut file, octets.as_slice()).is_ok())
}

/// Prints a chart in place of the lines of a trace, and returns the status of the trace.
fn charted<W: Write>(
    rt: &HostRuntime,
    settings: &str,
    strict: bool,
    script: &KeptScript,
    form: Form,
    output: &mut W,
) -> Result<u8, ProgramFault> {
    let octets = drawn(rt.alloc(), settings, script, form)?;
    if let Err(error) = put_all(output, octets.as_slice()) {
        return Err(ProgramFault::Failed(Failure::from(error)));
    }
    let mut octets = script.octets.as_slice();
    let mut none = io::sink();
    Ok(trace(
        rt.alloc(),
        settings,
        strict,
        &mut octets,
        &mut none,
        &mut rt.stderr(),
    ))
}

/// Writes octets, and flushes the output.
fn put_all<W: Write>(output: &mut W, octets: &[u8]) -> io::Result<()> {
    put(output, octets)?;
    output.flush()
}
