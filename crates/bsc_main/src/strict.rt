// SPDX-License-Identifier: MIT OR Apache-2.0
//! `bsc replay --strict`: the command line, and the report with the exit status of `trace
//! --strict`.
use crate::recording::{RecordedRun, recorded_run};
use crate::rerun_words::{AskedRerun, rerun_words};
use bsc_program::{Failure, ProgramFault, replay};
use program_base::{Asked, TaskFault, Tool, asked, print_usage, settings_text, tool};
use std::alloc::Global;
use std::env;
use std::io::{self, BufWriter, ErrorKind};
use trace_pictures::whole_script;
use trace_program::trace;

/// What the command line asks for.
#[derive(Drop)]
pub(crate) enum Wanted {
    /// `replay --strict --config FILE`: replays a script with the settings in this file; every
    /// event of the script has to be taken.
    StrictReplay(String),
    /// `run --config FILE --record FOLDER`: relays, and records the run.
    Recorded(RecordedRun),
    /// `rerun FILE ..`: gives the steps of a recorded run to a controller again.
    Rerun(AskedRerun),
    Other(Asked),
}

/// Reads the command line. `replay --strict`, `run --record` and `rerun` are read here, since `Task`
/// has no variants for these commands; `asked` reads every other command line.
pub(crate) fn read_words(rt: &HostRuntime) -> Result<Wanted, TaskFault> {
    if let Some(file) = strict_settings(rt)? {
        return Ok(Wanted::StrictReplay(file));
    }
    if let Some(run) = recorded_run(rt)? {
        return Ok(Wanted::Recorded(run));
    }
    if let Some(asked) = rerun_words(rt)? {
        return Ok(Wanted::Rerun(asked));
    }
    Ok(Wanted::Other(asked(rt)?))
}

/// The settings file if the command line is `replay --strict`, else `None`. If the command line is
/// `replay --strict` and its other words are wrong, prints the usage and returns `Words`. Also
/// `None` if a word isn't UTF-8, which `asked` reports then.
fn strict_settings(rt: &HostRuntime) -> Result<Option<String>, TaskFault> {
    let words: Vec<String> = match env::args(rt) {
        Ok(words) => words.skip(1).collect(rt.alloc())?,
        Err(error) if error.kind() == ErrorKind::OutOfMemory => return Err(TaskFault::Memory),
        Err(_) => return Ok(None),
    };
    let texts: Vec<&str> = words.iter().map(|word| word.as_str()).collect(rt.alloc())?;
    match behind_replay(&texts) {
        Some(options) if is_strict(options) => match settings_among(rt.alloc(), options) {
            Err(TaskFault::Words) => {
                refuse(rt);
                Err(TaskFault::Words)
            }
            found => Ok(Some(found?)),
        },
        _ => Ok(None),
    }
}

/// The words after `replay`, if that is the first word.
fn behind_replay<'a>(words: &'a [&'a str]) -> Option<&'a [&'a str]> {
    let (name, options) = words.split_first()?;
    if *name == "replay" {
        Some(options)
    } else {
        None
    }
}

fn is_strict(options: &[&str]) -> bool {
    for option in options {
        if *option == "--strict" {
            return true;
        }
    }
    false
}

/// The settings file that these options name. The options of `replay --strict` are those of `trace
/// --strict` without pictures, so `tool` reads the options, after the word `trace`. Returns `Words`
/// if the options are wrong.
fn settings_among(alloc: Global, options: &[&str]) -> Result<String, TaskFault> {
    let mut words = Vec::new(alloc);
    words.extend_from_slice(&["trace"])?;
    words.extend_from_slice(options)?;
    match tool(alloc, &words)? {
        Tool::Trace {
            settings,
            chart: None,
            capture: None,
            ..
        } => Ok(settings),
        _ => Err(TaskFault::Words),
    }
}

/// Prints the words that `replay --strict` needs, and the usage of the program.
fn refuse(rt: &HostRuntime) {
    let _ = eprintln!(rt; "bsc: replay --strict wants --config FILE, and no other words");
    print_usage(rt);
}

/// Replays the script on standard input as `replay` does, with the settings in this file. If an
/// event wasn't taken, returns the status of `trace --strict`. That command prints how many events
/// weren't taken, and the line and the reason of the first such event.
pub(crate) fn strictly_replayed(rt: &HostRuntime, file: &str) -> Result<u8, ProgramFault> {
    let settings = settings_text(rt, file)?;
    let script = whole_script(rt.alloc(), settings.as_str(), &mut rt.stdin())?;
    let octets = script.octets.as_slice();
    match reported(rt, settings.as_str(), octets)? {
        0 => Ok(judged(rt, settings.as_str(), octets)),
        status => Ok(status),
    }
}

/// Prints the report of a script, and returns the status of `replay`.
fn reported(rt: &HostRuntime, settings: &str, script: &[u8]) -> Result<u8, ProgramFault> {
    let Ok(mut output) = BufWriter::new(rt.alloc(), rt.stdout()) else {
        return Err(ProgramFault::Failed(Failure::Memory));
    };
    let mut octets = script;
    Ok(replay(
        rt.alloc(),
        Some(settings),
        None,
        &mut octets,
        &mut output,
        &mut rt.stderr(),
    ))
}

/// The status of `trace --strict` for a script. The lines of the trace aren't printed.
fn judged(rt: &HostRuntime, settings: &str, script: &[u8]) -> u8 {
    let mut octets = script;
    trace(
        rt.alloc(),
        settings,
        true,
        &mut octets,
        &mut io::sink(),
        &mut rt.stderr(),
    )
}
