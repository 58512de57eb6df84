// SPDX-License-Identifier: MIT OR Apache-2.0
//! The program `bsc`: a relay of the signalling between the stations and the switch of a GSM
//! network.
#![tactic(auto)]

pub use bsc_program::{decode, replay};
use bsc_program::{Failure, ProgramFault};
use frame_words::decode_long;
use judge_program::{Form, Strictness};
use judging::judged;
pub use link_sockets::{RunFault, run_links};
use link_sockets::{RecordWish, VERSION, relay};
pub use program_base::{Task, TaskFault, Tool, task, tool};
use program_base::{Asked, print_usage, settings_text};
use recording::RecordedRun;
use rerunning::reran;
use std::io::BufWriter;
use std::process::ExitCode;
use strict::{Wanted, read_words, strictly_replayed};
use tracing::{pictures_of, traced};

mod judging;
mod recording;
mod rerun_words;
mod rerunning;
mod strict;
mod tracing;

/// The checksum of the logic in which the proofs of this version hold. The checksum doesn't depend
/// on the kit that built the program.
const LOGIC: &str = "dac8208d650f15bf";

fn main(rt: HostRuntime) -> ExitCode {
    let ended = match read_words(&rt) {
        Ok(Wanted::StrictReplay(file)) => strictly_replayed(&rt, file.as_str()),
        Ok(Wanted::Recorded(run)) => match wish_of(&rt, run) {
            Ok((file, wish)) => relay(&rt, file.as_str(), Some(wish)),
            Err(fault) => Err(fault),
        },
        Ok(Wanted::Rerun(asked)) => reran(&rt, &asked),
        Ok(Wanted::Other(Asked::Version)) => versioned(&rt),
        Ok(Wanted::Other(Asked::Task(Task::Run(file)))) => relay(&rt, file.as_str(), None),
        Ok(Wanted::Other(Asked::Task(Task::Replay(file, breaks)))) => replayed(&rt, file, breaks),
        Ok(Wanted::Other(Asked::Task(Task::Decode))) => decoded(&rt, false),
        Ok(Wanted::Other(Asked::Tool(asked))) => shown(&rt, asked),
        Err(TaskFault::Memory) => Err(ProgramFault::Failed(Failure::Memory)),
        Err(fault) => Ok(fault.status()),
    };
    let status = match ended {
        Ok(status) => status,
        Err(fault) => {
            let _ = eprintln!(rt; "bsc: {fault}");
            fault.status()
        }
    };
    ExitCode::from(status)
}

/// Prints the version and returns the exit status of the program.
fn versioned(rt: &HostRuntime) -> Result<u8, ProgramFault> {
    match println!(rt; "bsc {VERSION} (logic {LOGIC})") {
        Ok(()) => Ok(0),
        Err(error) => Err(ProgramFault::Failed(Failure::from(error))),
    }
}

/// The settings' file of a run, and the record that it wishes for. Fails only if an allocation
/// fails.
fn wish_of(rt: &HostRuntime, run: RecordedRun) -> Result<(String, RecordWish), ProgramFault> {
    let RecordedRun { file, folder, size } = run;
    match format!(in rt.alloc(); "bsc {VERSION} (logic {LOGIC})") {
        Ok(version) => Ok((
            file,
            RecordWish {
                files: *rt,
                folder,
                size,
                version,
            },
        )),
        Err(_) => Err(ProgramFault::Failed(Failure::Memory)),
    }
}

/// Replays the script on standard input, with the settings in `file` if it is `Some`, and returns
/// the exit status of the program. The output is buffered. `Err`: the settings can't be read, or
/// memory ran out.
fn replayed(
    rt: &HostRuntime,
    file: Option<String>,
    breaks: Option<String>,
) -> Result<u8, ProgramFault> {
    let settings = match file {
        Some(file) => Some(settings_text(rt, file.as_str())?),
        None => None,
    };
    let Ok(mut output) = BufWriter::new(rt.alloc(), rt.stdout()) else {
        return Err(ProgramFault::Failed(Failure::Memory));
    };
    Ok(replay(
        rt.alloc(),
        settings.as_deref(),
        breaks.as_deref(),
        &mut rt.stdin(),
        &mut output,
        &mut rt.stderr(),
    ))
}

/// Prints the names of the frames on standard input, and also their contents if `is_long`. Returns
/// the exit status of the program. The output is buffered.
fn decoded(rt: &HostRuntime, is_long: bool) -> Result<u8, ProgramFault> {
    let Ok(mut output) = BufWriter::new(rt.alloc(), rt.stdout()) else {
        return Err(ProgramFault::Failed(Failure::Memory));
    };
    if is_long {
        Ok(decode_long(rt.alloc(), &mut rt.stdin(), &mut output, &mut rt.stderr()))
    } else {
        Ok(decode(rt.alloc(), &mut rt.stdin(), &mut output, &mut rt.stderr()))
    }
}

/// Runs a tool and returns the exit status of the program. If the form of a chart is unknown,
/// prints the usage and returns the exit status of wrong words.
fn shown(rt: &HostRuntime, asked: Tool) -> Result<u8, ProgramFault> {
    match asked {
        Tool::Trace {
            settings,
            strict,
            chart,
            capture,
        } => match pictures_of(chart, capture) {
            Some(pictures) => traced(rt, settings.as_str(), strict, &pictures),
            None => {
                print_usage(rt);
                Ok(TaskFault::Words.status())
            }
        },
        Tool::Judge {
            settings,
            strict,
            tap,
        } => {
            let strictness = if strict {
                Strictness::Strict
            } else {
                Strictness::Lenient
            };
            let form = if tap { Form::Tap } else { Form::Text };
            judged(rt, settings.as_deref(), strictness, form)
        }
        Tool::DecodeLong => decoded(rt, true),
    }
}
