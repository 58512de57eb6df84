// SPDX-License-Identifier: MIT OR Apache-2.0
//! `bsc rerun`: the steps of a recorded run are given to the same controller again.
use crate::rerun_words::AskedRerun;
use bsc_program::{Failure, ProgramFault};
use program_base::{read_settings, settings_text};
use rerun_program::{Ending, Run, Stop};
use settings::Settings;
use std::fs;
use std::io::{BufWriter, Write};

/// The exit status where the controller put other frames than the record has.
const DIFFERS: u8 = 5;

/// The exit status of wrong words.
const WORDS: u8 = 2;

/// Does the run in these files again, and returns the exit status of the program. The output is
/// buffered.
pub(crate) fn reran(rt: &HostRuntime, asked: &AskedRerun) -> Result<u8, ProgramFault> {
    let settings = match &asked.settings {
        None => None,
        Some(file) => match settings_in(rt, file.as_str()) {
            Ok(settings) => Some(settings),
            Err(fault) if fault.status() == 1 => {
                let _ = eprintln!(rt; "bsc: {fault}");
                return Ok(WORDS);
            }
            Err(fault) => return Err(fault),
        },
    };
    let Ok(mut output) = BufWriter::new(rt.alloc(), rt.stdout()) else {
        return Err(ProgramFault::Failed(Failure::Memory));
    };
    let mut errors = rt.stderr();
    match Run::new(rt.alloc(), asked.plan, settings, &mut output, &mut errors) {
        Ok(mut run) => Ok(read_files(rt, asked.files.as_slice(), &mut run)),
        Err(stop) => {
            let _ = eprintln!(rt; "bsc: {stop}");
            Ok(stop.status())
        }
    }
}

/// Reads the settings in this file.
fn settings_in(rt: &HostRuntime, file: &str) -> Result<Settings, ProgramFault> {
    let text = settings_text(rt, file)?;
    read_settings(rt.alloc(), text.as_str())
}

/// Reads the parts of a run, and returns the exit status of the program.
fn read_files<W: Write, E: Write>(
    rt: &HostRuntime,
    files: &[String],
    run: &mut Run<'_, W, E>,
) -> u8 {
    let mut differs = false;
    for (place, file) in files.iter().enumerate() {
        let name = file.as_str();
        let Ok(mut input) = fs::open(rt, name) else {
            let _ = eprintln!(rt; "bsc: cannot read {name}");
            return Failure::Device.status();
        };
        match run.read(&mut input, files.len() - place == 1) {
            Ok(ending) => {
                tell_end(rt, name, ending);
                differs = ending.differs;
            }
            Err(stop) => return stopped(rt, name, stop),
        }
    }
    if differs { DIFFERS } else { 0 }
}

/// Tells where a part ends before its run.
fn tell_end(rt: &HostRuntime, name: &str, ending: Ending) {
    let packets = ending.packets;
    if ending.is_cut {
        let _ = eprintln!(rt; "bsc: {name}: cut behind packet {packets}");
    } else if ending.is_lost {
        let _ = eprintln!(rt; "bsc: {name}: the run went on behind packet {packets}");
    }
}

/// Tells why not all is read. A difference is told already.
fn stopped(rt: &HostRuntime, name: &str, stop: Stop) -> u8 {
    let status = stop.status();
    if status != DIFFERS {
        let _ = eprintln!(rt; "bsc: {name}: {stop}");
    }
    status
}
