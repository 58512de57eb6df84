// SPDX-License-Identifier: MIT OR Apache-2.0
//! `bsc run --record`: its command line, for which `Task` has no variant.
use program_base::{TaskFault, print_usage};
use std::alloc::Global;
use std::env;
use std::io::ErrorKind;

/// The size in MiB at which a file of a record ends, unless the words say another.
const DEFAULT_SIZE: u32 = 1024;

/// The largest size in MiB.
const MOST_SIZE: u32 = 1 << 20;

/// A run that is recorded.
#[derive(Drop)]
pub(crate) struct RecordedRun {
    /// The settings' file.
    pub(crate) file: String,
    /// The folder of the record.
    pub(crate) folder: String,
    /// The size of its files in MiB.
    pub(crate) size: u32,
}

/// An option of `run --record`.
#[derive(Clone, Copy)]
enum Name {
    Config,
    Record,
    Size,
}

/// The values of the options.
#[derive(Clone, Copy, Drop)]
struct Values<'a> {
    config: Option<&'a str>,
    record: Option<&'a str>,
    size: Option<&'a str>,
}

/// The run that the command line asks for, or `None` if it isn't `run --record`. If it is and its
/// other words are wrong, prints the usage and returns `Words`. A word that isn't UTF-8 is left to
/// `asked`.
pub(crate) fn recorded_run(rt: &HostRuntime) -> Result<Option<RecordedRun>, TaskFault> {
    let words: Vec<String> = match env::args(rt) {
        Ok(words) => words.skip(1).collect(rt.alloc())?,
        Err(error) if error.kind() == ErrorKind::OutOfMemory => return Err(TaskFault::Memory),
        Err(_) => return Ok(None),
    };
    let texts: Vec<&str> = words.iter().map(|word| word.as_str()).collect(rt.alloc())?;
    match behind_run(&texts) {
        Some(options) if is_recorded(options) => match run_of(rt.alloc(), options) {
            Err(TaskFault::Words) => {
                refuse(rt);
                Err(TaskFault::Words)
            }
            found => Ok(Some(found?)),
        },
        _ => Ok(None),
    }
}

/// The words after `run`, if that is the first word.
fn behind_run<'a>(words: &'a [&'a str]) -> Option<&'a [&'a str]> {
    let (name, options) = words.split_first()?;
    if *name == "run" { Some(options) } else { None }
}

/// Whether one of the words is an option of a record.
fn is_recorded(options: &[&str]) -> bool {
    for option in options {
        if option.starts_with("--record") {
            return true;
        }
    }
    false
}

/// The run that these options ask for.
fn run_of(alloc: Global, options: &[&str]) -> Result<RecordedRun, TaskFault> {
    let Some(values) = values_of(options) else {
        return Err(TaskFault::Words);
    };
    match (values.config, values.record, size_of(values.size)) {
        (Some(file), Some(folder), Some(size)) => Ok(RecordedRun {
            file: String::from_str(alloc, file)?,
            folder: String::from_str(alloc, folder)?,
            size,
        }),
        _ => Err(TaskFault::Words),
    }
}

/// The values of these options. `None` if one is unknown, or has no value, or comes twice.
fn values_of<'a>(options: &'a [&'a str]) -> Option<Values<'a>> {
    let mut values = Values {
        config: None,
        record: None,
        size: None,
    };
    let mut awaited: Option<Name> = None;
    for option in options {
        match awaited {
            Some(name) => {
                set(&mut values, name, option)?;
                awaited = None;
            }
            None => match option.split_once("=") {
                Some((name, value)) => set(&mut values, name_of(name)?, value)?,
                None => awaited = Some(name_of(option)?),
            },
        }
    }
    if awaited.is_some() {
        None
    } else {
        Some(values)
    }
}

fn name_of(option: &str) -> Option<Name> {
    match option {
        "--config" => Some(Name::Config),
        "--record" => Some(Name::Record),
        "--record-size" => Some(Name::Size),
        _ => None,
    }
}

/// Sets the value of an option. `None` if it has one already.
fn set<'a>(values: &mut Values<'a>, name: Name, value: &'a str) -> Option<()> {
    let place = match name {
        Name::Config => &mut values.config,
        Name::Record => &mut values.record,
        Name::Size => &mut values.size,
    };
    if place.is_some() {
        return None;
    }
    *place = Some(value);
    Some(())
}

/// The size in MiB of this word, or the default without one. `None` if it isn't a number from 1 to
/// `MOST_SIZE`.
fn size_of(word: Option<&str>) -> Option<u32> {
    let Some(word) = word else {
        return Some(DEFAULT_SIZE);
    };
    match word.parse::<u32>() {
        Ok(size) if size > 0 && size <= MOST_SIZE => Some(size),
        _ => None,
    }
}

/// Prints the words that `run --record` needs, and the usage of the program.
fn refuse(rt: &HostRuntime) {
    let _ = eprintln!(rt;
        "bsc: run --record wants --config FILE, a folder, and at most \
        --record-size MIB, from 1 to {MOST_SIZE}"
    );
    print_usage(rt);
}
