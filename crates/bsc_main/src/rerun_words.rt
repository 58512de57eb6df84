// SPDX-License-Identifier: MIT OR Apache-2.0
//! The command line of `bsc rerun`.
ghost use Rattle.std.specs.Prelude.{◌<◌, IfOk};

use program_base::TaskFault;
use rerun_program::{Choice, Mode, Plan};
use std::alloc::Global;
use std::env;
use std::io::ErrorKind;

/// The page of `rerun`.
const HELP: &str = "\
usage: bsc rerun [--settings FILE] [--compare] [--conn N] [--cell N]
                 [--from TIME] [--to TIME] FILE ..

  gives the steps of a recorded run to the same controller again, and prints a
  line for each frame that it took or put, and for what became of each
  connection: those of trace, with the time of day

  FILE ..
      the parts of one run, in order
  --settings FILE
      by these settings, a text in TOML; else by those of the record
  --compare
      prints all frames that the controller puts otherwise than the record has
      them, each with its connection, in place of these lines
  --conn N
      the lines of the connection with this number
  --cell N
      the lines of the station of this cell, from 1
  --from TIME, --to TIME
      the lines from a time of day on, and up to one: HH:MM, HH:MM:SS or
      HH:MM:SS.mmm, UTC; a time that is before the other is that of the next day

  status 0: the record was read to its end. 2: the words, the settings or a
  packet have a fault. 3: memory ran out, or a device failed. 5: the controller
  puts other frames than the record has.";

/// The last millisecond of a day.
const LAST: u32 = 86_399_999;

/// What `rerun` is asked for.
#[derive(Drop)]
pub(crate) struct AskedRerun {
    pub(crate) plan: Plan,
    /// The file of the settings, where those of the record aren't to be taken.
    pub(crate) settings: Option<String>,
    /// The parts of the run, in order.
    pub(crate) files: Vec<String>,
}

/// An option that has a value.
#[derive(Clone, Copy)]
enum Key {
    Settings,
    Conn,
    Cell,
    From,
    To,
}

/// Reads the command line, if `rerun` is its first word. Where the others are wrong, or ask for help,
/// it prints what they have to be. A word that isn't UTF-8 is left to others.
pub(crate) fn rerun_words(rt: &HostRuntime) -> Result<Option<AskedRerun>, TaskFault> {
    let words: Vec<String> = match env::args(rt) {
        Ok(words) => words.skip(1).collect(rt.alloc())?,
        Err(error) if error.kind() == ErrorKind::OutOfMemory => return Err(TaskFault::Memory),
        Err(_) => return Ok(None),
    };
    let texts: Vec<&str> = words.iter().map(|word| word.as_str()).collect(rt.alloc())?;
    match texts.as_slice() {
        [name, options @ ..] if *name == "rerun" => match read_rerun(rt.alloc(), options) {
            Ok(asked) => Ok(Some(asked)),
            Err(fault) => {
                if let TaskFault::Words = fault {
                    let _ = eprintln!(rt; "{HELP}");
                }
                Err(fault)
            }
        },
        [help, name] if *help == "help" && *name == "rerun" => {
            let _ = eprintln!(rt; "{HELP}");
            Err(TaskFault::Words)
        }
        _ => Ok(None),
    }
}

/// Reads the words after `rerun`.
fn read_rerun(alloc: Global, words: &[&str]) -> Result<AskedRerun, TaskFault> {
    let mut asked = nothing_asked(alloc);
    let mut key = None;
    for word in words {
        match take_word(alloc, &mut asked, key, word) {
            Ok(next) => key = next,
            Err(fault) => {
                drop(asked);
                return Err(fault);
            }
        }
    }
    if key.is_some() || asked.files.is_empty() {
        drop(asked);
        return Err(TaskFault::Words);
    }
    Ok(asked)
}

fn nothing_asked(alloc: Global) -> AskedRerun {
    AskedRerun {
        plan: Plan {
            mode: Mode::Show,
            choice: Choice {
                conn: None,
                cell: None,
                from: 0,
                to: LAST,
            },
        },
        settings: None,
        files: Vec::new(alloc),
    }
}

/// Takes a word. It is the value of the option that was before it, if that wants one, or an option,
/// or a file. The answer is the option that wants the next word as its value.
fn take_word(
    alloc: Global,
    asked: &mut AskedRerun,
    key: Option<Key>,
    word: &str,
) -> Result<Option<Key>, TaskFault> {
    if let Some(key) = key {
        take_value(alloc, asked, key, word)?;
        return Ok(None);
    }
    if let Some((name, value)) = word.split_once('=') {
        if let Some(key) = key_of(name) {
            take_value(alloc, asked, key, value)?;
            return Ok(None);
        }
    }
    if word == "--compare" {
        asked.plan.mode = Mode::Compare;
        return Ok(None);
    }
    if let Some(key) = key_of(word) {
        return Ok(Some(key));
    }
    if word.starts_with("-") {
        return Err(TaskFault::Words);
    }
    let file = String::from_str(alloc, word)?;
    if asked.files.push(file).is_err() {
        return Err(TaskFault::Memory);
    }
    Ok(None)
}

fn key_of(name: &str) -> Option<Key> {
    match name {
        "--settings" => Some(Key::Settings),
        "--conn" => Some(Key::Conn),
        "--cell" => Some(Key::Cell),
        "--from" => Some(Key::From),
        "--to" => Some(Key::To),
        _ => None,
    }
}

/// Takes the value of an option.
fn take_value(
    alloc: Global,
    asked: &mut AskedRerun,
    key: Key,
    value: &str,
) -> Result<(), TaskFault> {
    match key {
        Key::Settings => asked.settings = Some(String::from_str(alloc, value)?),
        Key::Conn => asked.plan.choice.conn = Some(number_in(value)?),
        Key::Cell => asked.plan.choice.cell = Some(cell_in(value)?),
        Key::From => asked.plan.choice.from = time_in(value)?,
        Key::To => asked.plan.choice.to = time_in(value)?,
    }
    Ok(())
}

fn number_in(value: &str) -> Result<u32, TaskFault> {
    match value.parse::<u32>() {
        Ok(number) => Ok(number),
        Err(_) => Err(TaskFault::Words),
    }
}

/// The number of a cell, from 1.
fn cell_in(value: &str) -> Result<u16, TaskFault> {
    match value.parse::<u8>() {
        Ok(0) => Err(TaskFault::Words),
        Ok(number) => Ok(u16::from(number)),
        Err(_) => Err(TaskFault::Words),
    }
}

/// A time of day in milliseconds since midnight: `HH:MM`, `HH:MM:SS` or `HH:MM:SS.mmm`.
fn time_in(value: &str) -> Result<u32, TaskFault> {
    match value.as_bytes() {
        [a, b, b':', c, d] => time_of([*a, *b], [*c, *d], *b"00", *b"000"),
        [a, b, b':', c, d, b':', e, f] => time_of([*a, *b], [*c, *d], [*e, *f], *b"000"),
        [a, b, b':', c, d, b':', e, f, b'.', g, h, i] => {
            time_of([*a, *b], [*c, *d], [*e, *f], [*g, *h, *i])
        }
        _ => Err(TaskFault::Words),
    }
}

fn time_of(
    hours: [u8; 2],
    minutes: [u8; 2],
    seconds: [u8; 2],
    thousandths: [u8; 3],
) -> Result<u32, TaskFault> {
    let [a, b, c] = thousandths;
    let hours = below(two_digits(hours)?, 24)?;
    let minutes = below(two_digits(minutes)?, 60)?;
    let seconds = below(two_digits(seconds)?, 60)?;
    let front = two_digits([a, b])?;
    let last = digit(c)?;
    Ok(3_600_000 * hours + 60_000 * minutes + 1000 * seconds + 10 * front + last)
}

fn below(number: u32, limit: u32) -> Result<u32, TaskFault>
    ensures { IfOk result (λ n. n < limit) }
{
    if number < limit {
        Ok(number)
    } else {
        Err(TaskFault::Words)
    }
}

fn two_digits(octets: [u8; 2]) -> Result<u32, TaskFault>
    ensures { IfOk result (λ n. n < 100) }
{
    let [high, low] = octets;
    Ok(10 * digit(high)? + digit(low)?)
}

fn digit(octet: u8) -> Result<u32, TaskFault>
    ensures { IfOk result (λ n. n < 10) }
{
    match octet {
        b'0'..=b'9' => Ok(u32::from(octet - b'0')),
        _ => Err(TaskFault::Words),
    }
}
