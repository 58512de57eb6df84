// SPDX-License-Identifier: MIT OR Apache-2.0
use crate::fault::RunFault;
use crate::line::log_line;
use crate::recording::{RecordWish, recording, run_recorded};
use crate::runtime::RelayRuntime;
use crate::settings_or_status::{settings_or_status, warn_of};
use crate::style::{Style, StyledLines};
use log::{Level, LevelFilter, Log, Logged};
use program_base::ProgramFault;
use program_io::Failure;
use std::env::{self, VarError};
use std::net::{Net, TcpListener, TcpStream};
use std::rt::Runtime;
use std::sync::Wait;
use std::thread::Threads;

/// The version of the program.
pub const VERSION: &str = "0.1.0";

/// The environment variable that sets the level of the log.
const LEVEL: &str = "BSC_LOG";

/// The environment variable that sets how a line of the log begins.
const STYLE: &str = "BSC_LOG_STYLE";

/// The value of an environment variable isn't known.
#[derive(Clone, Copy)]
struct Unknown;

/// Relays between the links of the settings in this file until all links have ended, and returns
/// the exit status of the program. Records each step of the controller if `wish` is `Some`. If the
/// settings can't be read, prints why and returns the status for that. `Err` if a device fails, the
/// record can't be begun, or memory runs out once the settings are read.
pub fn relay<R>(rt: &R, file: &str, wish: Option<RecordWish>) -> Result<u8, ProgramFault>
where
    R: Runtime
        + AllocGlobal
        + Net<Listener = TcpListener, Stream = TcpStream>
        + Threads
        + Wait
        + Copy
        + Send
        + 'static,
{
    let (settings, text) = match settings_or_status(rt, file) {
        Ok(read) => read,
        Err(status) => return Ok(status),
    };
    let logged = logged(rt);
    let cells = settings.cells().len();
    log_line(
        &logged,
        Level::Info,
        format_args!("bsc {VERSION}: settings {file}, {cells} cells"),
    );
    warn_of(&logged, &settings);
    let runtime = RelayRuntime::new(*rt, logged);
    let recording = match wish {
        Some(wish) => match recording(rt, runtime, wish, text) {
            Ok(recording) => Some(recording),
            Err(fault) => return Err(fault),
        },
        None => None,
    };
    match run_recorded(runtime, rt.alloc(), settings, recording) {
        Ok(()) => Ok(0),
        Err(RunFault::Memory) => Err(ProgramFault::Failed(Failure::Memory)),
        Err(RunFault::Device) => Err(ProgramFault::Failed(Failure::Device)),
    }
}

/// The log, with the level and the style that the environment sets, by default `info` and `plain`.
/// Warns of unknown values.
fn logged<R: Runtime + AllocGlobal + Copy>(rt: &R) -> Logged<R, StyledLines<R>> {
    let level = level(rt);
    let style = style(rt);
    let lines = StyledLines {
        rt: *rt,
        style: *style.as_ref().unwrap_or(&Style::Plain),
    };
    let logged = Logged::new(*rt, *level.as_ref().unwrap_or(&LevelFilter::Info), lines);
    if level.is_err() {
        tell_values(&logged, LEVEL, "error, warn, info and off", "info");
    }
    if style.is_err() {
        tell_values(&logged, STYLE, "plain, journal and time", "plain");
    }
    logged
}

/// Warns that a variable has an unknown value, and that `taken` is used instead.
fn tell_values<R: Log>(rt: &R, variable: &str, values: &str, taken: &str) {
    log_line(
        rt,
        Level::Warn,
        format_args!("{variable}: its values are {values}; {taken} is taken"),
    );
}

/// The level that the environment sets; `info` if the environment sets no level. `Err` if the value
/// isn't known.
fn level<R: Runtime + AllocGlobal>(rt: &R) -> Result<LevelFilter, Unknown> {
    match env::var(rt, LEVEL) {
        Ok(text) => text.parse().map_err(|_| Unknown),
        Err(VarError::NotUnicode) => Err(Unknown),
        Err(_) => Ok(LevelFilter::Info),
    }
}

/// The style that the environment sets; `plain` if the environment sets no style. `Err` if the
/// value isn't known.
fn style<R: Runtime + AllocGlobal>(rt: &R) -> Result<Style, Unknown> {
    match env::var(rt, STYLE) {
        Ok(text) => Style::of_name(text.as_str()).ok_or(Unknown),
        Err(VarError::NotUnicode) => Err(Unknown),
        Err(_) => Ok(Style::Plain),
    }
}
