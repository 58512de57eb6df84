// SPDX-License-Identifier: MIT OR Apache-2.0
// A relay whose steps are recorded.

use crate::fault::RunFault;
use crate::line::log_line;
use crate::run::open_and_relay;
use jiff::Timestamp;
use log::{Level, Log};
use program_base::ProgramFault;
use program_io::Failure;
use settings::Settings;
use std::alloc::{AllocError, Global};
use std::net::{Net, TcpListener, TcpStream};
use std::rt::Runtime;
use std::sync::Wait;
use std::thread::Threads;
use std::time::Clock;
use step_recorder::{RecordFault, RecordKeeper, RecordPlan, Recorder, start};

/// The number of octets in a MiB.
const MIB: u64 = 1 << 20;

/// A wish for a record of the run.
#[derive(Drop)]
pub struct RecordWish {
    /// The runtime that makes and writes its files.
    pub files: HostRuntime,
    /// The folder of its files.
    pub folder: String,
    /// The size in MiB at which a file ends and the next one begins.
    pub size: u32,
    /// The program and its version, as the files' heads have them.
    pub version: String,
}

/// A record that was begun: its recorder, and the thread that writes its files.
pub(crate) type Recording<R> = (Recorder<R>, RecordKeeper);

/// Begins the record that is wished for, with the text of the settings in its head. Prints why if
/// it can't be begun.
pub(crate) fn recording<R, L>(
    rt: &R,
    logged: L,
    wish: RecordWish,
    settings: String,
) -> Result<Recording<L>, ProgramFault>
where
    R: Runtime + AllocGlobal,
    L: Clock + Log + Threads + Wait + Copy + Drop + Send + 'static,
{
    let RecordWish {
        files,
        folder,
        size,
        version,
    } = wish;
    let Ok(now) = Timestamp::now(rt) else {
        return Err(ProgramFault::Failed(Failure::Device));
    };
    let Ok(stem) = stem_of(rt.alloc(), folder.as_str(), now) else {
        return Err(ProgramFault::Failed(Failure::Memory));
    };
    let Ok(name) = format!(in rt.alloc(); "{stem}-1.pcap") else {
        return Err(ProgramFault::Failed(Failure::Memory));
    };
    let plan = RecordPlan {
        stem,
        size: u64::from(size) * MIB,
        version,
        settings,
    };
    match start(logged, files, rt.alloc(), plan) {
        Ok(recording) => {
            log_line(&logged, Level::Info, format_args!("record: {name}"));
            Ok(recording)
        }
        Err(RecordFault::Memory) => Err(ProgramFault::Failed(Failure::Memory)),
        Err(RecordFault::File(error)) => {
            let _ = eprintln!(rt; "bsc: record: {name}: {error}");
            Err(ProgramFault::Failed(Failure::Device))
        }
    }
}

/// The beginning of the names of a record's files: the folder, and the time in UTC.
fn stem_of(alloc: Global, folder: &str, now: Timestamp) -> Result<String, AllocError> {
    let time = format!(in alloc; "{now:.0}")?;
    let mut stem = format!(in alloc; "{folder}/")?;
    for letter in time.chars() {
        if letter != '-' && letter != ':' {
            stem.push(letter)?;
        }
    }
    Ok(stem)
}

/// As `run_links`, with a record if one was begun; its files are written when this returns.
pub(crate) fn run_recorded<R>(
    rt: R,
    alloc: Global,
    settings: Settings,
    recording: Option<Recording<R>>,
) -> Result<(), RunFault>
where
    R: Net<Listener = TcpListener, Stream = TcpStream>
        + Clock
        + Log
        + Threads
        + Wait
        + Copy
        + Drop
        + Send
        + 'static,
{
    let Some((recorder, keeper)) = recording else {
        return open_and_relay(rt, alloc, settings, None);
    };
    let ended = open_and_relay(rt, alloc, settings, Some(recorder));
    keeper.end(&rt);
    ended
}
