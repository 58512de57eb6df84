// SPDX-License-Identifier: MIT OR Apache-2.0
use crate::endings::Endings;
use crate::fault::RunFault;
use crate::line::log_line;
use crate::open::{OpenedLinks, SocketLink, open_links};
use crate::other_links::OtherLinks;
use crate::refusing::Doorkeeper;
use crate::stopwatch::Stopwatch;
use crate::watch::Watch;
use crate::watching::WatchingClock;
use controller::Controller;
use link_workers::IoFault;
use log::{Level, Log};
use settings::Settings;
use station_io::serve_links;
use std::alloc::Global;
use std::net::{Net, TcpListener, TcpStream};
use std::sync::Wait;
use std::thread::Threads;
use std::time::Clock;
use step_recorder::Recorder;

/// How often a gate may refuse an item. The gates here refuse no item.
const REFUSALS: u32 = 1;

/// Opens the links of these settings, and relays between these links until all links have ended.
/// Logs how each link ended. `Device`: a link couldn't be opened, or a listener couldn't be cloned.
/// `Memory`: an allocation failed, or a thread couldn't be started.
pub fn run_links<R>(rt: R, alloc: Global, settings: Settings) -> Result<(), RunFault>
where
    R: Net<Listener = TcpListener, Stream = TcpStream>
        + Clock
        + Log
        + Threads
        + Wait
        + Copy
        + Send
        + 'static,
{
    open_and_relay(rt, alloc, settings, None)
}

/// As `run_links`, and if there is a recorder each step of the controller is recorded.
pub(crate) fn open_and_relay<R>(
    rt: R,
    alloc: Global,
    settings: Settings,
    recorder: Option<Recorder<R>>,
) -> Result<(), RunFault>
where
    R: Net<Listener = TcpListener, Stream = TcpStream>
        + Clock
        + Log
        + Threads
        + Wait
        + Copy
        + Send
        + 'static,
{
    let opened = open_links(&rt, alloc, &settings)?;
    let controller = Controller::new(alloc, settings)?;
    relay_recorded(rt, alloc, opened, controller, recorder)
}

/// Relays between these links until all links have ended. Logs how each link ended. `controller`
/// must be made from the settings by which the links were opened. `Device`: a listener couldn't be
/// cloned. `Memory`: an allocation failed, or a thread couldn't be started.
pub fn relay_links<R>(
    rt: R,
    alloc: Global,
    opened: OpenedLinks<R>,
    controller: Controller,
) -> Result<(), RunFault>
where
    R: Clock + Log + Threads + Wait + Copy + Drop + Send + 'static,
{
    relay_recorded(rt, alloc, opened, controller, None)
}

/// As `relay_links`, and if there is a recorder each step of the controller is recorded.
fn relay_recorded<R>(
    rt: R,
    alloc: Global,
    opened: OpenedLinks<R>,
    controller: Controller,
    recorder: Option<Recorder<R>>,
) -> Result<(), RunFault>
where
    R: Clock + Log + Threads + Wait + Copy + Drop + Send + 'static,
{
    let OpenedLinks {
        links,
        listeners,
        endings,
        others,
    } = opened;
    let (count, ignored) = (links.len(), controller.ignored());
    let (mut clock, doorkeeper) = attended(rt, alloc, count, ignored, others, listeners, endings)?;
    clock.recorder = recorder;
    let served = serve_links(rt, alloc, controller, links, clock, REFUSALS);
    doorkeeper.end(&rt);
    match served {
        Ok(ended) => {
            tell(&rt, &ended);
            Ok(())
        }
        Err(_) => Err(RunFault::Memory),
    }
}

/// Starts the doorkeeper, and makes the clock that watches the relay. The relay has `count` links,
/// and its controller has ignored `ignored` items so far.
fn attended<R>(
    rt: R,
    alloc: Global,
    count: usize,
    ignored: u64,
    others: OtherLinks,
    listeners: Vec<TcpListener>,
    endings: Endings,
) -> Result<(WatchingClock<R>, Doorkeeper), RunFault>
where
    R: Clock + Log + Threads + Copy + Drop + Send + 'static,
{
    let watch = Watch::new(rt, alloc, count, others, ignored)?;
    let stopwatch = Stopwatch::new(rt);
    let doorkeeper = Doorkeeper::start(rt, alloc, listeners, endings)?;
    let clock = WatchingClock {
        stopwatch,
        watch,
        recorder: None,
    };
    Ok((clock, doorkeeper))
}

/// Logs how each link ended.
fn tell<R: Log>(rt: &R, ended: &[(SocketLink<R>, Option<IoFault>)]) {
    for (link, fault) in ended {
        let name = link.reader.name();
        match fault {
            None => log_line(rt, Level::Info, format_args!("{name}: ended")),
            Some(fault) => log_line(rt, Level::Warn, format_args!("{name}: ended: {fault}")),
        }
    }
}
