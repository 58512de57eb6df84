// SPDX-License-Identifier: MIT OR Apache-2.0
use crate::deadline::Deadline;
use crate::devices::{Got, Held, Sink, Source, Still};
use controller::Controller;
use settings::Settings;
use station_io::{IoFault, Link, serve_links};
use std::alloc::{AllocError, Global};
use std::fmt::Debug;
use std::process::Abort;
use std::sync::atomic::AtomicU64;
use std::sync::{Arc, Wait};
use std::test::Fail;
use std::thread::Threads;
use std::time::Clock;

const TWO_CELLS: &str =
    "[network]\nmcc = \"001\"\nmnc = \"01\"\n[switch]\naddress = \"127.0.0.1:5000\"\n\
[[cell]]\nlisten = \"127.0.0.1:3003\"\nlac = 1\nci = 1\narfcn = 20\nbsic = 9\n\
channels = [0x41, 0x49, 0x0a]\n\
[[cell]]\nlisten = \"127.0.0.1:3004\"\nlac = 1\nci = 2\narfcn = 30\nbsic = 18\n\
channels = [0x41, 0x0a]\n";

/// What a link's devices and its gate do.
#[derive(Clone, Copy)]
pub(crate) struct Play {
    /// The octets that the link's reader gives. Then the reader fails, or is at its end.
    pub octets: &'static [u8],
    pub read_fails: bool,
    /// How many octets the link's writer takes.
    pub room: usize,
    /// How many frames the reader gives; how many octets the writers of the links must have got
    /// before the gate lets these frames through; and how many before the gate lets the `Down`
    /// after them through.
    pub frames: u32,
    pub frames_after: [u64; 3],
    pub down_after: [u64; 3],
}

/// A link from which nothing arrives, whose writer takes all octets, and whose gate is open.
pub(crate) const IDLE: Play = Play {
    octets: &[],
    read_fails: false,
    room: usize::MAX,
    frames: 0,
    frames_after: [0; 3],
    down_after: [0; 3],
};

type Played<R> = Link<Source, Sink, Held<R>>;

/// A link that has ended, and its fault.
pub(crate) type Ended<R> = (Played<R>, Option<IoFault>);

fn link_of<R: Drop>(
    rt: R,
    alloc: Global,
    got: &Got,
    link: usize,
    play: &Play,
) -> Result<Played<R>, AllocError> {
    let kept = Vec::with_capacity(alloc, 80)?;
    let counted = Arc::try_clone(got)?;
    let told = Arc::try_clone(got)?;
    let reader = Source {
        octets: play.octets,
        fails: play.read_fails,
        told: None,
    };
    let writer = Sink {
        kept,
        room: play.room,
        link,
        got: counted,
    };
    let gate = Held {
        rt,
        got: told,
        frames: play.frames,
        frames_after: play.frames_after,
        down_after: play.down_after,
        refused: 0,
    };
    Ok(Link {
        reader,
        writer,
        gate,
    })
}

fn links_of<R: Copy + Drop>(
    rt: R,
    alloc: Global,
    plays: &[Play; 3],
) -> Result<Vec<Played<R>>, AllocError> {
    let counters = [AtomicU64::new(0), AtomicU64::new(0), AtomicU64::new(0)];
    let got = Arc::new(alloc, counters)?;
    let mut links = Vec::with_capacity(alloc, 3)?;
    for (link, play) in plays.iter().enumerate() {
        links.push(link_of(rt, alloc, &got, link, play)?)?;
    }
    Ok(links)
}

/// Settings of two cells.
pub(crate) fn settings(alloc: Global) -> Result<Settings, Fail> {
    Ok(Settings::read(alloc, TWO_CELLS)?)
}

/// Serves the links of the switch and of two stations with these plays. If the links don't end in
/// time, the test fails and names the case.
pub(crate) fn serve<R, C>(
    rt: R,
    alloc: Global,
    plays: &[Play; 3],
    limit: u32,
    case: C,
) -> Result<Vec<Ended<R>>, Fail>
where
    R: Abort + Clock + Threads + Wait + Copy + Drop + Send + 'static,
    C: Debug + Drop + Send + 'static,
{
    let links = links_of(rt, alloc, plays)?;
    let controller = Controller::new(alloc, settings(alloc)?)?;
    let deadline = Deadline::new(rt, alloc, case)?;
    let served = serve_links(rt, alloc, controller, links, Still, limit);
    deadline.meet(&rt);
    match served {
        Ok(ended) => Ok(ended),
        Err(IoFault::Memory) => Err(Fail::new("the relay wanted memory")),
        Err(_) => Err(Fail::new("another fault of the relay")),
    }
}
