// SPDX-License-Identifier: MIT OR Apache-2.0
use crate::relay::{Ended, IDLE, Play, serve};
use crate::texts::{answered, answers, first, released, requested, requests, whole_frames};
use link_workers::IoFault;
use std::alloc::{AllocError, Global};
use std::process::Abort;
use std::sync::Wait;
use std::test::Fail;
use std::thread::Threads;
use std::time::Clock;

/// How many times in a row a gate may refuse an item. No gate refuses that often.
const LIMIT: u32 = 20_000;

/// How many octets a station sends in all.
const ALL: usize = 42;

#[derive(Clone, Copy, Debug)]
enum Device {
    Reader,
    Writer,
}

/// A device that fails.
#[derive(Clone, Copy, Debug)]
struct Failure {
    link: usize,
    device: Device,
    /// The device fails after this many octets.
    place: usize,
}

impl Failure {
    /// The place at which the reader of this link fails; `None` if it doesn't fail.
    fn read_at(&self, link: usize) -> Option<usize> {
        match self.device {
            Device::Reader if self.link == link => Some(self.place),
            _ => None,
        }
    }

    /// The place at which the writer of this link fails; `None` if it doesn't fail.
    fn written_at(&self, link: usize) -> Option<usize> {
        match self.device {
            Device::Writer if self.link == link => Some(self.place),
            _ => None,
        }
    }

    /// How many whole frames the station of this link sends.
    fn frames(&self, link: usize) -> u32 {
        whole_frames(self.read_at(link).unwrap_or(ALL))
    }

    /// Whether a link should end with this fault.
    fn ends(&self, link: usize, fault: Option<IoFault>) -> bool {
        match fault {
            None => self.link != link,
            Some(IoFault::ReadFailed) => self.read_at(link).is_some(),
            Some(IoFault::WriteFailed) => self.written_at(link).is_some(),
            Some(_) => false,
        }
    }

    /// A station's link, whose gate lets `Down` through once the link has got all its octets.
    fn station(&self, link: usize) -> Play {
        let frames = self.frames(link);
        let all = answered(frames).saturating_add(released(frames));
        let read_at = self.read_at(link);
        let mut down_after = [0; 3];
        if let Some(after) = down_after.get_mut(link) {
            *after = all;
        }
        Play {
            octets: first(read_at.unwrap_or(ALL)),
            read_fails: read_at.is_some(),
            room: self.written_at(link).unwrap_or(usize::MAX),
            frames,
            down_after,
            ..IDLE
        }
    }

    /// The second station acts first, then the first station. The link of the switch is down once
    /// the frames of both stations were answered.
    fn plays(&self) -> [Play; 3] {
        let one = self.frames(1);
        let second = self.frames(2);
        let switch = Play {
            read_fails: self.read_at(0).is_some(),
            room: self.written_at(0).unwrap_or(usize::MAX),
            down_after: [
                requested(one).saturating_add(requested(second)),
                answered(one),
                answered(second),
            ],
            ..IDLE
        };
        let station = Play {
            frames_after: [requested(second), 0, answered(second)],
            ..self.station(1)
        };
        [switch, station, self.station(2)]
    }

    /// The octets that the switch gets if its writer works.
    fn requests(&self, alloc: Global) -> Result<Vec<u8>, AllocError> {
        let one = self.frames(1) > 2;
        let second = self.frames(2) > 2;
        // connections are numbered in the order in which mobiles ask for a channel
        let number = if self.frames(2) > 0 { 2 } else { 1 };
        match (second, one) {
            (true, true) => requests(alloc, &[(1, 2), (number, 1)]),
            (true, false) => requests(alloc, &[(1, 2)]),
            (false, true) => requests(alloc, &[(number, 1)]),
            (false, false) => requests(alloc, &[]),
        }
    }

    /// Whether a link ended as it should, and the link's writer got these octets, up to the place
    /// where the writer fails.
    fn is_right<R>(&self, link: usize, ended: &Ended<R>, mut text: Vec<u8>) -> bool {
        if let Some(place) = self.written_at(link) {
            text.truncate(place);
        }
        ended.0.writer.kept.as_slice() == text.as_slice() && self.ends(link, ended.1)
    }
}

/// Whether the links of the switch and of both stations ended as they should when this device
/// fails.
fn are_right<R, A: Abort>(rt: &A, alloc: Global, failure: Failure, ended: &[Ended<R>]) -> bool {
    let requests = failure.requests(alloc).expect(rt, "octets");
    let one = answers(alloc, 1, failure.frames(1)).expect(rt, "octets");
    let second = answers(alloc, 2, failure.frames(2)).expect(rt, "octets");
    match ended {
        [a, b, c] => {
            failure.is_right(0, a, requests)
                && failure.is_right(1, b, one)
                && failure.is_right(2, c, second)
        }
        _ => false,
    }
}

/// Whether all links end as they should when this device fails.
fn all_right<R>(rt: R, alloc: Global, failure: Failure) -> Result<bool, Fail>
where
    R: Abort + Clock + Threads + Wait + Copy + Drop + Send + 'static,
{
    let ended = serve(rt, alloc, &failure.plays(), LIMIT, failure)?;
    Ok(are_right(&rt, alloc, failure, ended.as_slice()))
}

/// The first of this many places at which a failure of the device harms other links; `None` if the
/// device harms no other link.
fn first_harm<R>(
    rt: R,
    alloc: Global,
    link: usize,
    device: Device,
    places: usize,
) -> Result<Option<usize>, Fail>
where
    R: Abort + Clock + Threads + Wait + Copy + Drop + Send + 'static,
{
    for place in 0..places {
        let failure = Failure {
            link,
            device,
            place,
        };
        if !all_right(rt, alloc, failure)? {
            return Ok(Some(place));
        }
    }
    Ok(None)
}

#[test]
fn the_others_relay_on_wherever_a_device_fails(rt: HostRuntime) -> Result<(), Fail> {
    let devices = [
        (0, Device::Reader, 1),
        (1, Device::Reader, 43),
        (2, Device::Reader, 43),
        (0, Device::Writer, 68),
        (1, Device::Writer, 73),
        (2, Device::Writer, 73),
    ];
    for (link, device, places) in devices {
        let harm = first_harm(rt, rt.alloc(), link, device, places)?;
        assert!(rt; harm.is_none(), "link {link}, place {harm:?}");
    }
    Ok(())
}
