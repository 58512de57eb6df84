// SPDX-License-Identifier: MIT OR Apache-2.0
use crate::relay::{Ended, IDLE, Play, serve};
use crate::texts::{answers, first, requests};
use link_workers::IoFault;
use std::alloc::{AllocError, Global};
use std::test::Fail;

/// How many times in a row a gate may refuse an item. The gate sleeps a millisecond each time.
const LIMIT: u32 = 3_000;

/// The second station sends three frames. The first station sends its three frames once the switch
/// has got one connection request. The link of the switch is down once the switch has got two
/// requests.
fn plays() -> [Play; 3] {
    let switch = Play {
        down_after: [68, 0, 0],
        ..IDLE
    };
    let second = Play {
        octets: first(38),
        frames: 3,
        ..IDLE
    };
    let one = Play {
        frames_after: [34, 0, 0],
        ..second
    };
    [switch, one, second]
}

/// The octets that each link gets. A station gets the last part only if the link of the switch is
/// down before the station's own link.
fn texts(alloc: Global) -> Result<[Vec<u8>; 3], AllocError> {
    let switch = requests(alloc, &[(1, 2), (2, 1)])?;
    let one = answers(alloc, 1, 3)?;
    let second = answers(alloc, 2, 3)?;
    Ok([switch, one, second])
}

/// Judges how the links ended. `Ok` if each link got all its octets and had no fault. `Err` says
/// what is wrong. If a link ran out of memory or a gate remained shut, each link must have got a
/// prefix of its octets.
fn judge<R>(ended: &[Ended<R>], texts: &[Vec<u8>; 3]) -> Result<(), Fail> {
    let mut wanting = false;
    let mut shut = false;
    let mut octets = [0; 3];
    for ((link, fault), (text, octets)) in ended.iter().zip(texts.iter().zip(octets.iter_mut())) {
        let kept = link.writer.kept.as_slice();
        if !text.as_slice().starts_with(kept) {
            return Err(Fail::new("other octets"));
        }
        *octets = kept.len();
        match fault {
            None => {}
            Some(IoFault::Memory) => wanting = true,
            Some(IoFault::GateShut) => shut = true,
            Some(_) => return Err(Fail::new("another fault")),
        }
    }
    match octets {
        _ if wanting => Err(Fail::new("a link wanted memory")),
        _ if shut => Err(Fail::new("a gate stayed shut")),
        [68, 47 | 69, 47 | 69] => Ok(()),
        _ => Err(Fail::new("too few octets")),
    }
}

/// The stations reach the switch in the order of the gates, and no device failed.
#[test]
fn refuses_workers_in_turn_and_faults_without_failure(rt: HostRuntime) -> Result<(), Fail> {
    let alloc = rt.alloc();
    let texts = texts(alloc)?;
    let ended = serve(rt, alloc, &plays(), LIMIT, "two stations")?;
    judge(ended.as_slice(), &texts)
}
