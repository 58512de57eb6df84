// SPDX-License-Identifier: MIT OR Apache-2.0
//! Jobs that users of `bsc` wait for, over inputs drawn from a seed; the same seed gives the same
//! inputs. `workloads JOB SEED` does one job and prints the digest of all its results. Without
//! words, it does a little of each job. bench/workloads.txt lists the jobs.
#![tactic(auto)]

use jobs::{Job, Size, done, job_of};
use std::env;
use std::process::ExitCode;
use std::rt::Runtime;
use std::sync::Wait;
use workload_inputs::Stop;

mod jobs;

/// The names of the jobs.
const NAMES: [&str; 7] = [
    "relay", "calls", "replay", "breaks", "trace", "decode", "judge",
];

fn main(rt: HostRuntime) -> ExitCode {
    let status = match asked(&rt) {
        Ok(Some((job, seed))) => printed(&rt, job, seed),
        Ok(None) => sampled(&rt),
        Err(stop) => report_stop(&rt, stop, 2),
    };
    ExitCode::from(status)
}

/// The job and the seed that the words name, or `None` if there are no words. `Err` if the words
/// don't name a job and a seed.
fn asked<R: Runtime>(rt: &R) -> Result<Option<(Job, u32)>, Stop> {
    let Ok(mut words) = env::args(rt) else {
        return Err(Stop::Words);
    };
    let _ = words.next();
    let Some(name) = words.next() else {
        return Ok(None);
    };
    let (Some(job), Some(seed)) = (job_of(name.as_str()), words.next()) else {
        return Err(Stop::Words);
    };
    match seed.parse::<u32>() {
        Ok(seed) => Ok(Some((job, seed))),
        Err(_) => Err(Stop::Words),
    }
}

/// Does a little of each job, and prints the name of each job that is done. Returns the exit
/// status: 0 if each event of the scripts was taken, no message was lost, and no input was refused.
fn sampled<R: Runtime + AllocGlobal + Wait>(rt: &R) -> u8 {
    for name in NAMES {
        let Some(job) = job_of(name) else {
            return 2;
        };
        if let Err(stop) = done(rt, rt.alloc(), job, 1, Size::Small) {
            return report_stop(rt, stop, 3);
        }
        if println!(rt; "{name} done").is_err() {
            return 3;
        }
    }
    0
}

/// Does a job, prints the digest of its results, and returns the exit status.
fn printed<R: Runtime + AllocGlobal + Wait>(rt: &R, job: Job, seed: u32) -> u8 {
    match done(rt, rt.alloc(), job, seed, Size::Whole) {
        Ok(digest) => match println!(rt; "{digest:016x}") {
            Ok(()) => 0,
            Err(_) => 3,
        },
        Err(stop) => report_stop(rt, stop, 3),
    }
}

/// Prints why a job isn't done, and returns the exit status `status`.
fn report_stop<R: Runtime>(rt: &R, stop: Stop, status: u8) -> u8 {
    let _ = eprintln!(rt; "workloads: {stop}");
    status
}
