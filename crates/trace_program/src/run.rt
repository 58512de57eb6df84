// SPDX-License-Identifier: MIT OR Apache-2.0
ghost use Rattle.std.specs.Prelude.{◌≡◌, ◌+◌, ◌<◌, ◌^◌, length};
ghost use Rattle.std.specs.Prelude.{IfErr, IfOk, OnOk, unwrap_or};
ghost use Rattle.std.specs.Io.KnownBytes.{Appends};
ghost use Rattle.dtap_codec.specs.Number.{count_of};
ghost use Rattle.program_io.specs.Status.{status_of};
ghost use Rattle.trace_program.specs.Traced.{counted, no_tally, tally_of};
ghost use Rattle.trace_program.specs.Traced.{trace_text};

use crate::lines::write_event;
use dtap_codec::Modulus;
use program_base::split_first_line;
use program_io::Failure;
use std::alloc::Global;
use std::io::Write;
use world_actors::Network;
use world_model::Event;
use world_trace::{Cause, Tracing};

/// An event that wasn't taken: the number of its line, from 1, and the cause.
#[derive(Clone, Copy)]
pub struct Missed {
    pub line: u64,
    pub cause: Cause,
}

/// The number of events that weren't taken, and the first such event.
#[derive(Clone, Copy)]
pub struct Tally {
    pub not_taken: u64,
    pub first: Option<Missed>,
}

/// Lets these events happen, writes the trace of each event, and answers the tally of the events
/// that weren't taken. `script` holds the events' lines. Flow messages have as many sequence
/// numbers N(SD) as `modulus` says. Fails on allocation failure or if the output fails. After an
/// error, a part may have been written, and the network is unspecified.
pub fn write_trace<W: Write>(
    alloc: Global,
    modulus: Modulus,
    network: &mut Network,
    events: &[Event],
    script: &[u8],
    output: &mut W,
) -> Result<Tally, Failure>
    ensures text { OnOk result (Appends (W.contents output.old) (W.contents output.new)
        (trace_text (count_of modulus) network.old 1 script.now events.now)) }
    ensures tally { IfOk result (λ tally.
        tally ≡ tally_of network.old 1 events.now no_tally) }
    ensures err { IfErr result (λ failure. status_of failure ≡ 3) }
{
    let mut tally = Tally {
        not_taken: 0,
        first: None,
    };
    let mut number = 1;
    let mut rest = script;
    let mut tracing = Tracing::of(alloc, network)?;
    for event in events {
        let (line, others) = split_first_line(rest);
        let trace = tracing.step(network, event)?;
        write_event(alloc, modulus, number, line, &trace, output)?;
        tally = count(trace.refusal, number, tally);
        rest = others;
        number += 1;
    }
    Ok(tally)
}

/// The tally after one more event, which counts if it wasn't taken.
fn count(refusal: Option<Cause>, number: u64, tally: Tally) -> Tally
    requires { tally.not_taken < number }
    ensures { result ≡ counted refusal number tally }
{
    match refusal {
        None => tally,
        Some(cause) => Tally {
            not_taken: tally.not_taken + 1,
            first: Some(first_of(
                tally.first,
                Missed {
                    line: number,
                    cause,
                },
            )),
        },
    }
}

/// The first event that wasn't taken: `first`, or else `next`.
fn first_of(first: Option<Missed>, next: Missed) -> Missed
    ensures { result ≡ unwrap_or first next }
{
    match first {
        Some(first) => first,
        None => next,
    }
}
