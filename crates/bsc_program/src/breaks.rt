// SPDX-License-Identifier: MIT OR Apache-2.0
ghost use Rattle.std.specs.Prelude.{◌≡◌, ◌+◌, ◌<◌, [], IfErr, IfOk, OnOk, length, unwrap_or};
ghost use Rattle.std.specs.Io.KnownBytes.{Appends};
ghost use Rattle.world.specs.Views.{sent_list};
ghost use Rattle.world.specs.World.{controlled_world};
ghost use Rattle.program_base.specs.SettingsText.{settings_of};
ghost use Rattle.bsc_program.specs.Breaks.{accepted_by_all, break_lines};
ghost use Rattle.bsc_program.specs.Breaks.{sent_by_all};
ghost use Rattle.bsc_program.specs.BreakCounts.{broken_counts, counted_line, counts_of};
ghost use Rattle.bsc_program.specs.BreakCounts.{excess_at, first_excess, first_of};
ghost use Rattle.bsc_program.specs.BreakCounts.{unbroken_world};
ghost use Rattle.program_io.specs.Status.{status_of};

use program_base::read_settings;
use program_io::Failure;
use settings::Settings;
use std::alloc::Global;
use std::io::Write;
use world::{Event, World};

/// The number of flow messages that the switch accepted on all connections of a world, and the
/// number of flow messages that all mobiles sent.
#[derive(Clone, Copy)]
struct Counts {
    accepted: u128,
    sent: u128,
}

/// Writes a line for each place among the events: the counts at the end of a run in which the link
/// of `source` breaks at that place. The world is that of the settings in `text`. Answers the first
/// place whose counts have more accepted than sent messages, or `None` if there is no such place.
/// Fails on allocation failure or if the output fails; a part of the lines may then have been
/// written.
pub(crate) fn write_breaks<W: Write>(
    alloc: Global,
    text: &str,
    events: &[Event],
    source: u16,
    output: &mut W,
) -> Result<Option<usize>, Failure>
    ensures ok { OnOk result (IfOk (settings_of text.now) (λ settings.
        Appends (W.contents output.old) (W.contents output.new)
        (break_lines (controlled_world settings) events.now source))) }
    ensures excess { IfOk result (λ excess. IfOk (settings_of text.now) (λ settings.
        excess ≡ first_excess (controlled_world settings) events.now source)) }
    ensures err { IfErr result (λ failure. status_of failure ≡ 3) }
{
    // the caller has read these settings, so reading them again can fail only by allocation
    let Ok(settings) = read_settings(alloc, text) else {
        return Err(Failure::Memory);
    };
    write_places(alloc, &settings, events, source, output)
}

/// Creates a world in which no link breaks, and writes the lines of all places with its help.
fn write_places<W: Write>(
    alloc: Global,
    settings: &Settings,
    events: &[Event],
    source: u16,
    output: &mut W,
) -> Result<Option<usize>, Failure>
    ensures ok { OnOk result (Appends (W.contents output.old) (W.contents output.new)
        (break_lines (controlled_world settings.now) events.now source)) }
    ensures excess { IfOk result (λ excess.
        excess ≡ first_excess (controlled_world settings.now) events.now source) }
    ensures err { IfErr result (λ failure. status_of failure ≡ 3) }
{
    let mut unbroken = World::new(alloc, settings.copy(alloc)?)?;
    write_followed(alloc, settings, events, source, &mut unbroken, output)
}

/// Writes the lines of all places. `unbroken` is a world in which no link breaks; for each place,
/// the events before that place have happened in `unbroken`. Assumes: at the call, no event has
/// happened in `unbroken`.
fn write_followed<W: Write>(
    alloc: Global,
    settings: &Settings,
    events: &[Event],
    source: u16,
    unbroken: &mut World,
    output: &mut W,
) -> Result<Option<usize>, Failure>
    requires begins { unbroken.old ≡ controlled_world settings.now }
    ensures ok { OnOk result (Appends (W.contents output.old) (W.contents output.new)
        (break_lines (controlled_world settings.now) events.now source)) }
    ensures excess { IfOk result (λ excess.
        excess ≡ first_excess (controlled_world settings.now) events.now source) }
    ensures err { IfErr result (λ failure. status_of failure ≡ 3) }
{
    let mut counts = counts_at(alloc, settings, events, source, 0)?;
    write_break(counts, 0, output)?;
    let mut excess = excess_behind(None, counts, 0);
    for place in 0..events.len() {
        counts = counts_behind(alloc, settings, events, source, place, unbroken, counts)?;
        write_break(counts, place + 1, output)?;
        excess = excess_behind(excess, counts, place + 1);
    }
    Ok(excess)
}

/// The first place with more accepted than sent messages: `found` if it is `Some`, or else `place`
/// if `counts` has more accepted than sent messages.
fn excess_behind(found: Option<usize>, counts: Counts, place: usize) -> Option<usize>
    ensures { result ≡ first_of found (excess_at place counts) }
{
    match found {
        Some(first) => Some(first),
        None if counts.accepted > counts.sent => Some(place),
        None => None,
    }
}

/// The counts for a break after the event at `place`. `counts` are the counts for a break before
/// that event. If the break and the event can change places, the result is `counts`; else the world
/// runs anew. The event also happens in `unbroken`.
fn counts_behind(
    alloc: Global,
    settings: &Settings,
    events: &[Event],
    source: u16,
    place: usize,
    unbroken: &mut World,
    counts: Counts,
) -> Result<Counts, Failure>
    requires below { place < length events.now }
    requires follows { unbroken.old
        ≡ unbroken_world (controlled_world settings.now) events.now place }
    requires counted { counts
        ≡ broken_counts (controlled_world settings.now) events.now source place }
    ensures follows { OnOk result (unbroken.new
        ≡ unbroken_world (controlled_world settings.now) events.now (place + 1)) }
    ensures counted { IfOk result (λ counts. counts
        ≡ broken_counts (controlled_world settings.now) events.now source (place + 1)) }
    ensures err { IfErr result (λ failure. status_of failure ≡ 3) }
{
    if unbroken.pass(&events[place], source)? {
        Ok(counts)
    } else {
        counts_at(alloc, settings, events, source, place + 1)
    }
}

/// The counts in the world of these settings after all events, if the link of `source` breaks at
/// `place`.
fn counts_at(
    alloc: Global,
    settings: &Settings,
    events: &[Event],
    source: u16,
    place: usize,
) -> Result<Counts, Failure>
    ensures ok { IfOk result (λ counts. counts
        ≡ broken_counts (controlled_world settings.now) events.now source place) }
    ensures err { IfErr result (λ failure. status_of failure ≡ 3) }
{
    let world = World::with_break(alloc, settings.copy(alloc)?, events, place, source)?;
    Ok(counts_in(&world))
}

fn counts_in(world: &World) -> Counts
    ensures { result ≡ counts_of world.now.scene }
{
    Counts {
        accepted: accepted_by_all(world),
        sent: sent_by_all(world),
    }
}

/// Writes the line for a break at `place`, with the counts. Flushes the output, so that the line
/// appears before the next line is computed.
fn write_break<W: Write>(counts: Counts, place: usize, output: &mut W) -> Result<(), Failure>
    ensures ok { OnOk result (Appends (W.contents output.old) (W.contents output.new)
        (counted_line place counts)) }
    ensures err { IfErr result (λ failure. status_of failure ≡ 3) }
{
    let Counts { accepted, sent } = counts;
    writeln!(output, "break {place} accepted {accepted} sent {sent}")?;
    output.flush()?;
    Ok(())
}

/// The number of flow messages that the switch accepted on all connections.
fn accepted_by_all(world: &World) -> u128
    ensures { result ≡ accepted_by_all world.now.scene }
{
    let mut count = 0;
    for connection in 1..=u32::MAX {
        let Some(accepted) = world.accepted(connection) else {
            break;
        };
        count += accepted.len() as u128;
    }
    count
}

/// The number of flow messages that the upper layers of all mobiles sent.
fn sent_by_all(world: &World) -> u128
    ensures { result ≡ sent_by_all world.now.scene }
{
    let mut count = 0;
    for mobile in 1..=u8::MAX {
        count += sent_by(world, mobile) as u128;
    }
    count
}

/// The number of flow messages that the upper layers of a mobile sent; 0 if there is no mobile with
/// this number.
fn sent_by(world: &World, mobile: u8) -> usize
    ensures { result ≡ length (unwrap_or (sent_list world.now.scene mobile) []) }
{
    match world.sent(mobile) {
        Some(sent) => sent.len(),
        None => 0,
    }
}
