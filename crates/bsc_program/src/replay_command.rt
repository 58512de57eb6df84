// SPDX-License-Identifier: MIT OR Apache-2.0
ghost use Rattle.std.specs.Prelude.{◌≡◌, ◌⊎◌, ℕ, List, Option, Some, None, Err};
ghost use Rattle.std.specs.Prelude.{IfErr, IfOk, IsErrAnd};
ghost use Rattle.std.specs.Prelude.{IsOkAnd, MatchResult, OnOk, length};
ghost use Rattle.std.specs.Io.KnownBytes.{Appends, IsAtEnd};
ghost use Rattle.world.specs.World.{after_all};
ghost use Rattle.program_base.specs.Words.{source_in};
ghost use Rattle.bsc_program.specs.Asked.{asked_for, asked_of_text, breaking, controlled, fixed};
ghost use Rattle.bsc_program.specs.Replayed.{Fails, HasBadLine, Replays, UnwrittenOnErr};
ghost use Rattle.bsc_program.specs.Replayed.{status_of_excess};
ghost use Rattle.bsc_program.specs.Report.{IsReport};
ghost use Rattle.program_base.specs.WholeScript.{HasBadLineAt};
ghost use Rattle.program_base.specs.SettingsText.{settings_of};
ghost use Rattle.program_base.specs.FaultStatus.{status_of_fault};
ghost use Rattle.program_io.specs.Status.{status_of};
ghost use Rattle.program_io.specs.declared.failure.Failure.TheVariants.{BadEvent};
ghost use Rattle.program_base.specs.declared.fault.ProgramFault.TheVariants.{BadBreak};

use crate::breaks::write_breaks;
use crate::report::write_report;
use dtap_codec::Modulus;
use program_base::{ProgramFault, read_script, read_settings, read_source};
use program_io::Failure;
use settings::Settings;
use std::alloc::Global;
use std::io::{Read, Write};
use world::{Event, World};

/// The number of cells in the fixed world, for which a script's lines are read.
const FIXED_CELLS: u16 = 1;

/// The status if a break at some place makes the switch accept more messages than were sent.
const MORE_ACCEPTED: u8 = 4;

/// Replays the script on `input` in the world of these settings, or else in the fixed world, and
/// writes the report to `output`. With `breaks`, the number of a source, writes a line for each
/// place of the script instead: the counts if the source's link breaks at that place. Answers the
/// status that the program ends with. The status is 0 on success, and 1 for a fault of the
/// settings. It is 2 if `breaks` isn't the number of a source or is given without settings, or if
/// the script has a bad line. It is 3 on allocation failure or if a device failed. It is 4 if, for
/// a break at some place, more messages were accepted than sent. The causes are checked in this
/// order. The whole script is read before any event is run. The text of a status above 0 is written
/// to `errors`.
pub fn replay<R: Read, W: Write, E: Write>(
    alloc: Global,
    settings: Option<&str>,
    breaks: Option<&str>,
    input: &mut R,
    output: &mut W,
    errors: &mut E,
) -> u8
    ensures status { (result ≡ 0) ⊎ (result ≡ 1) ⊎ (result ≡ 2) ⊎ (result ≡ 3)
        ⊎ (result ≡ 4) }
    // Faulty options give the status of their first fault, or 3 on allocation failure.
    ensures asked { IfErr (asked_for settings.entry breaks.entry)
        (λ fault. (result ≡ status_of_fault fault) ⊎ (result ≡ 3)) }
    // Status 1 only if the settings have a fault.
    ensures settings { result ≡ 1 → IsErrAnd (asked_for settings.entry breaks.entry)
        (λ fault. status_of_fault fault ≡ 1) }
    // With status 0 or 4 the whole script was read, if its octets are known.
    ensures read { (result ≡ 0) ⊎ (result ≡ 4) → IsAtEnd (R.remaining input.new) }
    // With status 0 or 4 the output grew by the report of the world after the script's events, or
    // by the lines of all breaks, if the contents of input and output are known. The status is 4
    // exactly if, for a break at some place, more messages were accepted than sent.
    ensures printed { (result ≡ 0) ⊎ (result ≡ 4)
        → IsOkAnd (asked_for settings.entry breaks.entry)
        (λ asked. (excess : Option ℕ) × (result ≡ status_of_excess excess)
        × Replays asked excess (R.remaining input.old)
        (W.contents output.old) (W.contents output.new)) }
    // Status 2 only if `breaks` names no source or comes without settings, or if a line of the
    // script is bad.
    ensures bad { result ≡ 2 → MatchResult (asked_for settings.entry breaks.entry)
        (λ asked. HasBadLine asked (R.remaining input.old)) (λ fault. fault ≡ BadBreak) }
    // With status 1 or 2 nothing is written to the output.
    ensures kept { (result ≡ 1) ⊎ (result ≡ 2) → output.new ≡ output.old }
{
    match try_replay(alloc, settings, breaks, input, output) {
        Ok(excess) => ended(excess, errors),
        Err(fault) => {
            let _ = writeln!(errors, "bsc: {fault}");
            fault.status()
        }
    }
}

/// The status if all output was written. If there is a first place with more accepted than sent
/// messages, reports that place on `errors`.
fn ended<E: Write>(excess: Option<usize>, errors: &mut E) -> u8
    ensures { result ≡ status_of_excess excess }
{
    match excess {
        None => 0,
        Some(place) => {
            let _ = writeln!(
                errors,
                "bsc: more accepted than sent, first at break {place}"
            );
            MORE_ACCEPTED
        }
    }
}

/// Replays the script. Answers the first place of a break for which more messages are accepted than
/// sent, or `None` if there is no such place.
fn try_replay<R: Read, W: Write>(
    alloc: Global,
    settings: Option<&str>,
    breaks: Option<&str>,
    input: &mut R,
    output: &mut W,
) -> Result<Option<usize>, ProgramFault>
    ensures read { OnOk result (IsAtEnd (R.remaining input.new)) }
    ensures printed { IfOk result (λ excess. IsOkAnd (asked_for settings.entry breaks.entry)
        (λ asked. Replays asked excess (R.remaining input.old)
        (W.contents output.old) (W.contents output.new))) }
    ensures fails { IfErr result (λ fault. Fails (asked_for settings.entry breaks.entry)
        (R.remaining input.old) fault) }
    ensures kept { UnwrittenOnErr status_of_fault result output.old output.new }
{
    match settings {
        Some(text) => replay_with(alloc, text, breaks, input, output),
        None => match breaks {
            Some(_) => Err(ProgramFault::BadBreak),
            None => {
                replay_fixed(alloc, input, output)?;
                Ok(None)
            }
        },
    }
}

/// Replays the script in the world of the settings in `text`.
fn replay_with<R: Read, W: Write>(
    alloc: Global,
    text: &str,
    breaks: Option<&str>,
    input: &mut R,
    output: &mut W,
) -> Result<Option<usize>, ProgramFault>
    ensures read { OnOk result (IsAtEnd (R.remaining input.new)) }
    ensures printed { IfOk result (λ excess. IsOkAnd (asked_of_text text.now breaks.entry)
        (λ asked. Replays asked excess (R.remaining input.old)
        (W.contents output.old) (W.contents output.new))) }
    ensures fails { IfErr result (λ fault. Fails (asked_of_text text.now breaks.entry)
        (R.remaining input.old) fault) }
    ensures kept { UnwrittenOnErr status_of_fault result output.old output.new }
{
    let settings = read_settings(alloc, text)?;
    match breaks {
        Some(word) => {
            let cells = u16::from(settings.cell_count());
            let source = source_of(cells, word)?;
            Ok(replay_breaks(alloc, text, cells, source, input, output)?)
        }
        None => {
            replay_controlled(alloc, settings, input, output)?;
            Ok(None)
        }
    }
}

/// The number of the source that `word` names: 0 for the switch, 1 to `cells` for a station.
/// `BadBreak` if `word` names no source.
fn source_of(cells: u16, word: &str) -> Result<u16, ProgramFault>
    ensures { MatchResult result (λ source. source_in cells word.now ≡ Some source)
        (λ fault. (fault ≡ BadBreak) × (source_in cells word.now ≡ None)) }
{
    match read_source(cells, word) {
        Some(source) => Ok(source),
        None => Err(ProgramFault::BadBreak),
    }
}

/// Runs the script in the fixed world, and writes the report.
fn replay_fixed<R: Read, W: Write>(
    alloc: Global,
    input: &mut R,
    output: &mut W,
) -> Result<(), Failure>
    ensures read { OnOk result (IsAtEnd (R.remaining input.new)) }
    ensures printed { OnOk result (Replays fixed None (R.remaining input.old)
        (W.contents output.old) (W.contents output.new)) }
    ensures bad { (n : ℕ) → result ≡ Err (BadEvent n)
        → HasBadLineAt 1 (R.remaining input.old) n }
    ensures kept { UnwrittenOnErr status_of result output.old output.new }
{
    let events = read_script(alloc, FIXED_CELLS, input)?;
    let mut world = World::fixed(alloc, Modulus::Four);
    report_events(alloc, &mut world, &events, output)
}

/// Runs the script in the world of these settings, and writes the report.
fn replay_controlled<R: Read, W: Write>(
    alloc: Global,
    settings: Settings,
    input: &mut R,
    output: &mut W,
) -> Result<(), Failure>
    ensures read { OnOk result (IsAtEnd (R.remaining input.new)) }
    ensures printed { OnOk result (Replays (controlled settings) None (R.remaining input.old)
        (W.contents output.old) (W.contents output.new)) }
    ensures bad { (n : ℕ) → result ≡ Err (BadEvent n)
        → HasBadLineAt (length settings.cells) (R.remaining input.old) n }
    ensures kept { UnwrittenOnErr status_of result output.old output.new }
{
    let cells = u16::from(settings.cell_count());
    let events = read_script(alloc, cells, input)?;
    let mut world = World::new(alloc, settings)?;
    report_events(alloc, &mut world, &events, output)
}

/// Runs these events in a world, and writes the world's report.
fn report_events<W: Write>(
    alloc: Global,
    world: &mut World,
    events: &[Event],
    output: &mut W,
) -> Result<(), Failure>
    ensures ok { OnOk result ((text : List ℕ) × IsReport (after_all world.old events.now) text
        × Appends (W.contents output.old) (W.contents output.new) text) }
    ensures err { IfErr result (λ failure. status_of failure ≡ 3) }
{
    world.run(events)?;
    write_report(alloc, world, output)
}

/// Reads the script, and writes a line for each place at which the link of `source` breaks, in the
/// world of the settings in `text`. Answers the first place with more accepted than sent messages,
/// or `None` if there is no such place. Assumes: the settings have `cells` cells.
fn replay_breaks<R: Read, W: Write>(
    alloc: Global,
    text: &str,
    cells: u16,
    source: u16,
    input: &mut R,
    output: &mut W,
) -> Result<Option<usize>, Failure>
    ensures read { OnOk result (IsAtEnd (R.remaining input.new)) }
    ensures printed { IfOk result (λ excess. IfOk (settings_of text.now) (λ settings.
        cells ≡ length settings.cells
        → Replays (breaking settings source) excess (R.remaining input.old)
        (W.contents output.old) (W.contents output.new))) }
    ensures bad { (n : ℕ) → result ≡ Err (BadEvent n)
        → HasBadLineAt cells (R.remaining input.old) n }
    ensures kept { UnwrittenOnErr status_of result output.old output.new }
{
    let events = read_script(alloc, cells, input)?;
    write_breaks(alloc, text, &events, source, output)
}
