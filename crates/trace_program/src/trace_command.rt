// SPDX-License-Identifier: MIT OR Apache-2.0
ghost use Rattle.std.specs.Prelude.{◌≡◌, ◌≢◌, ◌⊎◌, ℕ, Err, IfErr, IfOk};
ghost use Rattle.std.specs.Prelude.{IsErrAnd, IsOkAnd, OnOk, length};
ghost use Rattle.std.specs.Io.KnownBytes.{Appends, IsAtEnd};
ghost use Rattle.program_base.specs.WholeScript.{HasBadLineAt};
ghost use Rattle.dtap_codec.specs.Number.{count_of};
ghost use Rattle.program_base.specs.SettingsText.{settings_of};
ghost use Rattle.program_base.specs.FaultStatus.{status_of_fault};
ghost use Rattle.program_io.specs.Status.{status_of};
ghost use Rattle.program_io.specs.declared.failure.Failure.TheVariants.{BadEvent};
ghost use Rattle.trace_program.specs.Traced.{Fails, HasBadLine, Traces, no_tally};
ghost use Rattle.trace_program.specs.Traced.{status_of_tally, tally_of};
ghost use Rattle.trace_program.specs.Traced.{trace_text};

use crate::run::{Missed, Tally, write_trace};
use crate::words::cause_text;
use dtap_codec::Modulus;
use program_base::{KeptScript, ProgramFault, read_kept_script, read_settings};
use program_io::Failure;
use settings::Settings;
use std::alloc::Global;
use std::io::{Read, Write};
use world_actors::{Network, modulus_of};

/// The status if `strict` is set and an event wasn't taken.
const NOT_TAKEN: u8 = 4;

/// Runs the script on `input` in the world of the settings in `settings`, and writes the trace of
/// the script's events to `output`. Answers the status that the program ends with. The status is 0
/// on success, 1 for a fault of the settings, and 2 if the script has a bad line. It is 3 on
/// allocation failure or if a device failed, and 4 if `strict` is set and an event wasn't taken.
/// The causes are checked in this order. The whole script is read before any event is run. The text
/// of a status above 0 is written to `errors`.
pub fn trace<R: Read, W: Write, E: Write>(
    alloc: Global,
    settings: &str,
    strict: bool,
    input: &mut R,
    output: &mut W,
    errors: &mut E,
) -> u8
    ensures status { (result ≡ 0) ⊎ (result ≡ 1) ⊎ (result ≡ 2) ⊎ (result ≡ 3)
        ⊎ (result ≡ 4) }
    // Faulty settings give the status of their fault, or 3 on allocation failure.
    ensures asked { IfErr (settings_of settings.now)
        (λ fault. (result ≡ status_of_fault fault) ⊎ (result ≡ 3)) }
    ensures settings { result ≡ 1 → IsErrAnd (settings_of settings.now)
        (λ fault. status_of_fault fault ≡ 1) }
    // With status 0 or 4 the whole script was read, if its octets are known.
    ensures read { (result ≡ 0) ⊎ (result ≡ 4) → IsAtEnd (R.remaining input.new) }
    // With status 0 or 4 the output grew by the trace of the script's events, if the contents of
    // input and output are known. The status is 4 only if `strict` is set and an event wasn't
    // taken.
    ensures printed { (result ≡ 0) ⊎ (result ≡ 4) → IsOkAnd (settings_of settings.now)
        (λ parameters. (tally : Tally) × (result ≡ status_of_tally strict tally)
        × Traces parameters tally (R.remaining input.old)
        (W.contents output.old) (W.contents output.new)) }
    // Status 2 only if a line of the script is bad.
    ensures bad { result ≡ 2 → IsOkAnd (settings_of settings.now)
        (λ parameters. HasBadLine (length parameters.cells) (R.remaining input.old)) }
    // With status 1 or 2 nothing is written to the output.
    ensures kept { (result ≡ 1) ⊎ (result ≡ 2) → output.new ≡ output.old }
{
    match try_trace(alloc, settings, input, output) {
        Ok(tally) => ended(strict, tally, errors),
        Err(fault) => {
            let _ = writeln!(errors, "bsc: {fault}");
            fault.status()
        }
    }
}

fn try_trace<R: Read, W: Write>(
    alloc: Global,
    settings: &str,
    input: &mut R,
    output: &mut W,
) -> Result<Tally, ProgramFault>
    ensures read { OnOk result (IsAtEnd (R.remaining input.new)) }
    ensures printed { IfOk result (λ tally. IsOkAnd (settings_of settings.now)
        (λ parameters. Traces parameters tally (R.remaining input.old)
        (W.contents output.old) (W.contents output.new))) }
    ensures fails { IfErr result (λ fault. Fails (settings_of settings.now)
        (R.remaining input.old) fault) }
    ensures kept { IfErr result (λ fault. status_of_fault fault ≢ 3 → output.new ≡ output.old) }
{
    let settings = read_settings(alloc, settings)?;
    Ok(trace_script(alloc, settings, input, output)?)
}

/// Reads the script, runs it in the world of these settings, and writes the trace of its events.
fn trace_script<R: Read, W: Write>(
    alloc: Global,
    settings: Settings,
    input: &mut R,
    output: &mut W,
) -> Result<Tally, Failure>
    ensures read { OnOk result (IsAtEnd (R.remaining input.new)) }
    ensures printed { IfOk result (λ tally. Traces settings tally (R.remaining input.old)
        (W.contents output.old) (W.contents output.new)) }
    ensures bad { (n : ℕ) → result ≡ Err (BadEvent n)
        → HasBadLineAt (length settings.cells) (R.remaining input.old) n }
    ensures kept { IfErr result (λ failure. status_of failure ≢ 3 → output.new ≡ output.old) }
{
    let cells = u16::from(settings.cell_count());
    let script = read_kept_script(alloc, cells, input)?;
    let modulus = modulus_of(&settings);
    let mut network = Network::new(alloc, settings)?;
    trace_events(alloc, modulus, &mut network, &script, output)
}

/// Lets the events of a script happen in this network, and writes the trace of each event.
fn trace_events<W: Write>(
    alloc: Global,
    modulus: Modulus,
    network: &mut Network,
    script: &KeptScript,
    output: &mut W,
) -> Result<Tally, Failure>
    ensures ok { IfOk result (λ tally. Appends (W.contents output.old) (W.contents output.new)
        (trace_text (count_of modulus) network.old 1
        script.now.octets.items script.now.events.items)
        × (tally ≡ tally_of network.old 1 script.now.events.items no_tally)) }
    ensures err { IfErr result (λ failure. status_of failure ≡ 3) }
{
    let events = script.events.as_slice();
    let octets = script.octets.as_slice();
    let tally = write_trace(alloc, modulus, network, events, octets, output)?;
    output.flush()?;
    Ok(tally)
}

/// The status if all events were traced. With `strict`, reports the events that weren't taken on
/// `errors`.
fn ended<E: Write>(strict: bool, tally: Tally, errors: &mut E) -> u8
    ensures { result ≡ status_of_tally strict tally }
{
    if !strict {
        return 0;
    }
    match tally.first {
        None => 0,
        Some(first) => {
            tell(tally.not_taken, first, errors);
            NOT_TAKEN
        }
    }
}

/// Reports the number of events that weren't taken, and the line and the cause of the first such
/// event.
fn tell<E: Write>(count: u64, first: Missed, errors: &mut E) {
    let line = first.line;
    let cause = cause_text(first.cause);
    let _ = match count {
        1 => writeln!(errors, "bsc: 1 event not taken, in line {line}: {cause}"),
        _ => writeln!(
            errors,
            "bsc: {count} events not taken, the first in line {line}: {cause}"
        ),
    };
}
