// SPDX-License-Identifier: MIT OR Apache-2.0
//! `bsc judge`: judges the order of messages by the frames on the links of a controller.
use crate::tracing::tell_place;
use bsc_program::{Failure, ProgramFault};
use dtap_codec::{CellDescription, Modulus};
use judge_program::{Form, Strictness, Style, judge};
use octets::Memory;
use program_base::{TaskFault, read_settings, settings_text};
use settings::Settings;
use std::alloc::Global;
use std::io::BufWriter;

/// The network whose frames are judged.
#[derive(Drop)]
struct Network {
    modulus: Modulus,
    /// The cells of the network's stations, as a HANDOVER COMMAND describes cells. Empty without
    /// settings.
    cells: Vec<CellDescription>,
}

/// Judges the frames in the lines on standard input, and returns the exit status of the program. If
/// the settings in this file have a fault, prints the fault and returns the exit status of wrong
/// words. The output is buffered. `Err`: the settings can't be read for another reason, or memory
/// ran out.
pub(crate) fn judged(
    rt: &HostRuntime,
    file: Option<&str>,
    strictness: Strictness,
    form: Form,
) -> Result<u8, ProgramFault> {
    let network = match file {
        None => unsettled(rt.alloc()),
        Some(file) => match network_in(rt, file) {
            Ok(network) => network,
            Err(fault) if fault.status() == 1 => {
                let _ = eprintln!(rt; "bsc: {fault}");
                tell_cause(rt, file, &fault);
                return Ok(TaskFault::Words.status());
            }
            Err(fault) => return Err(fault),
        },
    };
    let Ok(mut output) = BufWriter::new(rt.alloc(), rt.stdout()) else {
        return Err(ProgramFault::Failed(Failure::Memory));
    };
    let style = Style {
        modulus: network.modulus,
        form,
        strictness,
    };
    Ok(judge(
        rt.alloc(),
        style,
        network.cells,
        &mut rt.stdin(),
        &mut output,
        &mut rt.stderr(),
    ))
}

/// The network that is judged without settings: send sequence numbers count modulo 4.
fn unsettled(alloc: Global) -> Network {
    Network {
        modulus: Modulus::Four,
        cells: Vec::new(alloc),
    }
}

fn network_in(rt: &HostRuntime, file: &str) -> Result<Network, ProgramFault> {
    let text = settings_text(rt, file)?;
    let settings = read_settings(rt.alloc(), text.as_str())?;
    Ok(network_of(rt.alloc(), &settings).map_err(Failure::from)?)
}

fn network_of(alloc: Global, settings: &Settings) -> Result<Network, Memory> {
    let mut cells = Vec::new(alloc);
    for cell in settings.cells() {
        let bsic = cell.bsic();
        cells.push(CellDescription {
            arfcn: cell.arfcn(),
            ncc: bsic.ncc,
            bcc: bsic.bcc,
        })?;
    }
    let modulus = if settings.release98() {
        Modulus::Two
    } else {
        Modulus::Four
    };
    Ok(Network { modulus, cells })
}

/// Prints where the settings in this file have their fault.
fn tell_cause(rt: &HostRuntime, file: &str, fault: &ProgramFault) {
    if let ProgramFault::Settings(_) = fault {
        if let Ok(text) = settings_text(rt, file) {
            tell_place(rt, file, text.as_str());
        }
    }
}
