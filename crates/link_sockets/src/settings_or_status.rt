// SPDX-License-Identifier: MIT OR Apache-2.0
// Reads the settings of a relay, and prints or logs what is wrong with them.

use crate::line::log_line;
use log::{Level, Log};
use program_base::{ProgramFault, read_settings, settings_text_or_status};
use settings::{Cell, Settings};
use settings_hint::{earlier_twin, has_port_zero, hint_of};
use std::rt::Runtime;

/// Reads the settings in this file, and returns them with their text. If there is a fault, prints
/// the fault and returns the exit status of the program as `Err`. The fault takes two lines, the
/// second with the reason or the place; if memory ran out, the fault takes one line.
pub(crate) fn settings_or_status<R: Runtime + AllocGlobal>(
    rt: &R,
    file: &str,
) -> Result<(Settings, String), u8> {
    let text = settings_text_or_status(rt, file)?;
    match read_settings(rt.alloc(), text.as_str()) {
        Ok(settings) => Ok((settings, text)),
        Err(fault) => {
            let _ = eprintln!(rt; "bsc: {fault}");
            tell_hint(rt, file, text.as_str(), &fault);
            Err(fault.status())
        }
    }
}

/// Prints where the settings in `text` have their fault.
fn tell_hint<R: Runtime + AllocGlobal>(rt: &R, file: &str, text: &str, fault: &ProgramFault) {
    let ProgramFault::Settings(fault) = fault else {
        return;
    };
    if let Some(hint) = hint_of(rt.alloc(), text, fault) {
        let _ = eprintln!(rt; "bsc: settings: {file}{hint}");
    }
}

/// Warns of settings that have no fault but are hardly intended.
pub(crate) fn warn_of<R: Log>(rt: &R, settings: &Settings) {
    let address = settings.switch_address();
    if has_port_zero(address) {
        log_line(
            rt,
            Level::Warn,
            format_args!("switch: nobody can listen at port 0: {address}"),
        );
    }
    warn_of_twins(rt, settings.cells());
}

/// Warns of each cell that has the LAC and CI of an earlier cell.
fn warn_of_twins<R: Log>(rt: &R, cells: &[Cell]) {
    for place in 0..cells.len() {
        if let Some(earlier) = earlier_twin(cells, place) {
            log_line(
                rt,
                Level::Warn,
                format_args!(
                    "cells {} and {} have one LAC and one CI: the switch cannot tell them apart",
                    earlier + 1,
                    place + 1
                ),
            );
        }
    }
}
