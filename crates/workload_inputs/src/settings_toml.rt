// SPDX-License-Identifier: MIT OR Apache-2.0
use std::alloc::{AllocError, Global};
use std::fmt::Write;

/// The text of settings of `cells` cells. Each cell has an ARFCN of its own, which rises from cell
/// to cell, and all channels of an SDCCH/8. Levels are compared every `interval` reports. `Err`:
/// memory ran out.
pub fn settings_text(alloc: Global, cells: u16, interval: u8) -> Result<String, AllocError> {
    let mut text = String::new(alloc);
    text.push_str(
        "[network]\nmcc = \"001\"\nmnc = \"01\"\n[switch]\naddress = \"127.0.0.1:5000\"\n",
    )?;
    writeln!(text, "[handover1]\npower_budget_interval = {interval}")?;
    for cell in 1..=cells {
        let arfcn = u32::from(cell) * 10;
        let port = 6000 + u32::from(cell);
        writeln!(
            text,
            "[[cell]]\nlisten = \"127.0.0.1:{port}\"\nlac = 1\nci = {cell}"
        )?;
        write!(text, "arfcn = {arfcn}\nbsic = 9\nchannels = [")?;
        for channel in 0x40..0x80 {
            write!(text, "{channel}, ")?;
        }
        text.push_str("]\n")?;
    }
    Ok(text)
}
