// SPDX-License-Identifier: MIT OR Apache-2.0
ghost use Rattle.std.specs.Prelude.{◌≤◌, length};

use controller::{Controller, Settings, SettingsFault};
use ho_decision::Averages;
use octets::Memory;
use std::alloc::Global;
use std::test::Fail;

/// Settings of two cells, with only the required settings.
const TWO_CELLS: &str =
    "[network]\nmcc = \"001\"\nmnc = \"01\"\n[switch]\naddress = \"127.0.0.1:5000\"\n\
[[cell]]\nlisten = \"127.0.0.1:3003\"\nlac = 1\nci = 1\narfcn = 20\nbsic = 9\n\
channels = [0x41, 0x49, 0x0a]\n\
[[cell]]\nlisten = \"127.0.0.1:3004\"\nlac = 1\nci = 2\narfcn = 30\nbsic = 18\n\
channels = [0x41, 0x0a]\n";

/// The printed text of the fault of `text`; empty if `text` has no fault.
fn fault_of(alloc: Global, text: &str) -> Result<String, Fail> {
    match Settings::read(alloc, text) {
        Ok(_) => Ok(String::new(alloc)),
        Err(SettingsFault::Memory) => Err("out of memory".into()),
        Err(fault) => Ok(format!(in alloc; "{fault}")?),
    }
}

/// The average quality that the handover decision of cell 1 begins with.
fn first_quality(alloc: Global, settings: &Settings) -> Result<Option<u8>, Memory>
    requires { 1 ≤ length settings.now.cells }
{
    let decision = settings.handover_settings(alloc, 1)?;
    Ok(Averages::new(alloc, &decision)?.rxqual())
}

#[test]
fn settings_are_read(rt: HostRuntime) -> Result<(), Fail> {
    let settings = Settings::read(rt.alloc(), TWO_CELLS)?;
    assert!(rt; settings.cell_count() == 2 && settings.t3101_ms() == 3000);
    assert!(rt; matches!(first_quality(rt.alloc(), &settings), Ok(None)));
    Ok(())
}

/// Texts of settings, and the printed text of the fault of each.
const FAULTS: &[(&str, &str)] = &[
    (TWO_CELLS, ""),
    ("", "missing network"),
    ("x =", "not TOML"),
    ("x = 1", "unknown key x"),
    ("network = 1", "bad type network"),
    ("[network]\nmcc = \"1\"", "bad value network.mcc"),
    (
        "[network]\nmcc = \"001\"\nmnc = \"01\"\n[switch]\naddress = \"a\"\n\
[handover1]\npower_budget_interval = 100\n",
        "bad value handover1.power_budget_interval",
    ),
];

/// The printed text of a text's fault, and whether memory was refused. If memory was refused, the
/// text is read once more.
fn said_of(alloc: Global, text: &str) -> Result<(String, bool), Fail> {
    match Settings::read(alloc, text) {
        Err(SettingsFault::Memory) => Ok((fault_of(alloc, text)?, true)),
        Err(fault) => Ok((format!(in alloc; "{fault}")?, false)),
        Ok(_) => Ok((String::new(alloc), false)),
    }
}

/// If memory is refused, the test reports only this.
#[test]
fn settings_that_want_memory_are_read_again(rt: HostRuntime) -> Result<(), Fail> {
    for (text, expected) in FAULTS {
        let (said, is_refused) = said_of(rt.alloc(), text)?;
        assert!(rt; said.as_str() == *expected);
        if is_refused {
            return Err(Fail::new("the settings wanted memory, and were read again"));
        }
    }
    Ok(())
}

#[test]
fn faults_of_settings_have_their_texts(rt: HostRuntime) -> Result<(), Fail> {
    for (text, expected) in FAULTS {
        let found_text = fault_of(rt.alloc(), text)?;
        assert!(rt; found_text.as_str() == *expected);
    }
    Ok(())
}

/// The text of settings of `cells` cells. Each cell has `channels` channels, from 08 on.
fn text_of(alloc: Global, cells: u8, channels: u8) -> Result<String, Fail> {
    let mut text = String::new(alloc);
    text.push_str("[network]\nmcc = \"001\"\nmnc = \"01\"\n[switch]\naddress = \"a\"\n")?;
    for cell in 1..=cells {
        text.push_str(format!(in alloc; "[[cell]]\nlisten = \"b{cell}\"\nlac = 1\n")?.as_str())?;
        text.push_str(format!(in alloc; "ci = {cell}\narfcn = {cell}\nbsic = 9\n")?.as_str())?;
        text.push_str(channels_text(alloc, channels)?.as_str())?;
    }
    Ok(text)
}

fn channels_text(alloc: Global, channels: u8) -> Result<String, Fail> {
    let mut text = String::new(alloc);
    text.push_str("channels = [8")?;
    for channel in 1..channels {
        let number = 8 + u32::from(channel);
        text.push_str(format!(in alloc; ", {number}")?.as_str())?;
    }
    text.push_str("]\n")?;
    Ok(text)
}

/// How many cells there are, how many channels each cell has, and the printed text of the fault.
const LIMITS: [(u8, u8, &str); 4] = [
    (1, 1, ""),
    (32, 64, ""),
    (33, 64, "bad value cell"),
    (32, 65, "bad value cell.channels"),
];

#[test]
fn cells_and_their_channels_have_limits(rt: HostRuntime) -> Result<(), Fail> {
    for (cells, channels, expected) in LIMITS {
        let text = text_of(rt.alloc(), cells, channels)?;
        let found_text = fault_of(rt.alloc(), text.as_str())?;
        assert!(rt; found_text.as_str() == expected);
    }
    Ok(())
}

#[test]
fn a_controller_has_the_links_of_all_cells(rt: HostRuntime) -> Result<(), Fail> {
    let text = text_of(rt.alloc(), 32, 64)?;
    let settings = Settings::read(rt.alloc(), text.as_str())?;
    let controller = Controller::new(rt.alloc(), settings)?;
    assert!(rt; controller.links() == 33);
    Ok(())
}
