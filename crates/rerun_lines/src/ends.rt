// SPDX-License-Identifier: MIT OR Apache-2.0
//! The columns before the name of a frame.
ghost use Rattle.std.specs.Prelude.{◌≡◌, ◌++◌, OnOk, codes, decimal};
ghost use Rattle.rerun_lines.specs.StepText.{ends_text, is_uplink, link_text};

use crate::pieces::{put_decimal, put_octets};
use conn_messages::SWITCH_LINK;
use octets::Memory;

/// Which way a frame crosses a link of the controller.
#[derive(Clone, Copy)]
pub(crate) enum Way {
    /// The controller took it.
    Taken,
    /// The controller put it.
    Put,
}

/// Appends the number of a step, and a tab.
pub(crate) fn put_number(number: u64, text: &mut Vec<u8>) -> Result<(), Memory>
    ensures { OnOk result (text.new.items ≡ text.old.items ++ (decimal number ++ codes "\t")) }
{
    put_decimal(number, text)?;
    put_octets(b"\t", text)
}

/// Appends who is at the other end of a link.
pub(crate) fn put_link(link: u16, text: &mut Vec<u8>) -> Result<(), Memory>
    ensures { OnOk result (text.new.items ≡ text.old.items ++ link_text link) }
{
    if link == SWITCH_LINK {
        return put_octets(b"switch", text);
    }
    put_octets(b"station ", text)?;
    put_decimal(u64::from(link), text)
}

/// Appends from whom a frame is and to whom, each with a tab behind it.
pub(crate) fn put_ends(way: Way, link: u16, text: &mut Vec<u8>) -> Result<(), Memory>
    ensures { OnOk result (text.new.items ≡ text.old.items ++ ends_text way link) }
{
    match way {
        Way::Taken => {
            put_link(link, text)?;
            text.extend_from_slice(b"\tbsc\t")?;
        }
        Way::Put => {
            text.extend_from_slice(b"bsc\t")?;
            put_link(link, text)?;
            text.extend_from_slice(b"\t")?;
        }
    }
    Ok(())
}

/// Whether a frame goes from the side of the mobiles to that of the switch.
pub(crate) fn is_uplink(way: Way, link: u16) -> bool
    ensures { result ≡ is_uplink way link }
{
    match way {
        Way::Taken => link != SWITCH_LINK,
        Way::Put => link == SWITCH_LINK,
    }
}
