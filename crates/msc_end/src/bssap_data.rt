// SPDX-License-Identifier: MIT OR Apache-2.0
ghost use Rattle.std.specs.Prelude.{◌≡◌, IfOk, OnErr};
ghost use Rattle.bssmap_codec.specs.BssapReading.{bssap_reading};
ghost use Rattle.msc_end.specs.Refusal.{IsReadable};
ghost use Rattle.msc_end.specs.Switch.{data_form as data_form_of, message_in};

use bssmap_codec::{Bssap, InterfaceFault, Reference, Sccp, read_bssap, write_bssap};
use octets::{Memory, Octets};
use std::alloc::Global;

/// Reads octets as a BSSAP message; `None` if the octets have a fault. Returns `Err` on allocation
/// failure.
pub fn read_data(alloc: Global, octets: &[u8]) -> Result<Option<Bssap>, Memory>
    ensures reads { IfOk result (λ message. message ≡ message_in octets.now) }
    // An allocation can only fail for octets that have no other fault.
    ensures memory { OnErr result (IsReadable (bssap_reading octets.now)) }
{
    match read_bssap(alloc, octets) {
        Ok(message) => Ok(Some(message)),
        Err(InterfaceFault::Memory) => Err(Memory),
        Err(_) => Ok(None),
    }
}

/// The data form 1 that carries a BSSAP message; `None` if the message can't be encoded. Returns
/// `Err` on allocation failure.
pub fn data_form(
    alloc: Global,
    destination: Reference,
    message: &Bssap,
) -> Result<Option<Sccp>, Memory>
    ensures { IfOk result (λ form. form ≡ data_form_of destination message.now) }
{
    let mut text = Vec::new(alloc);
    match write_bssap(alloc, message, &mut text) {
        Ok(()) => Ok(Some(Sccp::DataForm1 {
            destination,
            data: Octets::new(text),
        })),
        Err(InterfaceFault::Memory) => Err(Memory),
        Err(_) => Ok(None),
    }
}
