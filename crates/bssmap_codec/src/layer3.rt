// SPDX-License-Identifier: MIT OR Apache-2.0
ghost use Rattle.std.specs.Prelude.{◌≡◌};
ghost use Rattle.octets.specs.Answer.{result_map};
ghost use Rattle.bssmap_codec.specs.BssapReading.{layer3_at};
ghost use Rattle.bssmap_codec.specs.Layer3.{layer3_fault};

use crate::InterfaceFault;
use octets::MESSAGE_LIMIT;

/// The fault of octets as a layer 3 message: `Short` if there are no octets, `TooLong` if there are
/// more than 251, else `None`.
pub fn refusal(octets: &[u8]) -> Option<InterfaceFault>
    ensures { result ≡ layer3_fault octets.now }
{
    if octets.is_empty() {
        Some(InterfaceFault::Short)
    } else if octets.len() > MESSAGE_LIMIT {
        Some(InterfaceFault::TooLong)
    } else {
        None
    }
}

/// Returns the octets if there are 1 to 251 of them, else the fault that `refusal` finds.
#[tactic(auto, unfolding(crate::specs::BssapReading::layer3_at))]
pub fn message(octets: &[u8]) -> Result<&[u8], InterfaceFault>
    ensures { result_map (λ v. v.now) result ≡ layer3_at octets.now }
{
    match refusal(octets) {
        Some(fault) => Err(fault),
        None => Ok(octets),
    }
}
