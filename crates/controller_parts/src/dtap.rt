// SPDX-License-Identifier: MIT OR Apache-2.0
ghost use Rattle.std.specs.Prelude.{◌≡◌};
ghost use Rattle.conn_rules.specs.Streams as streams;
ghost use Rattle.controller_model.specs.Reading as reading;

use bssmap_codec::Dlci;
use dtap_codec::{RADIO_RESOURCE, Sapi, pd_of};

/// Whether a layer 3 message isn't of radio resource management; `true` for an empty message.
pub fn is_dtap(message: &[u8]) -> bool
    ensures { result ≡ streams.is_dtap message.now }
{
    match pd_of(message) {
        Some(discriminator) => discriminator != RADIO_RESOURCE,
        None => true,
    }
}

/// The SAPI of a DLCI: bits 3 to 1, which are 0 or 3 in every `Dlci`.
pub(crate) fn dlci_sapi(dlci: Dlci) -> Sapi
    ensures { result ≡ reading.dlci_sapi dlci }
{
    if dlci.octet() % 8 == 0 {
        Sapi::Zero
    } else {
        Sapi::Three
    }
}
