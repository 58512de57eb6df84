// SPDX-License-Identifier: MIT OR Apache-2.0
ghost use Rattle.std.specs.Prelude.{◌≡◌, IfOk};
ghost use Rattle.settings.specs.Found.{network_found};

use crate::Text;
use octets::Memory;
use std::alloc::Global;

/// The network that the cells belong to.
#[derive(Drop)]
pub(crate) struct Network {
    /// The mobile country code, three decimal digits.
    pub(crate) mcc: Text,
    /// The mobile network code, two or three decimal digits.
    pub(crate) mnc: Text,
    /// Whether mobiles and switch count N(SD) modulo 2, as in Release 98.
    pub(crate) release98: bool,
}

impl Network {
    /// A copy of the network. `Err` only if an allocation fails.
    pub(crate) fn copy(&self, alloc: Global) -> Result<Network, Memory>
        ensures { IfOk result (λ copy. copy ≡ self.now) }
    {
        Ok(Network {
            mcc: Text::copy(alloc, self.mcc.as_str())?,
            mnc: Text::copy(alloc, self.mnc.as_str())?,
            release98: self.release98,
        })
    }
}

/// The network as found in a table. The texts are borrowed from the table.
#[derive(Clone, Copy)]
pub(crate) struct NetworkFound<'a> {
    pub(crate) mcc: &'a str,
    pub(crate) mnc: &'a str,
    pub(crate) release98: bool,
}

impl NetworkFound<'_> {
    /// Copies the texts into a `Network`. `Err` only if an allocation fails.
    pub(crate) fn copy(&self, alloc: Global) -> Result<Network, Memory>
        ensures { IfOk result (λ network. network ≡ network_found self.now) }
    {
        Ok(Network {
            mcc: Text::copy(alloc, self.mcc)?,
            mnc: Text::copy(alloc, self.mnc)?,
            release98: self.release98,
        })
    }
}
