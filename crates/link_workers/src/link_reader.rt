// SPDX-License-Identifier: MIT OR Apache-2.0
ghost use Rattle.std.specs.Prelude.{◌≡◌, Option, Some};
ghost use Rattle.link_workers.specs.declared.fault.IoFault.{IoFault as Fault};

use crate::IoFault;
use std::io::Read;

/// The receiving side of a link's device.
pub trait LinkReader: Read {
    /// The fault that the device was told last, if any.
    ghost told: { Self → Option Fault };

    /// Tells the device that reading stops before the end of the octets, and the fault that is the
    /// reason. A device with a peer lets the peer know.
    fn break_off(&mut self, fault: IoFault)
        ensures told { told self.new ≡ Some fault }
        ensures same { Self.remaining self.new ≡ Self.remaining self.old };
}
