// SPDX-License-Identifier: MIT OR Apache-2.0
ghost use Rattle.std.specs.Prelude.{◌≡◌};
ghost use Rattle.link_workers.specs.Unread.{fault_in};

use crate::IoFault;
use crate::link_reads::LinkReads;
use std::io;

/// Why the octets of a link weren't read to their end.
#[derive(Drop)]
pub(crate) enum UnreadLink {
    /// This many reads didn't reach the end of the octets.
    Endless(LinkReads),
    /// A read failed.
    Device(io::Error),
    /// The octets that were read were refused with this fault.
    Refused(IoFault),
}

impl From<IoFault> for UnreadLink {
    ghost use Rattle.std.specs.Prelude.{◌≡◌};
    ghost use Rattle.link_workers.specs.declared.unread.UnreadLink.TheVariants as unread;

    ghost from_gives = { λ fault why. why ≡ unread.Refused fault };

    fn from(fault: IoFault) -> UnreadLink {
        UnreadLink::Refused(fault)
    }
}

/// The fault with which a worker ends; `None` if the octets were read to their end.
pub(crate) fn fault_of(read: Result<(), UnreadLink>) -> Option<IoFault>
    ensures { result ≡ fault_in read }
{
    match read {
        Ok(()) => None,
        Err(UnreadLink::Refused(fault)) => Some(fault),
        Err(_) => Some(IoFault::ReadFailed),
    }
}
