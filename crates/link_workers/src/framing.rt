// SPDX-License-Identifier: MIT OR Apache-2.0
ghost use Rattle.std.specs.Prelude.{◌≡◌, ◌+◌, ◌<◌, ◌≤◌, false, length, IfErr};
ghost use Rattle.std.specs.Prelude.{OnOk};
ghost use Rattle.link_workers.specs.declared.link_reads.TheConstants.{MOST_READS};
ghost use Rattle.link_workers.specs.Reading.{ReadsOn};
ghost use Rattle.link_workers.specs.Unread.{IsUnread};

use crate::IoFault;
use crate::link_reads::LinkReads;
use crate::unread::UnreadLink;
use ipa_framing::Framer;
use std::io::{ErrorKind, Read};

/// The size of one read in octets.
pub(crate) const BLOCK: usize = 8192;

/// Reads once into the front of `block`, and feeds the octets to the framer. Returns false if the
/// end of the input was reached, else true. An interrupted read counts as a read of no octets, and
/// returns true.
///
/// - `Endless`: `MOST_READS` reads were made before; no further read is made.
/// - `Device`: the read failed.
/// - `Refused`: there is no memory for the octets that were read.
///
/// On `Err`, the framer is unchanged.
pub(crate) fn read_on<I: Read>(
    reader: &mut I,
    reads: &mut LinkReads,
    block: &mut [u8],
    framer: &mut Framer,
) -> Result<bool, UnreadLink>
    requires within { reads.old.made ≤ MOST_READS }
    requires room { 0 < length block.old }
    requires working { framer.old.failed ≡ false }
    ensures octets { ReadsOn (I.remaining reader.old) (I.remaining reader.new)
        framer.old framer.new result }
    ensures why { IfErr result (λ unread. IsUnread unread) }
    ensures counted { OnOk result (reads.new.made ≡ reads.old.made + 1) }
    ensures bounded { reads.new.made ≤ MOST_READS }
{
    if reads.is_spent() {
        return Err(UnreadLink::Endless(*reads));
    }
    match reads.read(reader, block) {
        Ok(0) => Ok(false),
        Ok(count) => {
            framer.feed(&block[..count]).map_err(IoFault::from)?;
            Ok(true)
        }
        Err(error) if error.kind() == ErrorKind::Interrupted => Ok(true),
        Err(error) => Err(UnreadLink::Device(error)),
    }
}
