// SPDX-License-Identifier: MIT OR Apache-2.0
ghost use Rattle.link_workers.specs.Writing.{WritesOnce, WritesText};

use crate::IoFault;
use std::io::{self, ErrorKind, Write};

/// The result of a write that didn't fail.
#[derive(Drop)]
enum Wrote {
    /// The write took this many octets, at least one.
    Octets(usize),
    /// The write was interrupted and took no octet.
    Interrupted(io::Error),
}

/// Writes all octets. Continues after a short write and retries an interrupted write. On `Err`,
/// which is always `WriteFailed`, the device took a prefix of the octets; `write_all` doesn't
/// promise this.
pub(crate) fn write_octets<O: Write>(writer: &mut O, octets: &[u8]) -> Result<(), IoFault>
    ensures { WritesText (O.contents writer.old) (O.contents writer.new) octets.now result }
{
    let mut rest = octets;
    for _ in 0..u64::MAX {
        if rest.is_empty() {
            return Ok(());
        }
        match write_once(writer, rest)? {
            Wrote::Octets(count) => rest = &rest[count..],
            Wrote::Interrupted(_) => {}
        }
    }
    Err(IoFault::WriteFailed)
}

/// Writes once. Returns `WriteFailed` if the write took no octet, or failed without being
/// interrupted.
fn write_once<O: Write>(writer: &mut O, octets: &[u8]) -> Result<Wrote, IoFault>
    ensures { WritesOnce (O.contents writer.old) (O.contents writer.new) octets.now result }
{
    match writer.write(octets) {
        Ok(0) => Err(IoFault::WriteFailed),
        Ok(count) => Ok(Wrote::Octets(count)),
        Err(error) if error.kind() == ErrorKind::Interrupted => Ok(Wrote::Interrupted(error)),
        Err(_) => Err(IoFault::WriteFailed),
    }
}
