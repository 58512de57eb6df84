// SPDX-License-Identifier: MIT OR Apache-2.0
ghost use Rattle.std.specs.Prelude.{◌≡◌, ◌++◌, OnErr, OnOk};

use crate::Memory;

/// The initial capacity in octets for the text of a message. Most layer 3 messages fit one layer 2
/// frame of at most 23 octets, and the headers of all layers together have fewer than 20 octets.
/// Most texts therefore need one allocation; a longer text grows.
pub const TEXT_ROOM: usize = 64;

/// Appends `written` to `text`. If `text` has no capacity, `text` becomes `written` without a copy;
/// otherwise the octets are copied. On `Err` (allocation failure), `text` is unchanged.
pub fn hand_over(written: Vec<u8>, text: &mut Vec<u8>) -> Result<(), Memory>
    ensures ok { OnOk result (text.new.items ≡ text.old.items ++ written.items) }
    ensures err { OnErr result (text.new.items ≡ text.old.items) }
{
    if text.capacity() == 0 {
        *text = written;
        return Ok(());
    }
    text.extend_from_slice(written.as_slice())?;
    Ok(())
}
