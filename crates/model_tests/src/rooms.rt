// SPDX-License-Identifier: MIT OR Apache-2.0
use bssmap_codec::{Reference, Sccp, write_sccp};
use std::process::Abort;
use std::test::Fail;

/// Two texts are appended to a vector with room for more. The vector's capacity is unchanged.
#[test]
fn texts_keep_the_room_that_was_made(rt: HostRuntime) -> Result<(), Fail> {
    let alloc = rt.alloc();
    let mut text = Vec::with_capacity(alloc, 1_000)?;
    let room = text.capacity();
    let message = Sccp::ConnectionRefused {
        destination: Reference::new(0x010203),
    };
    write_sccp(alloc, &message, &mut text)?;
    assert!(rt; text.as_slice() == [0x03, 0x01, 0x02, 0x03, 0x00, 0x00].as_slice());
    assert!(rt; text.capacity() == room);
    write_sccp(alloc, &message, &mut text)?;
    assert!(rt; text.len() == 12 && text.capacity() == room);
    Ok(())
}
