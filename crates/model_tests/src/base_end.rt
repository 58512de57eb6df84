// SPDX-License-Identifier: MIT OR Apache-2.0
use dtap_codec::Sapi;
use link_model::BaseEnd;
use rsl_codec::{AccessDelay, ChanNo, ChannelRequired, RequestReference, Rsl};
use std::alloc::Global;
use std::process::Abort;
use std::test::Fail;

/// The texts of the messages that `make_all` makes, in order. The empty text means that there is no
/// further message.
const TEXTS: &[&[u8]] = &[
    &[0x0c, 0x13, 0x01, 0x88, 0x13, 0x01, 0x02, 0x03, 0x11, 0x04],
    &[0x08, 0x22, 0x01, 0x41, 0x08, 0x00, 0x00],
    &[
        0x02, 0x06, 0x01, 0x41, 0x02, 0x00, 0x0b, 0x00, 0x03, 0x05, 0x24, 0x71,
    ],
    &[0x02, 0x06, 0x01, 0x41, 0x02, 0x03],
    &[
        0x03, 0x02, 0x01, 0x41, 0x02, 0x00, 0x0b, 0x00, 0x02, 0x05, 0x1b,
    ],
    &[
        0x03, 0x02, 0x01, 0x41, 0x02, 0x03, 0x0b, 0x00, 0x02, 0x09, 0x01,
    ],
    &[0x08, 0x33, 0x01, 0x41],
    &[],
];

/// Makes each call of a base station's end that makes a message.
fn make_all(base: &mut BaseEnd) -> Result<(), Fail> {
    base.tell(Rsl::ChannelRequired(ChannelRequired {
        channel: ChanNo::read(0x88)?,
        reference: RequestReference {
            access: 0x01,
            frame: 0x0203,
        },
        access_delay: AccessDelay(0x04),
    }))?;
    let channel = ChanNo::read(0x41)?;
    base.activate(channel)?;
    base.establish(channel, Sapi::Zero, Some(&[0x05, 0x24, 0x71]))?;
    base.establish(channel, Sapi::Three, None)?;
    base.up(channel, Sapi::Zero, &[0x05, 0x1b])?;
    base.up(channel, Sapi::Three, &[0x09, 0x01])?;
    base.release(channel)?;
    Ok(())
}

/// The octets of the next message; empty if there is no message.
fn next_text(alloc: Global, base: &mut BaseEnd) -> Result<Vec<u8>, Fail> {
    let mut text = Vec::new(alloc);
    if let Some(message) = base.next() {
        message.write(alloc, &mut text)?;
    }
    Ok(text)
}

/// Asserts the text of each message.
fn are_all_made(rt: &(impl Abort + AllocGlobal), base: &mut BaseEnd) -> Result<(), Fail> {
    make_all(base)?;
    for text in TEXTS {
        let written = next_text(rt.alloc(), base)?;
        assert!(rt; written.as_slice() == *text);
    }
    Ok(())
}

#[test]
fn a_base_station_end_makes_the_message_of_each_call(rt: HostRuntime) -> Result<(), Fail> {
    let mut base = BaseEnd::new(rt.alloc(), 1);
    are_all_made(&rt, &mut base)
}
