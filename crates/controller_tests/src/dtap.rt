// SPDX-License-Identifier: MIT OR Apache-2.0
use dtap_codec::{Modulus, RrFault, RrMessage, with_number, without_number};
use std::alloc::Global;
use std::test::Fail;

const TEXTS: [&[u8]; 10] = [
    &[0x06, 0x2b, 0xd5, 0x1e, 0x41, 0xc2, 0x14, 0x5c, 0x00],
    &[0x06, 0x2e, 0x0a, 0x20, 0x14, 0x00],
    &[0x06, 0x2c, 0x00],
    &[0x06, 0x28, 0x03],
    &[0x06, 0x29, 0x00],
    &[0x06, 0x2f, 0x03],
    &[0x06, 0x0d, 0x01],
    &[
        0x2d, 0x06, 0x3f, 0x00, 0x41, 0x20, 0x14, 0x7f, 0x01, 0x02, 0x05, 0x00, 0x2b, 0x2b, 0x2b,
        0x2b, 0x2b, 0x2b, 0x2b, 0x2b, 0x2b, 0x2b, 0x2b,
    ],
    &[
        0x06, 0x15, 0x14, 0x14, 0x00, 0x57, 0x02, 0x40, 0, 0, 0, 0, 0, 0, 0, 0, 0, 0,
    ],
    &[0x06, 0x27, 0x71],
];

fn read_and_written(alloc: Global, text: &[u8]) -> Result<Vec<u8>, RrFault> {
    let message = RrMessage::read(alloc, text)?;
    let mut written = Vec::new(alloc);
    message.write(alloc, &mut written)?;
    Ok(written)
}

#[test]
fn texts_are_read_and_written_back(rt: HostRuntime) -> Result<(), Fail> {
    for text in TEXTS {
        let written = read_and_written(rt.alloc(), text)?;
        assert!(rt; written.as_slice() == text);
    }
    Ok(())
}

#[test]
fn numbers_are_set_and_cleared(rt: HostRuntime) -> Result<(), Fail> {
    let numbered = with_number(rt.alloc(), &[0x0b, 0x3a, 0xff], 3, Modulus::Four)?;
    assert!(rt; numbered.as_slice() == [0x0b, 0xfa, 0xff].as_slice());
    let cleared = without_number(rt.alloc(), &[0x0b, 0xfa, 0xff], Modulus::Four)?;
    assert!(rt; cleared.as_slice() == [0x0b, 0x3a, 0xff].as_slice());
    Ok(())
}
