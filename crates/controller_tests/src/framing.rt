// SPDX-License-Identifier: MIT OR Apache-2.0
use ipa_framing::{Frame, FrameFault, Framer, write_frame};
use octets::Octets;
use std::alloc::Global;
use std::test::Fail;

/// The stream of 300 frames of 0 to 250 octets each.
fn long_stream(alloc: Global) -> Result<Vec<u8>, FrameFault> {
    let mut stream = Vec::new(alloc);
    let body = [0x5a; 251];
    for round in 0..300u32 {
        let size = (round % 251) as usize;
        let frame = Frame {
            stream: (round % 256) as u8,
            body: Octets::copy(alloc, &body[..size])?,
        };
        write_frame(&frame, &mut stream)?;
    }
    Ok(stream)
}

/// Writes the whole frames that the framer holds, at most 4,096 of them.
fn write_all(framer: &mut Framer, stream: &mut Vec<u8>) -> Result<(), FrameFault> {
    for _ in 0..4096u32 {
        let Some(frame) = framer.next()? else {
            break;
        };
        write_frame(&frame, stream)?;
    }
    Ok(())
}

/// Feeds a stream in pieces of this size, and writes the frames of the stream again.
fn in_pieces(alloc: Global, stream: &[u8], size: usize) -> Result<Vec<u8>, FrameFault> {
    let mut framer = Framer::new(alloc);
    let mut again = Vec::new(alloc);
    for piece in stream.chunks(size.max(1)) {
        framer.feed(piece)?;
        write_all(&mut framer, &mut again)?;
    }
    Ok(again)
}

#[test]
fn pieces_of_any_size_give_the_same_frames(rt: HostRuntime) -> Result<(), Fail> {
    let stream = long_stream(rt.alloc())?;
    assert!(rt; stream.len() > 32768);
    for size in [1, 2, 3, 7, 4096] {
        let again = in_pieces(rt.alloc(), stream.as_slice(), size)?;
        assert!(rt; again == stream, "in pieces of {size}");
    }
    Ok(())
}
