// SPDX-License-Identifier: MIT OR Apache-2.0
//! Tests with an output that takes each piece whole or not at all, and whose room ends inside a
//! line. After a call the output holds the same as if the parts of the line were put one by one. No
//! contract states how much that is.
use crate::settled_worlds::USUAL;
use bsc_program::{decode, replay};
use dtap_codec::Modulus;
use frame_words::{write_digits_line, write_fields, write_message_name, write_number, write_said};
use ipa_framing::Frame;
use octets::Octets;
use program_io::put;
use std::alloc::Global;
use std::io::{self, ErrorKind, Write};
use std::test::Fail;
use trace_program::trace;

/// A call that writes a text for a frame or for an input.
#[derive(Clone, Copy)]
enum Call {
    Decode,
    Fields,
    Name,
    Number,
    DigitsLine(&'static str),
    Said(&'static str),
    Report,
    Trace,
}

/// A call, the stream of a frame, the octets of the frame's body or of an input, and the parts of
/// the text that the call writes.
type Row = (Call, u8, &'static [u8], &'static [&'static str]);

const DATA: &[u8] = &[
    0x03, 0x02, 0x01, 0x41, 0x02, 0x00, 0x0b, 0x00, 0x02, 0x03, 0x85,
];

const RELEASED: &[u8] = &[0x05, 0x80, 0x00, 0x01, 0x00, 0x00, 0x01];

/// A PING, a RELEASE COMPLETE, and the beginning of a frame.
const STREAM: &[u8] = &[
    0x00, 0x01, 0xfe, 0x00, 0x00, 0x07, 0xfd, 0x05, 0x80, 0x00, 0x01, 0x00, 0x00, 0x01, 0x00,
];

const ROWS: &[Row] = &[
    (
        Call::Decode,
        0,
        STREAM,
        &["fe", " ", "PING", "\n", "fd", " ", "RLC", "\n", "rest 1\n"],
    ),
    (Call::Fields, 0x00, DATA, &[" channel ", "41"]),
    (
        Call::Fields,
        0xfd,
        RELEASED,
        &[" to ", "800001", " from ", "000001"],
    ),
    (Call::Name, 0x00, DATA, &["DATA INDICATION", " ", "CC"]),
    (Call::Number, 0x00, DATA, &[" N(SD) ", "2"]),
    (
        Call::DigitsLine(" gap\t"),
        0,
        &[0x03, 0x45],
        &[" gap", "\t", "0345", "\n"],
    ),
    (
        Call::DigitsLine(" gap\t"),
        0,
        &[0; 65],
        &[
            " gap",
            "\t",
            "00000000000000000000000000000000000000000000000000000000000000000\
                00000000000000000000000000000000000000000000000000000000000000000",
            "\n",
        ],
    ),
    (
        Call::Said("\tsent"),
        0x00,
        DATA,
        &[
            "DATA INDICATION",
            " ",
            "CC",
            "\t",
            "sent",
            " channel ",
            "41",
            " N(SD) ",
            "2",
        ],
    ),
    (
        Call::Report,
        0,
        b"upper 1 0 0305\n",
        &[
            "mobile ",
            "1",
            " sent ",
            "1",
            "\n",
            "0305",
            "\n",
            "mobile ",
            "1",
            " received ",
            "0",
            "\n",
            "conn ",
            "1",
            " taken ",
            "0",
            "\n",
            "conn ",
            "1",
            " accepted ",
            "0",
            "\n",
            "conn ",
            "1",
            " unnumbered ",
            "0",
            "\n",
            "events not taken ",
            "0",
            "\n",
        ],
    ),
    (
        Call::Trace,
        0,
        b"connect 1 1 052471 y\n",
        &[
            "1",
            "\tscript\tworld\t",
            "connect 1 1 052471 y",
            "\ttaken\t\n",
            "1",
            "\t",
            "station ",
            "1",
            "\t",
            "bsc",
            "\t",
            "CHANNEL REQUIRED",
            "\t",
            "made",
            " channel ",
            "88",
            "\t",
            "0c130188130100001100",
            "\n",
        ],
    ),
];

/// An output that takes a piece if there is room for the whole piece. The mark depends on the
/// octets that the output took, in order.
#[derive(Drop)]
struct Shelf {
    room: usize,
    mark: u64,
}

impl Write for Shelf {
    fn write(&mut self, buf: &[u8]) -> io::Result<usize> {
        if buf.len() > self.room {
            return Err(io::Error::from(ErrorKind::OutOfMemory));
        }
        self.room -= buf.len();
        for octet in buf {
            self.mark = self
                .mark
                .wrapping_mul(257)
                .wrapping_add(u64::from(*octet) + 1);
        }
        Ok(buf.len())
    }

    fn flush(&mut self) -> io::Result<()> {
        Ok(())
    }
}

/// Makes the call. Returns whether the call wrote all.
fn written(alloc: Global, row: Row, output: &mut Shelf) -> Result<bool, Fail> {
    let (call, stream, octets, _) = row;
    let body = Octets::copy(alloc, octets)?;
    let frame = Frame { stream, body };
    let mut input = octets;
    let mut errors = Vec::new(alloc);
    Ok(match call {
        Call::Decode => decode(alloc, &mut input, output, &mut errors) == 0,
        Call::Fields => write_fields(alloc, &frame, output).is_ok(),
        Call::Name => write_message_name(alloc, &frame, output).is_ok(),
        Call::Number => write_number(alloc, Modulus::Four, &frame, output).is_ok(),
        Call::DigitsLine(word) => write_digits_line(alloc, word, octets, output).is_ok(),
        Call::Said(word) => write_said(alloc, Modulus::Four, &frame, word, true, output).is_ok(),
        Call::Report => replay(alloc, None, None, &mut input, output, &mut errors) == 0,
        Call::Trace => trace(alloc, USUAL, false, &mut input, output, &mut errors) == 0,
    })
}

/// Puts the parts one by one. Returns whether all were put.
fn parts_put(parts: &[&str], output: &mut Shelf) -> bool {
    for part in parts {
        if put(output, part.as_bytes()).is_err() {
            return false;
        }
    }
    true
}

fn length_of(parts: &[&str]) -> usize {
    let mut length = 0_usize;
    for part in parts {
        length = length.saturating_add(part.len());
    }
    length
}

#[test]
fn a_line_leaves_what_its_parts_leave(rt: HostRuntime) -> Result<(), Fail> {
    for row in ROWS {
        for room in 0..=length_of(row.3) {
            let (mut one, mut other) = (Shelf { room, mark: 0 }, Shelf { room, mark: 0 });
            let wanted = parts_put(row.3, &mut one);
            let got = written(rt.alloc(), *row, &mut other)?;
            assert_eq!(rt; (got, other.room, other.mark), (wanted, one.room, one.mark));
        }
    }
    Ok(())
}
