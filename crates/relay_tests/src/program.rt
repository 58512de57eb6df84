// SPDX-License-Identifier: MIT OR Apache-2.0
use crate::settled_worlds::USUAL;
use bsc_program::{decode, replay};
use std::alloc::Global;
use std::io::{self, ErrorKind, Read, Write};
use std::process::Abort;
use std::test::Fail;

/// An input, and the status, the output and the errors that are expected for this input.
pub(crate) type Row<'a> = (&'a [u8], u8, &'a str, &'a str);

/// A command of the program.
#[derive(Clone, Copy)]
pub(crate) enum Command<'a> {
    /// `replay`, with the text of the settings and the word after `--break`.
    Replay(Option<&'a str>, Option<&'a str>),
    Decode,
}

const FIXED_WORLD: Command<'static> = Command::Replay(None, None);

const SCRIPTS: &[Row] = &[
    (THREE_MESSAGES, 0, THREE_REPORTED, ""),
    (SIX_MESSAGES, 0, SIX_REPORTED, ""),
    (
        b"upper 1 0 0305\nswitchtakes\nairack 1 0\nbasetakes 1",
        0,
        "mobile 1 sent 1\n0305\nmobile 1 received 0\nconn 1 taken 0\nconn 1 accepted 0\n\
            conn 1 unnumbered 0\nevents not taken 3\n",
        "",
    ),
    (b"airup 1", 2, "", "bsc: line 1: bad event\n"),
    (b"handle\n\nairup 1\n", 2, "", "bsc: line 2: bad event\n"),
    (
        b"handle\nhandle\nupper \xff 0 0305\n",
        2,
        "",
        "bsc: line 3: bad event\n",
    ),
];

const THREE_MESSAGES: &[u8] = b"upper 1 0 052471\nupper 1 0 0305\nupper 1 0 030f\n\
    airup 1 0\nairack 1 0\nswitchtakes\nairup 1 0\nairack 1 0\nswitchtakes\nairup 1 0\n\
    airack 1 0\nswitchtakes\n";

const THREE_REPORTED: &str = "mobile 1 sent 3\n052471\n0305\n030f\nmobile 1 received 0\n\
    conn 1 taken 3\n052471\n0345\n038f\nconn 1 accepted 3\n052471\n0305\n030f\n\
    conn 1 unnumbered 0\nevents not taken 0\n";

const SIX_MESSAGES: &[u8] = b"upper 1 0 0301\nairup 1 0\nairack 1 0\nswitchtakes\n\
    upper 1 0 0301\nairup 1 0\nairack 1 0\nswitchtakes\nupper 1 0 0301\nairup 1 0\nairack 1 0\n\
    switchtakes\n\
    upper 1 0 0301\nairup 1 0\nairack 1 0\nswitchtakes\nupper 1 0 0301\nairup 1 0\nairack 1 0\n\
    switchtakes\n\
    upper 1 0 0301\nairup 1 0\nairack 1 0\nswitchtakes\n";

const SIX_REPORTED: &str =
    "mobile 1 sent 6\n0301\n0301\n0301\n0301\n0301\n0301\nmobile 1 received 0\n\
    conn 1 taken 6\n0301\n0341\n0381\n03c1\n0301\n0341\n\
    conn 1 accepted 6\n0301\n0301\n0301\n0301\n0301\n0301\nconn 1 unnumbered 0\n\
    events not taken 0\n";

const STREAMS: &[Row] = &[
    (FRAMES, 0, FRAMES_NAMED, ""),
    (b"", 0, "", ""),
    (
        &[0x00, 0x01, 0xfe, 0x01, 0x08, 0x01, 0x00],
        3,
        "fe PONG\nfault F1\n",
        "",
    ),
];

/// Frames of each stream, and the beginning of a frame.
const FRAMES: &[u8] = &[
    0x00, 0x01, 0xfe, 0x00, 0x00, 0x00, 0xfe, 0x00, 0x0b, 0x00, 0x03, 0x02, 0x01, 0x41, 0x02, 0x00,
    0x0b, 0x00, 0x02, 0x03, 0x45, 0x00, 0x07, 0xfd, 0x05, 0x80, 0x00, 0x01, 0x00, 0x00, 0x01, 0x00,
    0x00, 0xfd, 0x00, 0x00, 0xff, 0x00, 0x00, 0x01, 0x00, 0x00, 0x00, 0x00, 0x01, 0xff,
];

const FRAMES_NAMED: &str =
    "fe PING\nfe CCM\n00 DATA INDICATION\nfd RLC\nfd fault A1\nff OML\n01 unknown\n\
    00 fault S1\nrest 3\n";

/// A reader that gives its octets in pieces. After its last octet, it gives nothing or fails. If
/// `is_interrupted`, every second read is interrupted, beginning with the first.
#[derive(Drop)]
struct Pieces<'a> {
    octets: &'a [u8],
    size: usize,
    fails: bool,
    is_interrupted: bool,
    is_next: bool,
}

impl<'a> Pieces<'a> {
    fn new(octets: &'a [u8], size: usize) -> Pieces<'a> {
        Pieces {
            octets,
            size,
            fails: false,
            is_interrupted: false,
            is_next: false,
        }
    }
}

impl Read for Pieces<'_> {
    fn read(&mut self, buf: &mut [u8]) -> io::Result<usize> {
        self.is_next = self.is_interrupted && !self.is_next;
        if self.is_next {
            return Err(io::Error::from(ErrorKind::Interrupted));
        }
        if self.octets.is_empty() && self.fails {
            return Err(io::Error::from(ErrorKind::BrokenPipe));
        }
        let count = self.octets.len().min(self.size).min(buf.len());
        let (front, back) = self.octets.split_at(count);
        buf[..count].copy_from_slice(front);
        self.octets = back;
        Ok(count)
    }
}

/// A writer that takes some octets, and then fails or takes no more. It counts its flushes, and the
/// octets that it took after the last flush. Its log has the octets in order, with a bar for each
/// flush that found octets waiting.
#[derive(Drop)]
struct Paper {
    taken: Vec<u8>,
    log: Vec<u8>,
    room: usize,
    fails: bool,
    flushes: usize,
    waiting: usize,
}

impl Paper {
    fn new(alloc: Global, room: usize, fails: bool) -> Paper {
        Paper {
            taken: Vec::new(alloc),
            log: Vec::new(alloc),
            room,
            fails,
            flushes: 0,
            waiting: 0,
        }
    }
}

impl Write for Paper {
    fn write(&mut self, buf: &[u8]) -> io::Result<usize> {
        let count = self.room.min(buf.len());
        if count == 0 && self.fails {
            return Err(io::Error::from(ErrorKind::StorageFull));
        }
        self.taken.extend_from_slice(&buf[..count])?;
        self.log.extend_from_slice(&buf[..count])?;
        self.room -= count;
        self.waiting = self.waiting.saturating_add(count);
        Ok(count)
    }

    fn flush(&mut self) -> io::Result<()> {
        self.flushes = self.flushes.saturating_add(1);
        if self.waiting > 0 {
            self.log.extend_from_slice(b"|")?;
        }
        self.waiting = 0;
        Ok(())
    }
}

/// The answer of a command to an input: the status, the output and the errors.
#[derive(Drop)]
struct Answer {
    status: u8,
    output: Paper,
    errors: Vec<u8>,
}

/// Runs a command.
fn run(alloc: Global, command: Command, mut input: Pieces<'_>, mut output: Paper) -> Answer {
    let mut errors = Vec::new(alloc);
    let status = match command {
        Command::Replay(settings, breaks) => replay(
            alloc,
            settings,
            breaks,
            &mut input,
            &mut output,
            &mut errors,
        ),
        Command::Decode => decode(alloc, &mut input, &mut output, &mut errors),
    };
    Answer {
        status,
        output,
        errors,
    }
}

/// Asserts the status, the output and the errors of a row.
fn answers(rt: &(impl Abort + AllocGlobal), command: Command, row: Row<'_>, input: Pieces<'_>) {
    let (_, status, text, shown) = row;
    let output = Paper::new(rt.alloc(), usize::MAX, false);
    let found = run(rt.alloc(), command, input, output);
    assert!(rt; found.status == status, "status {}", found.status);
    assert!(rt; found.output.taken.as_slice() == text.as_bytes());
    assert!(rt; found.errors.as_slice() == shown.as_bytes());
    assert!(rt; found.output.waiting == 0);
}

/// Asserts the rows over inputs that arrive in pieces of several sizes.
fn answers_in_pieces(rt: &(impl Abort + AllocGlobal), command: Command, rows: &[Row<'_>]) {
    for row in rows {
        for size in [1, 7, 65536] {
            answers(rt, command, *row, Pieces::new(row.0, size));
        }
    }
}

/// Asserts the row of each command.
pub(crate) fn all_answer(rt: &(impl Abort + AllocGlobal), rows: &[(Command, Row)]) {
    for (command, row) in rows {
        answers(rt, *command, *row, Pieces::new(row.0, 65536));
    }
}

#[test]
fn scripts_are_reported_however_they_come(rt: HostRuntime) {
    answers_in_pieces(&rt, FIXED_WORLD, SCRIPTS);
}

#[test]
fn frames_are_named_however_they_come(rt: HostRuntime) {
    answers_in_pieces(&rt, Command::Decode, STREAMS);
}

/// A command, and its result for an input whose reader fails at its end. The frames that were read
/// before the failure are named. A bad line before the failure takes precedence.
const BROKEN: &[(Command, Row)] = &[
    (FIXED_WORLD, (THREE_MESSAGES, 3, "", FAILED)),
    (
        FIXED_WORLD,
        (b"bad\nhandle\n", 2, "", "bsc: line 1: bad event\n"),
    ),
    (
        Command::Decode,
        (&[0x00, 0x01, 0xfe, 0x00, 0x00], 3, "fe PING\n", FAILED),
    ),
];

const FAILED: &str = "bsc: device failed\n";

#[test]
fn a_reader_that_fails_in_mid_stream_is_reported(rt: HostRuntime) {
    for (command, row) in BROKEN {
        let mut input = Pieces::new(row.0, 3);
        input.fails = true;
        answers(&rt, *command, *row, input);
    }
}

/// A command, and its result for an input that must be read to its end.
const WHOLE: [(Command<'static>, Row<'static>); 2] = [
    (FIXED_WORLD, (THREE_MESSAGES, 0, THREE_REPORTED, "")),
    (Command::Decode, (FRAMES, 0, FRAMES_NAMED, "")),
];

#[test]
fn an_interrupted_read_is_tried_again(rt: HostRuntime) {
    for (command, row) in WHOLE {
        let mut input = Pieces::new(row.0, 7);
        input.is_interrupted = true;
        answers(&rt, command, row, input);
    }
}

#[test]
fn a_writer_that_fails_in_mid_stream_is_reported(rt: HostRuntime) {
    for (command, row) in WHOLE {
        for fails in [true, false] {
            let output = Paper::new(rt.alloc(), 10, fails);
            let found = run(rt.alloc(), command, Pieces::new(row.0, 65536), output);
            assert!(rt; found.status == 3 && found.errors.as_slice() == FAILED.as_bytes());
        }
    }
}

#[test]
fn output_is_flushed_at_the_end_and_by_decode_after_each_read(rt: HostRuntime) {
    for (command, (octets, ..)) in WHOLE {
        let output = Paper::new(rt.alloc(), usize::MAX, false);
        let found = run(rt.alloc(), command, Pieces::new(octets, 1), output);
        assert!(rt; found.status == 0 && found.output.waiting == 0 && found.output.flushes > 0);
        let replays = matches!(command, Command::Replay(..));
        assert!(rt; replays || found.output.flushes >= octets.len());
    }
}

/// A command, an input, and the log of the output. The first two rows have the lines of breaks; in
/// the second row, no world is made anew for the second place. The other rows have the names of
/// frames and of faults, and the line of a frame that is too long.
const LOGS: [(Command<'static>, &[u8], &str); 4] = [
    (
        Command::Replay(Some(USUAL), Some("1")),
        b"connect 1 1 052471 y\nbasepush 1\n",
        "break 0 accepted 0 sent 0\n|break 1 accepted 0 sent 1\n|break 2 accepted 0 sent 1\n|",
    ),
    (
        Command::Replay(Some(USUAL), Some("2")),
        b"connect 1 1 052471 y\nbasepush 1\n",
        "break 0 accepted 0 sent 1\n|break 1 accepted 0 sent 1\n|break 2 accepted 0 sent 1\n|",
    ),
    (
        Command::Decode,
        FRAMES,
        "fe PING\n|fe CCM\n|00 DATA INDICATION\n|fd RLC\n|fd fault A1\n|ff OML\n|01 unknown\n|\
            00 fault S1\n|rest 3\n|",
    ),
    (
        Command::Decode,
        &[0x00, 0x01, 0xfe, 0x01, 0x08, 0x01, 0x00],
        "fe PONG\n|fault F1\n|",
    ),
];

#[test]
fn each_line_is_flushed_before_the_next_is_made(rt: HostRuntime) {
    for (command, octets, log) in LOGS {
        let output = Paper::new(rt.alloc(), usize::MAX, false);
        let found = run(rt.alloc(), command, Pieces::new(octets, 1), output);
        assert!(rt; found.output.log.as_slice() == log.as_bytes());
    }
}
