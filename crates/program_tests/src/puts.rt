// SPDX-License-Identifier: MIT OR Apache-2.0
//! Compares `put` with a plain loop of writes, because no contract states which fault results, or
//! how often a device is asked. Compares `put_joined` with puts of the parts if the first write is
//! interrupted: the outcome is the same.
use program_io::{put, put_joined};
use std::io::{self, ErrorKind, Write};
use std::test::Fail;

/// How a device answers a write.
#[derive(Clone, Copy)]
enum Answer {
    TakesAll,
    TakesOne,
    TakesNone,
    IsInterrupted,
    Fails,
}

const ANSWERS: [Answer; 5] = [
    Answer::TakesAll,
    Answer::TakesOne,
    Answer::TakesNone,
    Answer::IsInterrupted,
    Answer::Fails,
];

/// The place of the interrupted write in `ANSWERS`.
const INTERRUPTED: usize = 3;

/// The number of lists of five answers. Each number below this one stands for a list.
const LISTS: usize = 3125;

const TEXT: &[u8] = &[0x17, 0x2b, 0x05, 0xff];

/// A device with a list of answers. The first answer is the lowest digit of `answers` in base five.
/// After the list, the device takes all. The mark depends on the octets that the device took, in
/// order.
#[derive(Drop)]
struct Device {
    answers: usize,
    tries: usize,
    mark: u64,
}

impl Write for Device {
    fn write(&mut self, buf: &[u8]) -> io::Result<usize> {
        let answer = ANSWERS[self.answers % ANSWERS.len()];
        self.answers /= ANSWERS.len();
        self.tries = self.tries.saturating_add(1);
        let count = match answer {
            Answer::TakesAll => buf.len(),
            Answer::TakesOne => buf.len().min(1),
            Answer::TakesNone => 0,
            Answer::IsInterrupted => return Err(io::Error::from(ErrorKind::Interrupted)),
            Answer::Fails => return Err(io::Error::from(ErrorKind::BrokenPipe)),
        };
        for octet in &buf[..count] {
            self.mark = self
                .mark
                .wrapping_mul(257)
                .wrapping_add(u64::from(*octet) + 1);
        }
        Ok(count)
    }

    fn flush(&mut self) -> io::Result<()> {
        Ok(())
    }
}

/// A plain loop of writes, with which `put` is compared.
fn put_in_a_loop<W: Write>(output: &mut W, octets: &[u8]) -> io::Result<()> {
    let mut rest = octets;
    for _ in 0..u64::MAX {
        if rest.is_empty() {
            return Ok(());
        }
        match output.write(rest) {
            Ok(0) => return Err(io::Error::from(ErrorKind::WriteZero)),
            Ok(count) => rest = &rest[count..],
            Err(error) if error.kind() == ErrorKind::Interrupted => {}
            Err(error) => return Err(error),
        }
    }
    Err(io::Error::from(ErrorKind::TimedOut))
}

/// The fault of a put, how often the device was asked, and the mark of the octets that the device
/// took.
type Outcome = (Option<ErrorKind>, usize, u64);

fn outcome(put: io::Result<()>, device: &Device) -> Outcome {
    (
        put.err().map(|error| error.kind()),
        device.tries,
        device.mark,
    )
}

fn answering(answers: usize) -> Device {
    Device {
        answers,
        tries: 0,
        mark: 0,
    }
}

#[test]
fn put_ends_as_its_loop_did(rt: HostRuntime) -> Result<(), Fail> {
    for answers in 0..LISTS {
        for length in 0..=TEXT.len() {
            let text = &TEXT[..length];
            let (mut one, mut other) = (answering(answers), answering(answers));
            let wanted = put_in_a_loop(&mut one, text);
            let got = put(&mut other, text);
            assert_eq!(rt; outcome(got, &other), outcome(wanted, &one));
        }
    }
    Ok(())
}

/// Puts the text in parts of 1, 2 and 1 octets.
fn put_parts_in_a_loop<W: Write>(output: &mut W) -> io::Result<()> {
    for part in [&TEXT[..1], &TEXT[1..3], &TEXT[3..]] {
        put_in_a_loop(output, part)?;
    }
    Ok(())
}

#[test]
fn a_joined_text_is_put_in_parts_behind_an_interrupted_first_write(
    rt: HostRuntime,
) -> Result<(), Fail> {
    for answers in 0..LISTS {
        if answers % ANSWERS.len() != INTERRUPTED {
            continue;
        }
        let (mut one, mut other) = (answering(answers / ANSWERS.len()), answering(answers));
        let wanted = put_parts_in_a_loop(&mut one);
        one.tries = one.tries.saturating_add(1);
        let got = put_joined(&mut other, TEXT, &[1, 2]);
        assert_eq!(rt; outcome(got, &other), outcome(wanted, &one));
    }
    Ok(())
}
