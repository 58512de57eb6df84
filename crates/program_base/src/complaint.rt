// SPDX-License-Identifier: MIT OR Apache-2.0
use crate::hexadecimal::Hexadecimal;
use crate::line_words::Words;
use crate::script::{Action, Kind, action_in, kind_in};
use crate::value::{answer_in, number_in, sapi_in};
use std::{fmt, str};

/// What is wrong with a script line that isn't the text of an event, in a world of `cells` cells.
#[derive(Clone, Copy)]
pub struct Complaint {
    cells: u16,
    wrong: Wrong,
}

/// The first thing that is wrong with a line.
#[derive(Clone, Copy)]
enum Wrong {
    NotText,
    CarriageReturn,
    Empty,
    Spaces,
    NoEvent,
    NoAction,
    WordMissing,
    WordTooMany,
    /// A word isn't a value of the kind `Sign`. The number is the word's value, if the word is a
    /// number below 2 to the 32.
    Word(Sign, Option<u32>),
}

/// The kinds of value that a word of a line can have.
#[derive(Clone, Copy)]
enum Sign {
    Mobile,
    Station,
    Source,
    Number,
    Sapi,
    Answer,
    Octets,
}

/// What is wrong with a line of a script; `None` if the line is the text of an event.
pub(crate) fn complaint_of(cells: u16, line: &[u8]) -> Option<Complaint> {
    match wrong_in_line(cells, line) {
        Ok(()) => None,
        Err(wrong) => Some(Complaint { cells, wrong }),
    }
}

fn wrong_in_line(cells: u16, line: &[u8]) -> Result<(), Wrong> {
    if str::from_utf8(line).is_err() {
        return Err(Wrong::NotText);
    }
    if line.is_empty() {
        return Err(Wrong::Empty);
    }
    if line.contains(&b'\r') {
        return Err(Wrong::CarriageReturn);
    }
    if has_empty_word(line) {
        return Err(Wrong::Spaces);
    }
    wrong_in_words(cells, Words::of(line))
}

/// Whether a line begins or ends with a space, or has two spaces in a row.
fn has_empty_word(line: &[u8]) -> bool {
    let mut is_behind_space = true;
    for octet in line {
        let is_space = *octet == b' ';
        if is_space && is_behind_space {
            return true;
        }
        is_behind_space = is_space;
    }
    is_behind_space
}

fn wrong_in_words(cells: u16, mut words: Words<'_>) -> Result<(), Wrong> {
    let signs = signs_at(&mut words)?;
    for sign in signs {
        let Ok(word) = words.word() else {
            return Err(Wrong::WordMissing);
        };
        if !says(*sign, cells, word) {
            return Err(Wrong::Word(*sign, number_in(word, 0, u32::MAX).ok()));
        }
    }
    match words.end() {
        Ok(()) => Ok(()),
        Err(_) => Err(Wrong::WordTooMany),
    }
}

/// Whether `word` is a value of the kind `sign` in a world of `cells` cells.
fn says(sign: Sign, cells: u16, word: &[u8]) -> bool {
    match sign {
        Sign::Mobile => number_in(word, 1, 255).is_ok(),
        Sign::Station => number_in(word, 1, u32::from(cells)).is_ok(),
        Sign::Source => number_in(word, 0, u32::from(cells)).is_ok(),
        Sign::Number => number_in(word, 0, u32::MAX).is_ok(),
        Sign::Sapi => sapi_in(word).is_ok(),
        Sign::Answer => answer_in(word).is_ok(),
        Sign::Octets => Hexadecimal::read(word).is_ok(),
    }
}

/// Reads the name of the event and, after `switchdoes`, the name of the action. Answers the kinds
/// of value that the words after these names must have.
fn signs_at(words: &mut Words<'_>) -> Result<&'static [Sign], Wrong> {
    let Ok(name) = words.word() else {
        return Err(Wrong::NoEvent);
    };
    match kind_in(name) {
        Ok(Kind::SwitchDoes) => action_signs_at(words),
        Ok(kind) => Ok(signs_of(kind)),
        Err(_) => Err(Wrong::NoEvent),
    }
}

fn action_signs_at(words: &mut Words<'_>) -> Result<&'static [Sign], Wrong> {
    let Ok(name) = words.word() else {
        return Err(Wrong::NoAction);
    };
    match action_in(name) {
        Ok(Action::Assign | Action::Clear) => Ok(&[Sign::Number]),
        Ok(Action::Dtap) => Ok(&[Sign::Number, Sign::Sapi, Sign::Octets]),
        Err(_) => Err(Wrong::NoAction),
    }
}

fn signs_of(kind: Kind) -> &'static [Sign] {
    match kind {
        Kind::Upper => &[Sign::Mobile, Sign::Sapi, Sign::Octets],
        Kind::Connect => &[Sign::Mobile, Sign::Station, Sign::Octets, Sign::Answer],
        Kind::AirUp | Kind::AirAck => &[Sign::Mobile, Sign::Sapi],
        Kind::AirDown | Kind::AirDownLost => &[Sign::Mobile],
        Kind::Move | Kind::Touch | Kind::Arrive | Kind::Return => &[Sign::Mobile],
        Kind::BaseTakes => &[Sign::Station],
        Kind::BasePush | Kind::BaseDown => &[Sign::Source],
        Kind::Handle | Kind::SwitchTakes | Kind::SwitchDoes => &[],
        Kind::Tick => &[Sign::Number],
        Kind::Report => &[Sign::Mobile, Sign::Octets],
    }
}

impl fmt::Display for Complaint {
    fn fmt<W: fmt::Write>(&self, f: &mut fmt::Formatter<W>) -> fmt::Result {
        let cells = self.cells;
        match self.wrong {
            Wrong::NotText => f.write_str("it isn't UTF-8"),
            Wrong::CarriageReturn => f.write_str("a carriage return"),
            Wrong::Empty => f.write_str("an empty line"),
            Wrong::Spaces => f.write_str("one space parts two words"),
            Wrong::NoEvent => f.write_str("no event has this name"),
            Wrong::NoAction => f.write_str("the switch does assign, clear or dtap"),
            Wrong::WordMissing => f.write_str("a word is missing"),
            Wrong::WordTooMany => f.write_str("a word too many"),
            Wrong::Word(Sign::Mobile, _) => f.write_str("a mobile is 1 to 255"),
            Wrong::Word(Sign::Station, Some(number)) => write!(f, "station {number} of {cells}"),
            Wrong::Word(Sign::Station, None) => write!(f, "a station is 1 to {cells}"),
            Wrong::Word(Sign::Source, Some(number)) => write!(f, "source {number} of {cells}"),
            Wrong::Word(Sign::Source, None) => write!(f, "a source is 0 to {cells}"),
            Wrong::Word(Sign::Number, _) => f.write_str("a number is 0 to 4294967295"),
            Wrong::Word(Sign::Sapi, _) => f.write_str("SAPI is 0 or 3"),
            Wrong::Word(Sign::Answer, _) => f.write_str("the answer is y or n"),
            Wrong::Word(Sign::Octets, _) => f.write_str("octets are pairs of hexadecimal digits"),
        }
    }
}
