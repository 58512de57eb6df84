// SPDX-License-Identifier: MIT OR Apache-2.0
ghost use Rattle.std.specs.Prelude.{◌≡◌, ◌≢◌, ◌≤◌, [], ◌∷◌, option_map};
ghost use Rattle.std.specs.Prelude.{IfOk};
ghost use Rattle.std.specs.List.{slice_split};
ghost use Rattle.memchr.specs.Find.{IsFirstByte, is_byte};
ghost use Rattle.program_base.specs.WordsLeft.{is_space, words_left};
ghost use Rattle.program_base.specs.Words.{word_at, value_at, number_in, mobile_in, station_in};
ghost use Rattle.program_base.specs.Words.{source_in, any_number_in, sapi_in, answer_in, octets_in};
ghost use Rattle.program_base.specs.Words.{end_of, Reads, ReadsNext};

use crate::hexadecimal::Hexadecimal;
use crate::line_fault::BadEvent;
use crate::value::{answer_in, number_in, sapi_in};
use dtap_codec::Sapi;
use memchr::memchr;
use std::marker::Model;

/// The octets of the longest name that a line begins with, and of the space after it.
const NAME_AND_SPACE: usize = 12;

/// The words of a script line that are still to be read. One space separates two words.
#[derive(Drop)]
pub(crate) struct Words<'a> {
    /// The line from the next word on, or `None` if all words were read.
    rest: Option<&'a [u8]>,
}

impl<'a> Model for Words<'a> {
    ghost use Rattle.std.specs.Prelude.{List, ℕ, option_map};
    ghost use Rattle.program_base.specs.WordsLeft.{words_left};

    ghost Value = { List (List ℕ) };

    ghost view = { λ words. words_left (option_map (λ line. line.now) words.rest) };
}

impl<'a> Words<'a> {
    /// The words of a line.
    pub(crate) fn of(line: &'a [u8]) -> Words<'a>
        ensures { result ≡ slice_split is_space line.now }
    {
        Words { rest: Some(line) }
    }

    /// Reads the next word, or answers `BadEvent` if none is left.
    pub(crate) fn word(&mut self) -> Result<&'a [u8], BadEvent>
        ensures { ReadsNext (λ word. word.now) result (word_at self.old) self.new }
    {
        let Some(line) = self.rest else {
            return Err(BadEvent);
        };
        let (word, rest) = split_first(line);
        self.rest = rest;
        Ok(word)
    }

    /// Reads the next word as a decimal number from `low` to `high`. Answers `BadEvent` if the word
    /// is missing or isn't such a number.
    pub(crate) fn number(&mut self, low: u32, high: u32) -> Result<u32, BadEvent>
        ensures said { ReadsNext (λ n. n) result (value_at (number_in low high) self.old) self.new }
        ensures range { IfOk result (λ n. (low ≤ n) × (n ≤ high)) }
    {
        number_in(self.word()?, low, high)
    }

    /// Reads the next word as the number of a mobile, from 1 to 255.
    pub(crate) fn mobile(&mut self) -> Result<u8, BadEvent>
        ensures { ReadsNext (λ mobile. mobile) result (value_at mobile_in self.old) self.new }
    {
        let mobile = self.number(1, 255)?;
        Ok(mobile as u8)
    }

    /// Reads the next word as the number of a station, from 1 to `cells`.
    pub(crate) fn station(&mut self, cells: u16) -> Result<u16, BadEvent>
        ensures { ReadsNext (λ station. station) result
            (value_at (station_in cells) self.old) self.new }
    {
        let station = self.number(1, u32::from(cells))?;
        Ok(station as u16)
    }

    /// Reads the next word as the number of a source, from 0 to `cells`.
    pub(crate) fn source(&mut self, cells: u16) -> Result<u16, BadEvent>
        ensures { ReadsNext (λ source. source) result
            (value_at (source_in cells) self.old) self.new }
    {
        let source = self.number(0, u32::from(cells))?;
        Ok(source as u16)
    }

    /// Reads the next word as any number below 2 to the 32.
    pub(crate) fn any_number(&mut self) -> Result<u32, BadEvent>
        ensures { ReadsNext (λ n. n) result (value_at any_number_in self.old) self.new }
    {
        self.number(0, u32::MAX)
    }

    /// Reads the next word as a SAPI.
    pub(crate) fn sapi(&mut self) -> Result<Sapi, BadEvent>
        ensures { ReadsNext (λ sapi. sapi) result (value_at sapi_in self.old) self.new }
    {
        sapi_in(self.word()?)
    }

    /// Reads the next word as yes (`y`) or no (`n`).
    pub(crate) fn answer(&mut self) -> Result<bool, BadEvent>
        ensures { ReadsNext (λ answer. answer) result (value_at answer_in self.old) self.new }
    {
        answer_in(self.word()?)
    }

    /// Reads the next word as octets in hexadecimal digits.
    pub(crate) fn octets(&mut self) -> Result<Hexadecimal<'a>, BadEvent>
        ensures { ReadsNext (λ octets. octets) result (value_at octets_in self.old) self.new }
    {
        Hexadecimal::read(self.word()?)
    }

    /// Answers `BadEvent` if a word is left.
    pub(crate) fn end(&self) -> Result<(), BadEvent>
        ensures { Reads (λ _. tt) result (end_of self.now) }
    {
        match self.rest {
            None => Ok(()),
            Some(_) => Err(BadEvent),
        }
    }
}

/// The first word of a line, and the octets after the space that ends it. The second is `None` if
/// the line has no space.
fn split_first(line: &[u8]) -> (&[u8], Option<&[u8]>)
    ensures { slice_split is_space line.now
        ≡ result.0.now ∷ words_left (option_map (λ rest. rest.now) result.1) }
{
    match first_space(line) {
        Some(end) => (&line[..end], Some(&line[end + 1..])),
        None => (line, None),
    }
}

/// The place of the first space of a line, or `None` if there is no space. Most words end among the
/// first octets of the line. These octets are compared one by one, which costs less than a call of
/// `memchr`.
fn first_space(line: &[u8]) -> Option<usize>
    ensures { IsFirstByte (is_byte 32) line.now result }
{
    for at in 0..line.len().min(NAME_AND_SPACE) {
        if line[at] == b' ' {
            return Some(at);
        }
    }
    if line.len() <= NAME_AND_SPACE {
        return None;
    }
    memchr(b' ', line)
}
