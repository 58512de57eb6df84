// SPDX-License-Identifier: MIT OR Apache-2.0
use crate::draw::Draw;
use octets::Memory;
use std::alloc::Global;

const DIGITS: [u8; 16] = *b"0123456789abcdef";

/// The decimal units of the numbers of mobiles, cells, connections and milliseconds.
const UNITS: [u32; 5] = [10_000, 1_000, 100, 10, 1];

/// The lines of a script. They are assembled octet by octet, which takes little time.
#[derive(Drop)]
pub(crate) struct Lines {
    text: Vec<u8>,
    count: u32,
}

impl Lines {
    pub(crate) fn new(alloc: Global) -> Lines {
        Lines {
            text: Vec::new(alloc),
            count: 0,
        }
    }

    /// How many lines there are.
    pub(crate) fn count(&self) -> u32 {
        self.count
    }

    pub(crate) fn into_text(self) -> Vec<u8> {
        let Lines { text, .. } = self;
        text
    }

    /// Appends a whole line: a text of one or two words, and then numbers.
    pub(crate) fn put(&mut self, word: &str, numbers: &[u32]) -> Result<(), Memory> {
        self.begin(word, numbers)?;
        self.end("")
    }

    /// Begins a line with a text of one or two words, and then numbers.
    pub(crate) fn begin(&mut self, word: &str, numbers: &[u32]) -> Result<(), Memory> {
        self.text.extend_from_slice(word.as_bytes())?;
        for number in numbers {
            self.text.push(b' ')?;
            self.number(*number)?;
        }
        Ok(())
    }

    /// Appends octets as the next word of a line.
    pub(crate) fn octets(&mut self, octets: &[u8]) -> Result<(), Memory> {
        self.text.push(b' ')?;
        for octet in octets {
            self.text.push(DIGITS[usize::from(*octet >> 4)])?;
            self.text.push(DIGITS[usize::from(*octet & 15)])?;
        }
        Ok(())
    }

    /// Appends a layer 3 message as the next word of a line. The message begins with the octets
    /// `first` and `second`.
    pub(crate) fn message(&mut self, first: u8, second: u8, draw: &mut Draw) -> Result<(), Memory> {
        let mut octets = [0; 251];
        let size = draw.message_size();
        draw.fill(&mut octets[..size]);
        octets[0] = first;
        octets[1] = second;
        self.octets(&octets[..size])
    }

    /// Ends a line with the text `last`.
    pub(crate) fn end(&mut self, last: &str) -> Result<(), Memory> {
        self.text.extend_from_slice(last.as_bytes())?;
        self.text.push(b'\n')?;
        self.count = self.count.saturating_add(1);
        Ok(())
    }

    fn number(&mut self, number: u32) -> Result<(), Memory> {
        let mut is_begun = false;
        for unit in UNITS {
            let digit = number / unit % 10;
            is_begun = is_begun || digit > 0 || unit == 1;
            if is_begun {
                self.text.push(DIGITS[digit as usize])?;
            }
        }
        Ok(())
    }
}
