// SPDX-License-Identifier: MIT OR Apache-2.0
ghost use Rattle.std.specs.Prelude.{◌≡◌, true, is_some, unwrap_or, IfOk};
ghost use Rattle.hex.specs.Hex.{hex_digit_value, is_hex_digit};
ghost use Rattle.std.specs.List.{list_all};
ghost use Rattle.program_base.specs.Words.{Reads, octets_in};

use crate::line_fault::BadEvent;
use octets::{Memory, Octets};
use std::alloc::Global;
use std::marker::Model;

/// The number of octets that are looked up before each test whether all of them were digits.
const PIECE: usize = 64;

/// Octets, at least one, in the form of a script line: pairs of hexadecimal digits of either case.
#[derive(Drop)]
pub(crate) struct Hexadecimal<'a> {
    digits: &'a [u8],
}

impl<'a> Model for Hexadecimal<'a> {
    ghost use Rattle.std.specs.Prelude.{◌≡◌, List, [], ℕ, true, is_some, unwrap_or};
    ghost use Rattle.program_base.specs.Words.{octets_in};

    ghost Value = { List ℕ };

    ghost view = { λ octets. unwrap_or (octets_in octets.digits.now) [] };

    ghost invariant = { λ octets. is_some (octets_in octets.digits.now) ≡ true };
}

impl<'a> Hexadecimal<'a> {
    /// Reads a word as octets. Answers `BadEvent` if the word is empty or isn't pairs of
    /// hexadecimal digits.
    pub(crate) fn read(word: &'a [u8]) -> Result<Hexadecimal<'a>, BadEvent>
        ensures { Reads (λ octets. octets) result (octets_in word.now) }
    {
        if !is_hexadecimal(word) {
            return Err(BadEvent);
        }
        Ok(Hexadecimal { digits: word })
    }

    /// Decodes the octets. Fails only on allocation failure.
    pub(crate) fn decode(self, alloc: Global) -> Result<Octets, Memory>
        ensures { IfOk result (λ octets. octets ≡ self.entry) }
    {
        let octets = decode_digits(alloc, self.digits)?;
        Ok(Octets::new(octets))
    }
}

/// The octets that the digits write. The memory for the octets is allocated at once; this is the
/// only step that can fail.
fn decode_digits(alloc: Global, digits: &[u8]) -> Result<Vec<u8>, Memory>
    requires { is_some (octets_in digits.now) ≡ true }
    ensures { IfOk result (λ octets. octets_in digits.now ≡ Some octets.items) }
{
    let mut octets = Vec::with_capacity(alloc, digits.len() / 2)?;
    let mut rest = digits;
    while let [high, low, behind @ ..] = rest {
        octets.push_reserved(16 * digit_value(*high) + digit_value(*low));
        rest = behind;
    }
    Ok(octets)
}

/// Whether the word is pairs of hexadecimal digits, at least one pair.
fn is_hexadecimal(word: &[u8]) -> bool
    ensures { result ≡ is_some (octets_in word.now) }
{
    !word.is_empty() && word.len() % 2 == 0 && all_hexadecimal(word)
}

/// Whether each octet is a digit. The octets are looked up in pieces, up to the first piece with an
/// octet that is no digit.
fn all_hexadecimal(octets: &[u8]) -> bool
    ensures { result ≡ list_all is_hex_digit octets.now }
{
    let mut rest = octets;
    while rest.len() > PIECE {
        let (piece, behind) = rest.split_at(PIECE);
        if !all_digits(piece) {
            return false;
        }
        rest = behind;
    }
    all_digits(rest)
}

/// Whether each octet is a digit. All octets are looked up, so that no look-up waits for the
/// outcome of another.
fn all_digits(octets: &[u8]) -> bool
    ensures { result ≡ list_all is_hex_digit octets.now }
{
    let mut values = 0;
    for octet in octets {
        values |= digit_value(*octet);
    }
    values < 16
}

/// The value of a hexadecimal digit, or 16 if the octet is no digit.
fn digit_value(octet: u8) -> u8
    ensures { result ≡ unwrap_or (hex_digit_value octet) 16 }
{
    DIGIT_VALUES[usize::from(octet)]
}

/// The value of each octet as a digit of either case, or 16 if the octet is no digit.
#[rattlefmt::skip]
static DIGIT_VALUES: [u8; 256] = [
    16, 16, 16, 16, 16, 16, 16, 16, 16, 16, 16, 16, 16, 16, 16, 16,
    16, 16, 16, 16, 16, 16, 16, 16, 16, 16, 16, 16, 16, 16, 16, 16,
    16, 16, 16, 16, 16, 16, 16, 16, 16, 16, 16, 16, 16, 16, 16, 16,
     0,  1,  2,  3,  4,  5,  6,  7,  8,  9, 16, 16, 16, 16, 16, 16,
    16, 10, 11, 12, 13, 14, 15, 16, 16, 16, 16, 16, 16, 16, 16, 16,
    16, 16, 16, 16, 16, 16, 16, 16, 16, 16, 16, 16, 16, 16, 16, 16,
    16, 10, 11, 12, 13, 14, 15, 16, 16, 16, 16, 16, 16, 16, 16, 16,
    16, 16, 16, 16, 16, 16, 16, 16, 16, 16, 16, 16, 16, 16, 16, 16,
    16, 16, 16, 16, 16, 16, 16, 16, 16, 16, 16, 16, 16, 16, 16, 16,
    16, 16, 16, 16, 16, 16, 16, 16, 16, 16, 16, 16, 16, 16, 16, 16,
    16, 16, 16, 16, 16, 16, 16, 16, 16, 16, 16, 16, 16, 16, 16, 16,
    16, 16, 16, 16, 16, 16, 16, 16, 16, 16, 16, 16, 16, 16, 16, 16,
    16, 16, 16, 16, 16, 16, 16, 16, 16, 16, 16, 16, 16, 16, 16, 16,
    16, 16, 16, 16, 16, 16, 16, 16, 16, 16, 16, 16, 16, 16, 16, 16,
    16, 16, 16, 16, 16, 16, 16, 16, 16, 16, 16, 16, 16, 16, 16, 16,
    16, 16, 16, 16, 16, 16, 16, 16, 16, 16, 16, 16, 16, 16, 16, 16,
];
