// SPDX-License-Identifier: MIT OR Apache-2.0
ghost use Rattle.std.specs.Prelude.{◌≡◌, ◌≤◌, ◌^◌, true, IfOk, MatchResult};
ghost use Rattle.program_base.specs.Words.{Reads, is_decimal, decimal_after, number_in, source_in};
ghost use Rattle.program_base.specs.Words.{sapi_in, answer_in};

use crate::line_fault::BadEvent;
use dtap_codec::Sapi;

/// Reads a decimal number from `low` to `high`: digits alone, leading zeros allowed. Answers
/// `BadEvent` if the word isn't such a number.
pub(crate) fn number_in(word: &[u8], low: u32, high: u32) -> Result<u32, BadEvent>
    ensures number { Reads (λ n. n) result (number_in low high word.now) }
    ensures range { IfOk result (λ n. (low ≤ n) × (n ≤ high)) }
{
    let number = decimal(word)?;
    if number < low || high < number {
        return Err(BadEvent);
    }
    Ok(number)
}

/// Reads the number of a source: 0 for the switch, 1 to `cells` for a station. The word may have
/// only digits; leading zeros are allowed. `None` if the word isn't such a number.
pub fn read_source(cells: u16, word: &str) -> Option<u16>
    ensures { result ≡ source_in cells word.now }
{
    match number_in(word.as_bytes(), 0, u32::from(cells)) {
        Ok(number) => Some(number as u16),
        Err(BadEvent) => None,
    }
}

/// Reads a word of decimal digits as a number below 2 to the 32, or answers `BadEvent` if the word
/// isn't such a number. The word is read once, and only up to the octet that shows this.
#[tactic(auto, using(crate::proofs::Decimals::decimal_grows))]
fn decimal(word: &[u8]) -> Result<u32, BadEvent>
    ensures { MatchResult result (λ n. (is_decimal word.now ≡ true) × (decimal_after 0 word.now
        ≡ n)) (λ _. is_decimal word.now ≡ true → 2 ^ 32 ≤ decimal_after 0 word.now) }
{
    if word.is_empty() {
        return Err(BadEvent);
    }
    let mut number = 0_u64;
    let mut rest = word;
    while let [digit, behind @ ..] = rest {
        if !digit.is_ascii_digit() {
            return Err(BadEvent);
        }
        number = 10 * number + u64::from(*digit - b'0');
        if number > u64::from(u32::MAX) {
            return Err(BadEvent);
        }
        rest = behind;
    }
    Ok(number as u32)
}

/// Reads a SAPI: the word `0` or `3`.
pub(crate) fn sapi_in(word: &[u8]) -> Result<Sapi, BadEvent>
    ensures { Reads (λ sapi. sapi) result (sapi_in word.now) }
{
    match word {
        [b'0'] => Ok(Sapi::Zero),
        [b'3'] => Ok(Sapi::Three),
        _ => Err(BadEvent),
    }
}

/// Reads yes or no: the word `y` or `n`.
pub(crate) fn answer_in(word: &[u8]) -> Result<bool, BadEvent>
    ensures { Reads (λ answer. answer) result (answer_in word.now) }
{
    match word {
        [b'y'] => Ok(true),
        [b'n'] => Ok(false),
        _ => Err(BadEvent),
    }
}
