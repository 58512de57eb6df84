// SPDX-License-Identifier: MIT OR Apache-2.0
ghost use Rattle.std.specs.Prelude.{◌≡◌};
ghost use Rattle.judge_lines.specs.Columns.{number_in};

/// Reads a decimal number. `None` if `word` is empty, has a character other than a digit, or is a
/// number from 2^64 on.
#[tactic(auto, using(crate::proofs::Decimals::decimal_grows))]
pub(crate) fn read_number(word: &[u8]) -> Option<u64>
    ensures { result ≡ number_in word.now }
{
    if word.is_empty() {
        return None;
    }
    let mut number = 0_u64;
    let mut rest = word;
    while let [digit, behind @ ..] = rest {
        if !digit.is_ascii_digit() {
            return None;
        }
        number = number
            .checked_mul(10)?
            .checked_add(u64::from(*digit - b'0'))?;
        rest = behind;
    }
    Some(number)
}
