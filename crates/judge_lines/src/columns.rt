// SPDX-License-Identifier: MIT OR Apache-2.0
ghost use Rattle.std.specs.Prelude.{◌≡◌, ◌∷◌, [], MatchResult};
ghost use Rattle.std.specs.List.{slice_split};
ghost use Rattle.octets.specs.Answer.{result_map};
ghost use Rattle.judge_lines.specs.Columns.{columns_of, is_tab, six_columns};
ghost use Rattle.judge_lines.specs.declared.fault.LineFault.TheVariants.{NotSixColumns};

use crate::LineFault;
use memchr::memchr;

/// The columns of a line, without the column of the protocol.
#[derive(Clone, Copy)]
pub(crate) struct Columns<'a> {
    pub(crate) number: &'a [u8],
    pub(crate) from: &'a [u8],
    pub(crate) to: &'a [u8],
    pub(crate) said: &'a [u8],
    pub(crate) octets: &'a [u8],
}

/// Splits a line at its tabs. `Err(NotSixColumns)` unless the line has exactly five tabs.
pub(crate) fn split_columns(line: &[u8]) -> Result<Columns<'_>, LineFault>
    ensures { result_map (λ c. columns_of c.number.now c.from.now c.to.now c.said.now c.octets.now)
        result ≡ six_columns (slice_split is_tab line.now) }
{
    let (number, rest) = split_column(line)?;
    let (from, rest) = split_column(rest)?;
    let (to, rest) = split_column(rest)?;
    let (_protocol, rest) = split_column(rest)?;
    let (said, octets) = split_column(rest)?;
    match memchr(b'\t', octets) {
        Some(_) => Err(LineFault::NotSixColumns),
        None => Ok(Columns {
            number,
            from,
            to,
            said,
            octets,
        }),
    }
}

/// The column before the first tab, and the rest after it. `Err(NotSixColumns)` if there is no tab.
fn split_column(line: &[u8]) -> Result<(&[u8], &[u8]), LineFault>
    ensures { MatchResult result
        (λ parts. slice_split is_tab line.now ≡ parts.0.now ∷ slice_split is_tab parts.1.now)
        (λ fault. (fault ≡ NotSixColumns) × (slice_split is_tab line.now ≡ line.now ∷ [])) }
{
    match memchr(b'\t', line) {
        Some(end) => Ok((&line[..end], &line[end + 1..])),
        None => Err(LineFault::NotSixColumns),
    }
}
