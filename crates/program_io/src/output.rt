// SPDX-License-Identifier: MIT OR Apache-2.0
ghost use Rattle.std.specs.Prelude.{◌≡◌, ◌≤◌, [], IfOk, Ok, OnErr, drop, length};
ghost use Rattle.std.specs.Io.KnownBytes.{Appends};
ghost use Rattle.program_io.specs.Output.{AppendsBeginning, Puts, PutsAtOnce};
ghost use Rattle.program_io.specs.declared.output.Taken.TheVariants.{All};

use std::io::{self, ErrorKind, Write};

/// Writes all octets; retries interrupted writes. On `Err`, the output took a prefix of the octets,
/// possibly an empty one; `write_all` doesn't promise this.
///
/// `Err`: a write failed, a write took nothing (`WriteZero`), or 2^64 - 2 writes weren't enough
/// (`TimedOut`).
#[inline]
pub fn put<W: Write>(output: &mut W, octets: &[u8]) -> io::Result<()>
    ensures { Puts result (W.contents output.old) (W.contents output.new) octets.now }
{
    if octets.is_empty() {
        return Ok(());
    }
    // Nearly every write takes all octets; the other outcomes are handled out of line.
    let first = output.write(octets);
    match first {
        Ok(count) if count == octets.len() => Ok(()),
        _ => put_rest(output, octets, first),
    }
}

/// Writes the octets that remain after the first write, whose result is `first`. If the first write
/// was interrupted, writes all octets; if the first write failed otherwise, returns its error; if
/// the first write took 0 octets, returns `WriteZero`.
#[cold]
fn put_rest<W: Write>(output: &mut W, octets: &[u8], first: io::Result<usize>) -> io::Result<()>
    requires { IfOk first (λ count. count ≤ length octets.now) }
    ensures ok { IfOk first (λ count.
        Puts result (W.contents output.old) (W.contents output.new) (drop count octets.now)) }
    ensures err { OnErr first
        (Puts result (W.contents output.old) (W.contents output.new) octets.now) }
{
    match first {
        Ok(0) => Err(io::Error::from(ErrorKind::WriteZero)),
        Ok(count) => put_all(output, &octets[count..]),
        Err(error) if error.kind() == ErrorKind::Interrupted => put_all(output, octets),
        Err(error) => Err(error),
    }
}

/// Writes `octets`, a text that consists of parts with these `sizes` and a remainder, with one
/// write if possible. If the first write takes nothing, as when a vector can't grow, writes the
/// parts and the remainder one by one: there may be room for the first parts.
///
/// Returns `Err` if a write fails. If the first write took nothing and wasn't interrupted, returns
/// `Err` even if all parts and the remainder were written then. On `Err`, the output took a prefix
/// of the text, possibly an empty or the whole one.
#[inline]
pub fn put_joined<W: Write>(output: &mut W, octets: &[u8], sizes: &[usize]) -> io::Result<()>
    ensures { Puts result (W.contents output.old) (W.contents output.new) octets.now }
{
    if octets.is_empty() {
        return Ok(());
    }
    // nearly every write takes all octets, as in `put`
    let first = output.write(octets);
    match first {
        Ok(taken) if taken == octets.len() => Ok(()),
        _ => put_parts(output, octets, sizes, first),
    }
}

/// Writes the octets that remain after the first write, whose result is `first`. If the first write
/// took nothing, writes the text part by part; returns the error of the first write then, unless
/// the first write was interrupted.
#[cold]
fn put_parts<W: Write>(
    output: &mut W,
    octets: &[u8],
    sizes: &[usize],
    first: io::Result<usize>,
) -> io::Result<()>
    requires { IfOk first (λ count. count ≤ length octets.now) }
    ensures ok { IfOk first (λ count.
        Puts result (W.contents output.old) (W.contents output.new) (drop count octets.now)) }
    ensures err { OnErr first
        (Puts result (W.contents output.old) (W.contents output.new) octets.now) }
{
    let failure = match first {
        Ok(0) => io::Error::from(ErrorKind::WriteZero),
        Ok(count) => return put_all(output, &octets[count..]),
        Err(error) => error,
    };
    put_apart(output, octets, sizes)?;
    match failure.kind() {
        ErrorKind::Interrupted => Ok(()),
        _ => Err(failure),
    }
}

/// Writes a text part by part: first parts with these `sizes`, then the remainder.
#[cold]
fn put_apart<W: Write>(output: &mut W, octets: &[u8], sizes: &[usize]) -> io::Result<()>
    ensures { Puts result (W.contents output.old) (W.contents output.new) octets.now }
{
    let mut rest = octets;
    for size in sizes {
        let (part, others) = rest.split_at((*size).min(rest.len()));
        put(output, part)?;
        rest = others;
    }
    put(output, rest)
}

/// How much of a text was taken: all of the text, or nothing. `Nothing` holds the error of the
/// first write, or `None` if the first write was interrupted.
#[derive(Drop)]
pub enum Taken {
    All,
    Nothing(Option<io::Error>),
}

/// Writes a text. Returns `All` if the output took all octets, also for an empty text. Returns
/// `Nothing` if the first write took nothing; then the output is unchanged, and the caller may
/// write smaller pieces.
///
/// Returns `Err` if a later write fails; then the output took a prefix of at least one octet.
#[inline]
pub fn put_at_once<W: Write>(output: &mut W, octets: &[u8]) -> io::Result<Taken>
    ensures puts { PutsAtOnce result (W.contents output.old) (W.contents output.new) octets.now }
    ensures empty { octets.now ≡ [] → result ≡ Ok All }
{
    if octets.is_empty() {
        return Ok(Taken::All);
    }
    match output.write(octets) {
        Ok(count) if count == octets.len() => Ok(Taken::All),
        Ok(0) => Ok(Taken::Nothing(Some(io::Error::from(ErrorKind::WriteZero)))),
        Ok(count) => put_behind(output, &octets[count..]),
        Err(error) => Ok(Taken::Nothing(failure_of(error))),
    }
}

/// The error of a write; `None` if the write was interrupted.
#[cold]
fn failure_of(error: io::Error) -> Option<io::Error> {
    match error.kind() {
        ErrorKind::Interrupted => None,
        _ => Some(error),
    }
}

/// Writes the octets that remain after the first write, and returns `All`.
#[cold]
fn put_behind<W: Write>(output: &mut W, octets: &[u8]) -> io::Result<Taken>
    ensures ok { IfOk result (λ taken. (taken ≡ All)
        × Appends (W.contents output.old) (W.contents output.new) octets.now) }
    ensures err { OnErr result
        (AppendsBeginning (W.contents output.old) (W.contents output.new) octets.now) }
{
    match put_all(output, octets) {
        Ok(()) => Ok(Taken::All),
        Err(error) => Err(error),
    }
}

/// Writes all octets; retries interrupted writes. On `Err`, the output took a prefix of the octets.
fn put_all<W: Write>(output: &mut W, octets: &[u8]) -> io::Result<()>
    ensures { Puts result (W.contents output.old) (W.contents output.new) octets.now }
{
    let mut rest = octets;
    for _ in 1..u64::MAX {
        if rest.is_empty() {
            return Ok(());
        }
        match output.write(rest) {
            Ok(0) => return Err(io::Error::from(ErrorKind::WriteZero)),
            Ok(count) => rest = &rest[count..],
            Err(error) if error.kind() == ErrorKind::Interrupted => {}
            Err(error) => return Err(error),
        }
    }
    Err(io::Error::from(ErrorKind::TimedOut))
}
