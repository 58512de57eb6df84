// SPDX-License-Identifier: MIT OR Apache-2.0
ghost use Rattle.std.specs.Prelude.{◌≡◌, ◌+◌, ◌<◌, ℕ, List, [], ◌++◌, length};
ghost use Rattle.std.specs.Prelude.{IfErr, IfOk, OnOk};
ghost use Rattle.std.specs.Prelude.{vec_len};
ghost use Rattle.program_io.specs.Input.{ReadsInput};
ghost use Rattle.program_io.specs.Status.{status_of};

use crate::failure::Failure;
use crate::read_count::ReadCount;
use octets::Memory;
use std::alloc::Global;
use std::io::{self, ErrorKind, Read};

/// The largest number of reads of one input. If that many reads don't reach the end of the input,
/// the input counts as a failed device.
pub const MOST_READS: u64 = 1 << 40;

/// A buffer for one read: a vector of as many zeros as `octets` says. `Err` if the allocation
/// fails.
pub fn room_for(alloc: Global, octets: usize) -> Result<Vec<u8>, Failure>
    ensures ok { IfOk result (λ room. vec_len room ≡ octets) }
    ensures err { IfErr result (λ failure. status_of failure ≡ 3) }
{
    Ok(vec![in alloc; 0u8; octets].map_err(Memory::from)?)
}

/// A consumer of the octets of an input. It takes the octets piece by piece, or refuses a piece
/// with a `Fault`.
pub trait Sink {
    type Fault;

    /// `takes old octets new`: the sink `old` takes the octets and thereby becomes `new`.
    ghost takes: { Self → List ℕ → Self → Type 0 };

    /// `refuses old octets new fault`: the sink `old` takes the octets except a last piece, refuses
    /// that piece with the fault, and thereby becomes `new`.
    ghost refuses: { Self → List ℕ → Self → Self.Fault → Type 0 };

    /// Takes a piece, or refuses it with a fault.
    fn take(&mut self, piece: &[u8]) -> Result<(), Self::Fault>
        ensures taken { OnOk result (takes self.old piece.now self.new) }
        ensures refused { IfErr result (λ fault. refuses self.old piece.now self.new fault) };

    ghost takes_none: { (sink : Self) → takes sink [] sink };

    ghost takes_both: { (old mid new : Self) (first second : List ℕ)
        → takes old first mid → takes mid second new → takes old (first ++ second) new };

    ghost refuses_later: { (old mid new : Self) (first second : List ℕ) (fault : Self.Fault)
        → takes old first mid → refuses mid second new fault
        → refuses old (first ++ second) new fault };
}

/// Why an input wasn't read to its end.
#[derive(Drop)]
pub enum Unread<E> {
    /// This many reads didn't reach the end of the input.
    Endless(ReadCount),
    /// A read failed.
    Device(io::Error),
    /// The sink refused the last piece that was read.
    Refused(E),
}

/// Reads an input to its end through `block` and gives its octets to the sink. Retries interrupted
/// reads; an interrupted read counts as a read.
///
/// `Err`: `Endless` if `MOST_READS` reads don't reach the end, `Device` if a read fails, `Refused`
/// if the sink refuses a piece. Then the sink has taken all octets that were read, except the
/// refused piece.
pub fn read_all<R: Read, S: Sink>(
    input: &mut R,
    block: &mut [u8],
    sink: &mut S,
) -> Result<(), Unread<S::Fault>>
    requires { 0 < length block.old }
    ensures { ReadsInput S.takes S.refuses MOST_READS
        (R.remaining input.old) (R.remaining input.new) sink.old sink.new result }
{
    read_within(input, block, MOST_READS, sink)
}

/// Like `read_all`, with at most `most` reads instead of `MOST_READS`.
fn read_within<R: Read, S: Sink>(
    input: &mut R,
    block: &mut [u8],
    most: u64,
    sink: &mut S,
) -> Result<(), Unread<S::Fault>>
    requires { 0 < length block.old }
    ensures { ReadsInput S.takes S.refuses most
        (R.remaining input.old) (R.remaining input.new) sink.old sink.new result }
{
    let mut reads = ReadCount::none();
    for _ in 0..most {
        match reads.read(input, block) {
            Ok(0) => return Ok(()),
            Ok(count) => {
                if let Err(fault) = sink.take(&block[..count]) {
                    return Err(Unread::Refused(fault));
                }
            }
            Err(error) if error.kind() == ErrorKind::Interrupted => {}
            Err(error) => return Err(Unread::Device(error)),
        }
    }
    Err(Unread::Endless(reads))
}
