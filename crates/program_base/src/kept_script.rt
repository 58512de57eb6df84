// SPDX-License-Identifier: MIT OR Apache-2.0
ghost use Rattle.std.specs.Prelude.{◌≡◌, ℕ, [], Err, IfOk, IfSome, OnOk};
ghost use Rattle.std.specs.Io.KnownBytes.{IsAtEnd};
ghost use Rattle.program_base.specs.WholeScript.{HasBadLineAt, IsScript};
ghost use Rattle.program_io.specs.declared.failure.Failure.TheVariants.{BadEvent};

use crate::whole_script::{BLOCK, Script};
use octets::Memory;
use program_io::{Failure, Sink, read_all, room_for};
use std::alloc::Global;
use std::io::Read;
use world_model::Event;

/// The events of a script, and its octets.
#[derive(Drop)]
pub struct KeptScript {
    pub events: Vec<Event>,
    pub octets: Vec<u8>,
}

/// A script that is being read, and its octets so far.
#[derive(Drop)]
struct Keeper {
    script: Script,
    octets: Vec<u8>,
}

impl Keeper {
    fn new(alloc: Global, cells: u16) -> Keeper
        ensures cells { result.script.cells ≡ cells }
        ensures events { result.script.events.items ≡ [] }
        ensures started { result.script.started.items ≡ [] }
        ensures lines { result.script.lines ≡ 0 }
        ensures octets { result.octets.items ≡ [] }
    {
        Keeper {
            script: Script::new(alloc, cells),
            octets: Vec::new(alloc),
        }
    }
}

impl Sink for Keeper {
    ghost use Rattle.std.specs.Prelude.{◌≡◌, ◌++◌, ℕ};
    ghost use Rattle.program_base.specs.WholeScript.{Reads, RefusesAt};
    ghost use Rattle.program_base.specs.WholeScriptLaws.{keeps_both, keeps_nothing, refuses_behind};
    ghost use Rattle.program_io.specs.declared.failure.Failure.TheVariants.{BadEvent};

    type Fault = Failure;

    ghost takes = { λ old octets new. Reads old.script new.script octets
        × (new.octets.items ≡ old.octets.items ++ octets) };

    ghost refuses = { λ old octets new failure.
        (n : ℕ) → failure ≡ BadEvent n → RefusesAt old.script octets n };

    ghost takes_none = { λ keeper. keeps_nothing keeper.script keeper.octets.items };

    ghost takes_both = { λ old mid new first second some more.
        keeps_both old.script mid.script new.script old.octets.items mid.octets.items
        new.octets.items first second some more };

    ghost refuses_later = { λ old mid new first second failure some refuses.
        λ n is. refuses_behind old.script mid.script first second n some.0 (refuses n is) };

    fn take(&mut self, piece: &[u8]) -> Result<(), Failure> {
        self.script.take(piece)?;
        self.octets.extend_from_slice(piece).map_err(Memory::from)?;
        Ok(())
    }
}

/// Reads a script of a world of `cells` cells to its end, and keeps its octets. The first line that
/// isn't the text of an event ends the read with `BadEvent` and the line's number, from 1. An
/// allocation failure is `Memory`, and a failed read is `Device`.
pub fn read_kept_script<R: Read>(
    alloc: Global,
    cells: u16,
    input: &mut R,
) -> Result<KeptScript, Failure>
    ensures read { OnOk result (IsAtEnd (R.remaining input.new)) }
    ensures events { IfOk result (λ kept.
        IfSome (R.remaining input.old) (λ octets. IsScript cells octets kept.events.items)) }
    ensures octets { IfOk result (λ kept.
        IfSome (R.remaining input.old) (λ octets. kept.octets.items ≡ octets)) }
    ensures bad { (n : ℕ)
        → result ≡ Err (BadEvent n) → HasBadLineAt cells (R.remaining input.old) n }
{
    let mut keeper = Keeper::new(alloc, cells);
    let mut room = room_for(alloc, BLOCK)?;
    read_all(input, room.as_mut_slice(), &mut keeper)?;
    let Keeper { script, octets } = keeper;
    let events = script.finish()?;
    Ok(KeptScript { events, octets })
}
