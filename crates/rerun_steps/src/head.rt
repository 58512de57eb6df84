// SPDX-License-Identifier: MIT OR Apache-2.0
ghost use Rattle.std.specs.Prelude.{◌≡◌, OnErr, OnOk, option_map};
ghost use Rattle.rerun_steps.specs.Parts.{is_part, no_head, with_piece};

use arrayvec::ArrayVec;
use itoa::Buffer;
use octets::{Memory, Octets};
use std::alloc::Global;
use std::marker::Model;

/// The octets of the longest end of a line that names a part: ` part `, and twenty digits.
const PART_LIMIT: usize = 26;

/// The head of a part of a run: a line that names the program and the part, and the text of the
/// settings.
#[derive(Drop)]
pub struct Head {
    line: Option<Octets>,
    settings: Vec<u8>,
}

impl Model for Head {
    ghost use Rattle.rerun_steps.specs.Parts.{HeadState};

    ghost Value = { HeadState };

    ghost view = { λ h. record { line = h.line; settings = h.settings.items } };
}

impl Head {
    /// A head of no pieces yet.
    pub fn new(alloc: Global) -> Head
        ensures { result ≡ no_head }
    {
        Head {
            line: None,
            settings: Vec::new(alloc),
        }
    }

    /// Takes the next piece. The first one is the line. An `Err` changes nothing.
    pub fn take(&mut self, piece: Octets) -> Result<(), Memory>
        ensures taken { OnOk result (self.new ≡ with_piece self.old piece) }
        ensures refused { OnErr result (self.new ≡ self.old) }
    {
        if self.line.is_none() {
            self.line = Some(piece);
            return Ok(());
        }
        self.settings.extend_from_slice(piece.as_slice())?;
        Ok(())
    }

    /// The line, without a line feed; none before the first piece.
    pub fn line(&self) -> Option<&[u8]>
        ensures { option_map (λ line. line.now) result ≡ self.now.line }
    {
        match &self.line {
            Some(line) => Some(line.as_slice()),
            None => None,
        }
    }

    /// The text of the settings.
    pub fn settings(&self) -> &[u8]
        ensures { result.now ≡ self.now.settings }
    {
        self.settings.as_slice()
    }
}

/// Whether a line names the part with this number.
pub fn is_part(number: u64, line: &[u8]) -> bool
    ensures { result ≡ is_part number line.now }
{
    let mut digits = Buffer::new();
    let mut part = ArrayVec::<u8, PART_LIMIT>::new();
    part.try_extend_from_slice(b" part ").unwrap();
    part.try_extend_from_slice(digits.format(number).as_bytes())
        .unwrap();
    let start = line.len().saturating_sub(part.len());
    &line[start..] == part.as_slice()
}
