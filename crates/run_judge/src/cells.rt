// SPDX-License-Identifier: MIT OR Apache-2.0
ghost use Rattle.std.specs.Prelude.{◌≡◌};
ghost use Rattle.std.specs.Option.{option_copied};
ghost use Rattle.run_judge.specs.Channels.{cell_at, in_cell, is_same_cell, may_be_cell};

use crate::StationChannel;
use dtap_codec::CellDescription;

/// Removes the channels of each station that is known to have another cell than `cell`.
pub(crate) fn keep_in_cell(
    channels: &mut Vec<StationChannel>,
    cells: &[CellDescription],
    cell: &CellDescription,
)
    ensures { channels.new.items ≡ in_cell cell.now cells.now channels.old.items }
{
    channels.retain(|at| may_be_in(at.station, cells, cell));
}

// Whether a station has the cell `cell`, or the cell of the station isn't known.
fn may_be_in(station: u16, cells: &[CellDescription], cell: &CellDescription) -> bool
    ensures { result ≡ may_be_cell cell.now (cell_at station cells.now) }
{
    match cell_at(station, cells) {
        Some(known) => is_same_cell(known, cell),
        None => true,
    }
}

// The cell of a station; `None` if the cell isn't known.
fn cell_at(station: u16, cells: &[CellDescription]) -> Option<&CellDescription>
    ensures { option_copied result ≡ cell_at station cells.now }
{
    if station == 0 {
        None
    } else {
        cells.get(station as usize - 1)
    }
}

fn is_same_cell(one: &CellDescription, other: &CellDescription) -> bool
    ensures { result ≡ is_same_cell one.now other.now }
{
    one.arfcn.number() == other.arfcn.number()
        && one.ncc.number() == other.ncc.number()
        && one.bcc.number() == other.bcc.number()
}
