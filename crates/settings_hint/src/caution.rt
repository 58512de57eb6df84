// SPDX-License-Identifier: MIT OR Apache-2.0
// Cautions about settings that have no fault but are hardly intended.
ghost use Rattle.std.specs.Prelude.{◌≡◌, ◌<◌, length, MatchOption};
ghost use Rattle.settings_hint.specs.Cautions.{has_same_identity, IsEarlierTwin, HasNoTwin};

use settings::Cell;

/// Whether an address has port 0, on which no peer can listen.
pub fn has_port_zero(address: &str) -> bool {
    match address.rsplit_once(':') {
        Some((_, port)) => !port.is_empty() && port.bytes().all(|octet| octet == b'0'),
        None => false,
    }
}

/// The place of an earlier cell that has the same LAC and CI as the cell at `place`; `None` if
/// there is no such cell. Assumes: `place` is below the number of cells.
pub fn earlier_twin(cells: &[Cell], place: usize) -> Option<usize>
    requires { place < length cells.now }
    ensures { MatchOption result (HasNoTwin cells.now place) (IsEarlierTwin cells.now place) }
{
    for earlier in 0..place {
        if has_same_identity(&cells[earlier], &cells[place]) {
            return Some(earlier);
        }
    }
    None
}

/// Whether two cells have the same LAC and the same CI.
fn has_same_identity(cell: &Cell, other: &Cell) -> bool
    ensures { result ≡ has_same_identity cell.now other.now }
{
    cell.location_area_code() == other.location_area_code()
        && cell.cell_identity() == other.cell_identity()
}
