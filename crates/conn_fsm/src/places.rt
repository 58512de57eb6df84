// SPDX-License-Identifier: MIT OR Apache-2.0
ghost use Rattle.std.specs.Prelude.{◌≡◌};
ghost use Rattle.conn_rules.specs.Connection.{is_at};
ghost use Rattle.conn_rules.specs.Table.{same_change};

use conn_messages::{Change, Channel, Place};

/// Whether the channel is at this place.
pub fn is_at(at: &Place, channel: &Channel) -> bool
    ensures { result ≡ is_at at.now channel.now }
{
    at.station == channel.station && at.number == channel.number
}

/// Whether both changes are assignments or both are handovers.
pub(crate) fn same_change(change: &Change, other: &Change) -> bool
    ensures { result ≡ same_change change.now other.now }
{
    matches!(
        (change, other),
        (Change::Assignment, Change::Assignment) | (Change::Handover, Change::Handover)
    )
}
