// SPDX-License-Identifier: MIT OR Apache-2.0
ghost use Rattle.std.specs.Prelude.{◌≡◌, ◌≤◌};
ghost use Rattle.controller_model.specs.Channels as words;

use crate::Channels;
use crate::identifier::cell_identifier;
use conn_messages::{Channel, Place};
use controller_model::{ChannelKind, ChannelState};
use dtap_codec::CellDescription;
use rsl_codec::{ChanNo, FIRST_SDCCH, HandoverReference};
use settings::{Cell, Settings};

/// The kind of a dedicated channel.
pub fn kind_of(number: ChanNo) -> ChannelKind
    ensures { result ≡ words.kind_of number }
{
    if number.octet() < FIRST_SDCCH {
        ChannelKind::Tch
    } else {
        ChannelKind::Sdcch
    }
}

fn is_alike(one: ChannelKind, other: ChannelKind) -> bool
    ensures { result ≡ words.is_alike one other }
{
    matches!(
        (one, other),
        (ChannelKind::Sdcch, ChannelKind::Sdcch) | (ChannelKind::Tch, ChannelKind::Tch)
    )
}

fn is_free(channels: &Channels, station: u16, number: ChanNo) -> bool
    ensures { result ≡ words.is_free channels.now station number }
{
    matches!(
        channels.state(Place { station, number }),
        ChannelState::Free
    )
}

// The first free channel of this kind in a cell, in the order of the settings.
fn free_in(channels: &Channels, station: u16, kind: ChannelKind, cell: &Cell) -> Option<ChanNo>
    ensures { result ≡ words.free_in channels.now station kind cell.now }
{
    cell.channels().iter().copied().find(|number| is_alike(kind, kind_of(*number))
        && is_free(channels, station, *number))
}

// A channel of a cell, with the cell's identifier and description and a handover reference.
fn channel_in(
    settings: &Settings,
    station: u16,
    reference: HandoverReference,
    cell: &Cell,
    number: ChanNo,
) -> Channel
    ensures { result ≡ words.channel_in settings.now station reference.0 cell.now number }
{
    let bsic = cell.bsic();
    Channel {
        station,
        number,
        cell: cell_identifier(settings, cell),
        description: CellDescription {
            arfcn: cell.arfcn(),
            ncc: bsic.ncc,
            bcc: bsic.bcc,
        },
        reference,
    }
}

/// The first free channel of `kind` in the cell of `station`, in the order of the settings, with
/// the handover reference `reference`. `None` if there is no such cell or if no such channel is
/// free. Assumes: `station` is at least 1.
pub fn free_channel(
    settings: &Settings,
    channels: &Channels,
    station: u16,
    reference: HandoverReference,
    kind: ChannelKind,
) -> Option<Channel>
    requires { 1 ≤ station }
    ensures { result ≡ words.free_channel settings.now channels.now station reference.0 kind }
{
    let cell = settings.cells().get(usize::from(station) - 1)?;
    let number = free_in(channels, station, kind, cell)?;
    Some(channel_in(settings, station, reference, cell, number))
}
