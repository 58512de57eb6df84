// SPDX-License-Identifier: MIT OR Apache-2.0
ghost use Rattle.std.specs.Prelude.{◌≡◌, length, option_map};
ghost use Rattle.msc_end.specs.Switch.{has_gap_on};
ghost use Rattle.world_model.specs.Views.{accepted, received, sent, taken, unnumbered};
ghost use Rattle.world_model.specs.World.{mobile_of};

use crate::Network;
use octets::Octets;
use world_ends::MobileStation;
use world_model::Seat;

/// Views of a mobile or of a connection of the switch, by its number. `None` if there is no mobile
/// or connection with this number.
impl Network {
    fn mobile(&self, number: u8) -> Option<&MobileStation>
        ensures { option_map (λ m. m.now) result ≡ mobile_of self.now number }
    {
        self.mobiles.get(number)
    }

    /// Where a mobile is.
    pub fn seat(&self, mobile: u8) -> Option<Seat>
        ensures { result ≡ option_map (λ p. p.seat) (mobile_of self.now mobile) }
    {
        match self.mobile(mobile) {
            Some(mobile) => Some(mobile.seat()),
            None => None,
        }
    }

    /// The messages of the flow that the upper layers of a mobile sent, in order, with N(SD) set to
    /// 0.
    pub fn sent(&self, mobile: u8) -> Option<&[Octets]>
        ensures { option_map (λ list. list.now) result ≡ sent self.now mobile }
    {
        match self.mobile(mobile) {
            Some(mobile) => Some(mobile.sent()),
            None => None,
        }
    }

    /// The messages that a mobile received, in order.
    pub fn received(&self, mobile: u8) -> Option<&[Octets]>
        ensures { option_map (λ list. list.now) result ≡ received self.now mobile }
    {
        match self.mobile(mobile) {
            Some(mobile) => Some(mobile.received()),
            None => None,
        }
    }

    /// All messages that the switch took on a connection, in order.
    pub fn taken(&self, connection: u32) -> Option<&[Octets]>
        ensures { option_map (λ list. list.now) result ≡ taken self.now connection }
    {
        self.switch.taken(connection)
    }

    /// The messages of the flow that the switch accepted on a connection, in order, with N(SD) set
    /// to 0.
    pub fn accepted(&self, connection: u32) -> Option<&[Octets]>
        ensures { option_map (λ list. list.now) result ≡ accepted self.now connection }
    {
        self.switch.accepted(connection)
    }

    /// The messages without N(SD) that the switch took on a connection, in order.
    pub fn unnumbered(&self, connection: u32) -> Option<&[Octets]>
        ensures { option_map (λ list. list.now) result ≡ unnumbered self.now connection }
    {
        self.switch.unnumbered(connection)
    }

    /// Whether the switch found a gap in the flow of a connection.
    pub fn has_gap(&self, connection: u32) -> Option<bool>
        ensures { result ≡ has_gap_on self.now.switch connection }
    {
        self.switch.has_gap(connection)
    }

    /// The number of the switch's connections, including those that ended.
    pub fn switch_connections(&self) -> usize
        ensures { result ≡ length self.now.switch.connections }
    {
        self.switch.connection_count()
    }
}
