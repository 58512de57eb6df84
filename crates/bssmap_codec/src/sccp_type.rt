// SPDX-License-Identifier: MIT OR Apache-2.0
ghost use Rattle.std.specs.Prelude.{◌≡◌};
ghost use Rattle.bssmap_codec.specs.SccpType.{sccp_octet, sccp_type};

/// The type of a message of SCCP; the message's first octet says it (Q.713 clause 2.1).
#[derive(Clone, Copy)]
pub enum SccpType {
    ConnectionRequest = 0x01,
    ConnectionConfirm = 0x02,
    ConnectionRefused = 0x03,
    Released = 0x04,
    ReleaseComplete = 0x05,
    DataForm1 = 0x06,
}

/// All types of SCCP messages that are known.
pub const SCCP_TYPES: [SccpType; 6] = [
    SccpType::ConnectionRequest,
    SccpType::ConnectionConfirm,
    SccpType::ConnectionRefused,
    SccpType::Released,
    SccpType::ReleaseComplete,
    SccpType::DataForm1,
];

impl SccpType {
    /// The octet of this type.
    pub fn octet(self) -> u8
        ensures { result ≡ sccp_octet self }
    {
        self as u8
    }

    /// The type with this octet; `None` if no known type has the octet.
    #[tactic(auto, unfolding(crate::specs::SccpType::sccp_type))]
    pub fn of_octet(octet: u8) -> Option<SccpType>
        ensures { result ≡ sccp_type octet }
    {
        SCCP_TYPES
            .iter()
            .copied()
            .find(|kind| kind.octet() == octet)
    }
}
