// SPDX-License-Identifier: MIT OR Apache-2.0
ghost use Rattle.std.specs.Prelude.{◌≡◌};
ghost use Rattle.bssmap_codec.specs.BssmapType.{bssmap_octet, bssmap_type};

/// The type of a message of BSSMAP; the message's first octet says it (TS 48.008 clause 3.2.2.1).
#[derive(Clone, Copy)]
pub enum BssmapType {
    AssignmentRequest = 0x01,
    AssignmentComplete = 0x02,
    AssignmentFailure = 0x03,
    HandoverPerformed = 0x17,
    ClearCommand = 0x20,
    ClearComplete = 0x21,
    ClearRequest = 0x22,
    SapiNReject = 0x25,
    CipherModeCommand = 0x53,
    CompleteLayer3Information = 0x57,
    CipherModeReject = 0x59,
}

/// All types of BSSMAP messages that are known.
pub const BSSMAP_TYPES: [BssmapType; 11] = [
    BssmapType::AssignmentRequest,
    BssmapType::AssignmentComplete,
    BssmapType::AssignmentFailure,
    BssmapType::HandoverPerformed,
    BssmapType::ClearCommand,
    BssmapType::ClearComplete,
    BssmapType::ClearRequest,
    BssmapType::SapiNReject,
    BssmapType::CipherModeCommand,
    BssmapType::CompleteLayer3Information,
    BssmapType::CipherModeReject,
];

impl BssmapType {
    /// The octet of this type.
    pub fn octet(self) -> u8
        ensures { result ≡ bssmap_octet self }
    {
        self as u8
    }

    /// The type with this octet; `None` if no known type has the octet.
    #[tactic(auto, unfolding(crate::specs::BssmapType::bssmap_type))]
    pub fn of_octet(octet: u8) -> Option<BssmapType>
        ensures { result ≡ bssmap_type octet }
    {
        BSSMAP_TYPES
            .iter()
            .copied()
            .find(|kind| kind.octet() == octet)
    }
}
