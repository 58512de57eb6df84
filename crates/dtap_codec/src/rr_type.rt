// SPDX-License-Identifier: MIT OR Apache-2.0
ghost use Rattle.std.specs.Prelude.{◌≡◌};
ghost use Rattle.dtap_codec.specs.RrType.{rr_octet, rr_type};

/// The pseudo length before an IMMEDIATE ASSIGNMENT (TS 44.018 clause 10.5.2.19).
pub const PSEUDO_LENGTH: u8 = 0x2d;

/// The type of a message of radio resource management, with its octet (TS 44.018 clause 10.4).
#[derive(Clone, Copy)]
pub enum RrType {
    HandoverCommand = 0x2b,
    AssignmentCommand = 0x2e,
    HandoverComplete = 0x2c,
    HandoverFailure = 0x28,
    AssignmentComplete = 0x29,
    AssignmentFailure = 0x2f,
    ChannelRelease = 0x0d,
    /// The only type that follows a pseudo length.
    ImmediateAssignment = 0x3f,
    MeasurementReport = 0x15,
    PagingResponse = 0x27,
}

/// Message type of a HANDOVER COMMAND.
pub const HANDOVER_COMMAND: u8 = RrType::HandoverCommand as u8;

/// Message type of an ASSIGNMENT COMMAND.
pub const ASSIGNMENT_COMMAND: u8 = RrType::AssignmentCommand as u8;

/// Message type of an IMMEDIATE ASSIGNMENT.
pub const IMMEDIATE_ASSIGNMENT: u8 = RrType::ImmediateAssignment as u8;

/// All known types.
pub const RR_TYPES: [RrType; 10] = [
    RrType::HandoverCommand,
    RrType::AssignmentCommand,
    RrType::HandoverComplete,
    RrType::HandoverFailure,
    RrType::AssignmentComplete,
    RrType::AssignmentFailure,
    RrType::ChannelRelease,
    RrType::ImmediateAssignment,
    RrType::MeasurementReport,
    RrType::PagingResponse,
];

impl RrType {
    /// The octet of this type.
    pub fn octet(self) -> u8
        ensures { result ≡ rr_octet self }
    {
        self as u8
    }

    /// The type whose octet is `octet`; `None` if no known type has this octet.
    #[tactic(auto, unfolding(crate::specs::RrType::rr_type))]
    pub fn of_octet(octet: u8) -> Option<RrType>
        ensures { result ≡ rr_type octet }
    {
        RR_TYPES.iter().copied().find(|kind| kind.octet() == octet)
    }
}
