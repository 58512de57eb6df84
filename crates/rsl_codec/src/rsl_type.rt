// SPDX-License-Identifier: MIT OR Apache-2.0
ghost use Rattle.std.specs.Prelude.{◌≡◌, ◌==◌};
ghost use Rattle.std.specs.List.{find};
ghost use Rattle.rsl_codec.specs.RslType.{is_transparent, rsl_discriminator, rsl_octet, rsl_type};
ghost use Rattle.rsl_codec.specs.declared.rsl_type.TheConstants.{RSL_TYPES};

/// The message discriminator of radio link layer management (TS 48.058 clause 9.1).
pub const RADIO_LINK: u8 = 0x02;

/// `RADIO_LINK` with bit 1 set (TS 48.058 clause 9.1). The message is transparent: a base station
/// passes its contents on unchanged.
pub const RADIO_LINK_TRANSPARENT: u8 = 0x03;

/// The message discriminator of dedicated channel management.
pub const DEDICATED_CHANNEL: u8 = 0x08;

/// The message discriminator of common channel management.
pub const COMMON_CHANNEL: u8 = 0x0c;

/// The first message type octet of common channel management (TS 48.058 clause 9.2). Smaller octets
/// belong to radio link layer management.
pub const FIRST_COMMON_CHANNEL: u8 = 0x10;

/// The first message type octet of dedicated channel management. The octets from
/// `FIRST_COMMON_CHANNEL` to just before this octet belong to common channel management.
pub const FIRST_DEDICATED_CHANNEL: u8 = 0x20;

/// The type of a message (TS 48.058 clause 9.2). The discriminant of a variant is the message type
/// octet.
#[derive(Clone, Copy)]
pub enum RslType {
    DataRequest = 0x01,
    DataIndication = 0x02,
    ErrorIndication = 0x03,
    EstablishRequest = 0x04,
    EstablishConfirm = 0x05,
    EstablishIndication = 0x06,
    ReleaseRequest = 0x07,
    ReleaseConfirm = 0x08,
    ReleaseIndication = 0x09,
    ChannelRequired = 0x13,
    ImmediateAssignCommand = 0x16,
    ChannelActivation = 0x21,
    ChannelActivationAck = 0x22,
    ChannelActivationNack = 0x23,
    ConnectionFailure = 0x24,
    HandoverDetection = 0x27,
    MeasurementResult = 0x28,
    RfChannelRelease = 0x2e,
    RfChannelReleaseAck = 0x33,
}

/// The message type octet of CHANNEL ACTIVATION.
pub const CHANNEL_ACTIVATION: u8 = RslType::ChannelActivation as u8;

/// The message type octet of RF CHANNEL RELEASE.
pub const RF_CHANNEL_RELEASE: u8 = RslType::RfChannelRelease as u8;

/// The known message types.
pub const RSL_TYPES: [RslType; 19] = [
    RslType::DataRequest,
    RslType::DataIndication,
    RslType::ErrorIndication,
    RslType::EstablishRequest,
    RslType::EstablishConfirm,
    RslType::EstablishIndication,
    RslType::ReleaseRequest,
    RslType::ReleaseConfirm,
    RslType::ReleaseIndication,
    RslType::ChannelRequired,
    RslType::ImmediateAssignCommand,
    RslType::ChannelActivation,
    RslType::ChannelActivationAck,
    RslType::ChannelActivationNack,
    RslType::ConnectionFailure,
    RslType::HandoverDetection,
    RslType::MeasurementResult,
    RslType::RfChannelRelease,
    RslType::RfChannelReleaseAck,
];

impl RslType {
    /// Whether messages of this type are transparent: a base station passes their contents on
    /// unchanged.
    fn is_transparent(self) -> bool
        ensures { result ≡ is_transparent self }
    {
        matches!(self, RslType::DataRequest | RslType::DataIndication)
    }

    /// The message discriminator with which messages of this type are written.
    pub fn discriminator(self) -> u8
        ensures { result ≡ rsl_discriminator self }
    {
        let octet = self.octet();
        if self.is_transparent() {
            RADIO_LINK_TRANSPARENT
        } else if octet < FIRST_COMMON_CHANNEL {
            RADIO_LINK
        } else if octet < FIRST_DEDICATED_CHANNEL {
            COMMON_CHANNEL
        } else {
            DEDICATED_CHANNEL
        }
    }

    /// The message type octet.
    pub fn octet(self) -> u8
        ensures { result ≡ rsl_octet self }
    {
        self as u8
    }

    /// The type with this discriminator and message type octet; bit 1 of the discriminator is
    /// ignored. `None` if no such type is known.
    #[tactic(auto, unfolding(crate::specs::RslType::rsl_type))]
    pub fn of_octets(discriminator: u8, octet: u8) -> Option<RslType>
        ensures { result ≡ rsl_type discriminator octet }
    {
        let kind = RslType::of_octet(octet)?;
        if kind.discriminator() >> 1 == discriminator >> 1 {
            Some(kind)
        } else {
            None
        }
    }

    // The type with this message type octet; `None` if no type has the octet. No two types have the
    // same octet.
    fn of_octet(octet: u8) -> Option<RslType>
        ensures { result ≡ find (λ kind. rsl_octet kind == octet) RSL_TYPES }
    {
        Some(match octet {
            0x01 => RslType::DataRequest,
            0x02 => RslType::DataIndication,
            0x03 => RslType::ErrorIndication,
            0x04 => RslType::EstablishRequest,
            0x05 => RslType::EstablishConfirm,
            0x06 => RslType::EstablishIndication,
            0x07 => RslType::ReleaseRequest,
            0x08 => RslType::ReleaseConfirm,
            0x09 => RslType::ReleaseIndication,
            0x13 => RslType::ChannelRequired,
            0x16 => RslType::ImmediateAssignCommand,
            0x21 => RslType::ChannelActivation,
            0x22 => RslType::ChannelActivationAck,
            0x23 => RslType::ChannelActivationNack,
            0x24 => RslType::ConnectionFailure,
            0x27 => RslType::HandoverDetection,
            0x28 => RslType::MeasurementResult,
            0x2e => RslType::RfChannelRelease,
            0x33 => RslType::RfChannelReleaseAck,
            _ => return None,
        })
    }
}
