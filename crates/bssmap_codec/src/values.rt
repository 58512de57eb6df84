// SPDX-License-Identifier: MIT OR Apache-2.0
ghost use Rattle.std.specs.Prelude.{◌≡◌, ◌∷◌, [], IfOk, true};
ghost use Rattle.bssmap_codec.specs.Values.{is_dlci, dlci_of, is_speech_type};

use octets::{Memory, Octets};
use std::alloc::Global;
use std::marker::Model;

/// The SAPI of signalling (TS 48.006 clause 9.3.2).
const SIGNALLING_SAPI: u8 = 0;

/// The SAPI of short messages (TS 48.006 clause 9.3.2).
const SHORT_MESSAGE_SAPI: u8 = 3;

/// The value that stands for speech in bits 4 to 1 of a channel type's first octet (TS 48.008
/// clause 3.2.2.11).
const SPEECH: u8 = 1;

/// The data link connection identifier of a DTAP message (TS 48.006 clause 9.3.2). Bits 3 to 1 are
/// the SAPI, 0 or 3; bits 8 and 7 name the channel. The bits beside the SAPI may have any value and
/// are kept. Contracts see the octet.
#[derive(Clone, Copy)]
pub struct Dlci {
    octet: u8,
}

impl Model for Dlci {
    ghost use Rattle.std.specs.Prelude.{◌≡◌, ℕ, true};
    ghost use Rattle.bssmap_codec.specs.Values.{is_dlci};

    ghost Value = { ℕ };

    ghost view = { λ dlci. dlci.octet };

    ghost inverse = { λ octet. record { octet = octet } };

    ghost invariant = { λ dlci. is_dlci dlci.octet ≡ true };
}

impl Dlci {
    /// The identifier with this octet, whose SAPI must be 0 or 3.
    pub fn new(octet: u8) -> Dlci
        requires { is_dlci octet ≡ true }
        ensures { result ≡ octet }
    {
        Dlci { octet }
    }

    /// The identifier with this octet; `None` if its SAPI is neither 0 nor 3.
    pub fn read(octet: u8) -> Option<Dlci>
        ensures { result ≡ dlci_of octet }
    {
        if octet % 8 == SIGNALLING_SAPI || octet % 8 == SHORT_MESSAGE_SAPI {
            Some(Dlci { octet })
        } else {
            None
        }
    }

    /// The octet of the identifier.
    pub fn octet(self) -> u8
        ensures octet { result ≡ self }
        ensures sapi { is_dlci result ≡ true }
    {
        self.octet
    }
}

/// The data link connection identifier that a SAPI N REJECT names (TS 48.008 clause 3.2.2.25).
/// Unlike a `Dlci`, it may have any SAPI.
#[derive(Clone, Copy)]
pub struct RejectedDlci(pub u8);

/// A cause of radio resource management (TS 44.018 clause 10.5.2.31), in one octet.
#[derive(Clone, Copy)]
pub struct RrCause(pub u8);

/// The octets of a cause after its length octet (TS 48.008 clause 3.2.2.5).
#[derive(Drop)]
pub struct Cause(pub Octets);

impl Cause {
    /// A cause of the one octet `value`. Returns `Memory` if the allocation fails.
    pub fn one(alloc: Global, value: u8) -> Result<Cause, Memory>
        ensures { IfOk result (λ cause. cause.0 ≡ value ∷ []) }
    {
        Ok(Cause(Octets::copy(alloc, &[value])?))
    }
}

/// The octets of a cell identifier after its length octet (TS 48.008 clause 3.2.2.17).
#[derive(Drop)]
pub struct CellIdentifier(pub Octets);

/// The octets of a channel type after its length octet (TS 48.008 clause 3.2.2.11).
#[derive(Drop)]
pub struct ChannelType(pub Octets);

impl ChannelType {
    /// Whether the channel type asks for speech, by bits 4 to 1 of its first octet. The channel
    /// rate isn't looked at. Returns `false` if the channel type has no octet.
    pub fn is_speech(&self) -> bool
        ensures { result ≡ is_speech_type self.now.0 }
    {
        match self.0.as_slice().first() {
            Some(first) => *first % 16 == SPEECH,
            None => false,
        }
    }
}
