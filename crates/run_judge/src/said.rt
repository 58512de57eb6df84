// SPDX-License-Identifier: MIT OR Apache-2.0
ghost use Rattle.std.specs.Prelude.{◌≡◌, IfOk};
ghost use Rattle.run_judge.specs.Message.{message_in};

use conn_messages::Change;
use dtap_codec::{CellDescription, Sapi};
use octets::{Memory, Octets};
use std::alloc::Global;

/// The direction of a frame on a link of the controller.
#[derive(Clone, Copy)]
pub enum Way {
    ToController,
    FromController,
}

/// A channel of a base station. `number` is the octet of the channel number (TS 48.058 clause
/// 9.3.1).
#[derive(Clone, Copy)]
pub struct StationChannel {
    /// The number of the base station, from 1.
    pub station: u16,
    pub number: u8,
}

/// What a frame says of connections, their channels and their messages.
#[derive(Drop)]
pub enum Said {
    /// Nothing that concerns the order of messages.
    Nothing,

    // ---- a base station, to the controller
    /// ESTABLISH INDICATION of SAPI 0 with the mobile's initial message.
    Establishes {
        at: StationChannel,
        message: Octets,
    },
    /// DATA INDICATION with a message that isn't of radio resource management.
    Brings {
        at: StationChannel,
        sapi: Sapi,
        message: Octets,
    },
    /// ASSIGNMENT COMPLETE or HANDOVER COMPLETE of the mobile.
    Completes {
        at: StationChannel,
        change: Change,
    },
    /// ASSIGNMENT FAILURE or HANDOVER FAILURE of the mobile.
    Fails {
        at: StationChannel,
        change: Change,
    },
    /// RF CHANNEL RELEASE ACK.
    Released {
        at: StationChannel,
    },

    // ---- the controller, to a base station
    /// CHANNEL ACTIVATION, with its handover reference, if it has one.
    Activates {
        at: StationChannel,
        reference: Option<u8>,
    },
    /// RF CHANNEL RELEASE.
    Releases {
        at: StationChannel,
    },
    /// ASSIGNMENT COMMAND to a channel of the same station.
    Assigns {
        at: StationChannel,
        number: u8,
    },
    /// HANDOVER COMMAND to the channel with this number and handover reference in this cell.
    HandsOver {
        at: StationChannel,
        cell: CellDescription,
        number: u8,
        reference: u8,
    },
    /// DATA REQUEST with a message that isn't of radio resource management.
    Hands {
        at: StationChannel,
        sapi: Sapi,
        message: Octets,
    },

    // ---- the controller, to the switch
    /// CR (connection request) with COMPLETE LAYER 3 INFORMATION, which has the initial message.
    Requests {
        source: u32,
        message: Octets,
    },
    /// DTAP in a DT1.
    Passes {
        destination: u32,
        sapi: Sapi,
        message: Octets,
    },
    /// SAPI "n" REJECT.
    Rejects {
        destination: u32,
    },
    /// CLEAR COMPLETE.
    Clears {
        destination: u32,
    },
    /// A DT1 with any other message of BSSMAP, or with data that the codec refuses.
    Manages {
        destination: u32,
    },
    /// RLC (release complete).
    Ends {
        source: u32,
    },

    // ---- the switch, to the controller
    /// CC (connection confirm).
    Confirms {
        destination: u32,
        source: u32,
    },
    /// CREF (connection refused).
    Refuses {
        destination: u32,
    },
    /// DTAP in a DT1.
    Transfers {
        destination: u32,
        sapi: Sapi,
        message: Octets,
    },
}

impl Said {
    /// A copy. Fails only if an allocation fails.
    pub fn copy(&self, alloc: Global) -> Result<Said, Memory>
        ensures { IfOk result (λ copy. copy ≡ self.now) }
    {
        let message = Octets::copy(alloc, self.message())?;
        Ok(self.copy_with(message))
    }

    // The message in this `Said`; empty if there is no message.
    fn message(&self) -> &[u8]
        ensures { result.now ≡ message_in self.now }
    {
        match self {
            Said::Establishes { message, .. }
            | Said::Brings { message, .. }
            | Said::Hands { message, .. }
            | Said::Requests { message, .. }
            | Said::Passes { message, .. }
            | Said::Transfers { message, .. } => message.as_slice(),
            _ => &[],
        }
    }

    // A copy that contains `message`, which must equal the message in this `Said`.
    fn copy_with(&self, message: Octets) -> Said
        requires { message ≡ message_in self.now }
        ensures { result ≡ self.now }
    {
        match self {
            Said::Nothing => Said::Nothing,
            Said::Establishes { at, .. } => Said::Establishes { at: *at, message },
            Said::Brings { at, sapi, .. } => Said::Brings {
                at: *at,
                sapi: *sapi,
                message,
            },
            Said::Completes { at, change } => Said::Completes {
                at: *at,
                change: *change,
            },
            Said::Fails { at, change } => Said::Fails {
                at: *at,
                change: *change,
            },
            Said::Released { at } => Said::Released { at: *at },
            Said::Activates { at, reference } => Said::Activates {
                at: *at,
                reference: *reference,
            },
            Said::Releases { at } => Said::Releases { at: *at },
            Said::Assigns { at, number } => Said::Assigns {
                at: *at,
                number: *number,
            },
            Said::HandsOver {
                at,
                cell,
                number,
                reference,
            } => Said::HandsOver {
                at: *at,
                cell: *cell,
                number: *number,
                reference: *reference,
            },
            Said::Hands { at, sapi, .. } => Said::Hands {
                at: *at,
                sapi: *sapi,
                message,
            },
            Said::Requests { source, .. } => Said::Requests {
                source: *source,
                message,
            },
            Said::Passes {
                destination,
                sapi,
                ..
            } => Said::Passes {
                destination: *destination,
                sapi: *sapi,
                message,
            },
            Said::Rejects { destination } => Said::Rejects {
                destination: *destination,
            },
            Said::Clears { destination } => Said::Clears {
                destination: *destination,
            },
            Said::Manages { destination } => Said::Manages {
                destination: *destination,
            },
            Said::Ends { source } => Said::Ends { source: *source },
            Said::Confirms {
                destination,
                source,
            } => Said::Confirms {
                destination: *destination,
                source: *source,
            },
            Said::Refuses { destination } => Said::Refuses {
                destination: *destination,
            },
            Said::Transfers {
                destination,
                sapi,
                ..
            } => Said::Transfers {
                destination: *destination,
                sapi: *sapi,
                message,
            },
        }
    }
}
