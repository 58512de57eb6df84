// SPDX-License-Identifier: MIT OR Apache-2.0
use thiserror::Error;

/// Why a message wasn't put into a hold or a chain. Each variant hands the message back.
#[derive(Debug, Drop, Error)]
pub enum HoldFault {
    /// As many messages are held as the limit allows. A hold counts the messages of both SAPIs; a
    /// chain counts those of all tenures and both SAPIs.
    #[error("the hold is full")]
    Full(Vec<u8>),
    /// An allocation failed.
    #[error("out of memory")]
    Memory(Vec<u8>),
}
