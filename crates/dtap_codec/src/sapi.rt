// SPDX-License-Identifier: MIT OR Apache-2.0
/// The layer 2 service access point that carries a message (TS 44.006 clause 3.1): SAPI 3 for SMS,
/// SAPI 0 for all other messages.
#[derive(Clone, Copy, Debug)]
pub enum Sapi {
    Zero,
    Three,
}
