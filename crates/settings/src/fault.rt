// SPDX-License-Identifier: MIT OR Apache-2.0
use crate::{Key, Text};
use octets::Memory;
use std::alloc::AllocFailed;
use thiserror::Error;

/// Why a text isn't valid settings: its first fault, in the order of docs/SETTINGS.md.
#[derive(Debug, Drop, Error)]
pub enum SettingsFault {
    /// The text isn't TOML.
    #[error("not TOML")]
    NotToml,
    /// An unknown key. The text is the key's full name: the name of its table, a dot and its own
    /// name, or only its own name at the top level.
    #[error("unknown key {0}")]
    Unknown(Text),
    /// A required table or key is absent.
    #[error("missing {0}")]
    Missing(Key),
    /// The value at the key has the wrong type.
    #[error("bad type {0}")]
    BadType(Key),
    /// The value at the key has the right type but isn't allowed.
    #[error("bad value {0}")]
    BadValue(Key),
    /// A value that must be unique occurs twice.
    #[error("repeated {0}")]
    Repeated(Key),
    /// An allocation failed.
    #[error("out of memory")]
    Memory,
}

impl From<Memory> for SettingsFault {
    ghost use Rattle.std.specs.Prelude.{◌≡◌};
    ghost use Rattle.settings.specs.declared.fault.SettingsFault.TheVariants as faults;

    ghost from_gives = { λ _ fault. fault ≡ faults.Memory };

    fn from(_memory: Memory) -> SettingsFault {
        SettingsFault::Memory
    }
}

impl<T: Drop> From<AllocFailed<T>> for SettingsFault {
    ghost use Rattle.std.specs.Prelude.{◌≡◌};
    ghost use Rattle.settings.specs.declared.fault.SettingsFault.TheVariants as faults;

    ghost from_gives = { λ _ fault. fault ≡ faults.Memory };

    fn from(_failed: AllocFailed<T>) -> SettingsFault {
        SettingsFault::Memory
    }
}
