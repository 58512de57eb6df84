// SPDX-License-Identifier: MIT OR Apache-2.0
ghost use Rattle.std.specs.Prelude.{◌≡◌, Some};
ghost use Rattle.settings.specs.Answer.{fault_found, Refuses};

use crate::key::path;
use crate::{Key, SettingsFault};
use std::alloc::Global;

/// A fault that borrows the name of an unknown key from the table, so making it needs no
/// allocation.
#[derive(Clone, Copy)]
pub(crate) enum Finding<'a> {
    /// An unknown key: its table (`None` at the top level) and its name.
    Unknown(Option<Key>, &'a str),
    Missing(Key),
    BadType(Key),
    BadValue(Key),
    Repeated(Key),
}

impl Finding<'_> {
    /// Converts the finding to a fault. Only the name of an unknown key is copied; if the
    /// allocation for the copy fails, the fault is `Memory`.
    pub(crate) fn fault(self, alloc: Global) -> SettingsFault
        ensures { Refuses result (Some (fault_found self.entry)) }
    {
        match self {
            Finding::Unknown(table, name) => match path(alloc, table, name) {
                Ok(name) => SettingsFault::Unknown(name),
                Err(memory) => SettingsFault::from(memory),
            },
            Finding::Missing(key) => SettingsFault::Missing(key),
            Finding::BadType(key) => SettingsFault::BadType(key),
            Finding::BadValue(key) => SettingsFault::BadValue(key),
            Finding::Repeated(key) => SettingsFault::Repeated(key),
        }
    }
}
