// SPDX-License-Identifier: MIT OR Apache-2.0
use octets::Memory;
use std::alloc::Global;
use std::fmt;
use std::marker::Model;

/// A text of the settings. In contracts, a text is the list of its octets.
#[derive(Debug, Drop)]
pub struct Text {
    text: String,
}

impl Model for Text {
    ghost use Rattle.std.specs.Prelude.{ℕ, List, string_bytes};

    ghost Value = { List ℕ };

    ghost view = { λ t. string_bytes t.text };
}

impl Text {
    ghost use Rattle.std.specs.Prelude.{◌≡◌, IfOk, string_bytes};

    /// Wraps a text without allocating.
    pub(crate) fn new(text: String) -> Text
        ensures { result ≡ string_bytes text }
    {
        Text { text }
    }

    /// Copies a text. `Err` only if the allocation fails.
    pub(crate) fn copy(alloc: Global, text: &str) -> Result<Text, Memory>
        ensures { IfOk result (λ copy. copy ≡ text.now) }
    {
        Ok(Text {
            text: String::from_str(alloc, text)?,
        })
    }

    /// The text as a string slice.
    pub fn as_str(&self) -> &str
        ensures { result.now ≡ self.now }
    {
        self.text.as_str()
    }
}

impl fmt::Display for Text {
    fn fmt<W: fmt::Write>(&self, f: &mut fmt::Formatter<W>) -> fmt::Result {
        f.write_str(self.text.as_str())
    }
}
