// SPDX-License-Identifier: MIT OR Apache-2.0
ghost use Rattle.std.specs.Prelude.{◌≡◌, ◌↔◌, [], ◌∷◌, ◌++◌, length, IsTrue};
ghost use Rattle.std.specs.Prelude.{OnOk, OnErr};
ghost use Rattle.std.specs.List.{AllByRecursion};
ghost use Rattle.conn_messages.specs.Out.{IsLawfulMessage, IsSound, IsWritable};

use crate::Message;
use octets::Memory;
use std::alloc::Global;
use std::marker::Model;

/// The messages that a connection sends, in order. Each message can be written, and its octets are
/// read as the same message (`IsSound`). In contracts the value is the list of the messages.
#[derive(Drop)]
pub struct Messages {
    messages: Vec<Message>,
}

impl Model for Messages {
    ghost use Rattle.std.specs.Prelude.{List};
    ghost use Rattle.std.specs.List.{AllByRecursion};
    ghost use Rattle.conn_messages.specs.declared.message.Message.{Message as MessageValue};
    ghost use Rattle.conn_messages.specs.Out.{IsSound};

    ghost Value = { List MessageValue };

    ghost view = { λ m. m.messages.items };

    ghost invariant = { λ m. AllByRecursion IsSound m.messages.items };
}

impl Messages {
    /// An empty list. Allocates nothing; `alloc` is kept for `push`.
    pub fn new(alloc: Global) -> Messages
        ensures { result ≡ [] }
    {
        Messages {
            messages: Vec::new(alloc),
        }
    }

    /// Appends `message`. On `Err` (allocation failure) nothing changes. Assumes: `message` can be
    /// written, and its octets are read as the same message (`IsLawfulMessage`).
    pub fn push(&mut self, message: Message) -> Result<(), Memory>
        requires writable { IsWritable message }
        requires lawful { IsLawfulMessage message }
        ensures ok { OnOk result (self.new ≡ self.old ++ message ∷ []) }
        ensures err { OnErr result (self.new ≡ self.old) }
    {
        self.messages.push(message)?;
        Ok(())
    }

    /// How many messages there are.
    pub fn len(&self) -> usize
        ensures { result ≡ length self.now }
    {
        self.messages.len()
    }

    /// Whether there are no messages.
    pub fn is_empty(&self) -> bool
        ensures { IsTrue result ↔ (self.now ≡ []) }
    {
        self.messages.is_empty()
    }

    /// The messages, in order.
    pub fn as_slice(&self) -> &[Message]
        ensures messages { result.now ≡ self.now }
        ensures sound { AllByRecursion IsSound result.now }
    {
        self.messages.as_slice()
    }
}
