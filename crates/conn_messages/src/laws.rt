// SPDX-License-Identifier: MIT OR Apache-2.0
ghost use Rattle.std.specs.Prelude.{ℕ, ◌<◌, ◌^◌};
ghost use Rattle.conn_messages.specs.declared.message.Message.{Message as MessageValue};
ghost use Rattle.conn_messages.specs.Out.{IsLawfulMessage, IsReadOf, IsWritable, out_of};
ghost use Rattle.conn_messages.specs.OutputsState.{IsSendable};

/// Law: the body of a message's frame has at most 2048 octets, so a link can carry the frame.
/// Assumes: the message can be written.
pub fn message_fits_its_frame()
    ensures { (number : ℕ) (message : MessageValue) →
        IsWritable message → IsSendable (out_of number message) }
{}

/// Law: the receiver of a message's frame reads that message. Assumes: the message can be written,
/// and the number of its connection fits three octets. An RSL message has an allowed channel
/// number, and its L3 information, if present, has 1 to 251 octets. A DTAP message has a DLCI of
/// SAPI 0 or 3, and the switch's reference fits three octets.
pub fn message_is_read()
    ensures { (number : ℕ) (message : MessageValue) → number < 2 ^ 24 →
        IsWritable message → IsLawfulMessage message →
        IsReadOf number message (out_of number message).frame.body }
{}
