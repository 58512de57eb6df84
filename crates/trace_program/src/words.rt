// SPDX-License-Identifier: MIT OR Apache-2.0
ghost use Rattle.std.specs.Prelude.{◌≡◌, ◌++◌, codes};
ghost use Rattle.trace_program.specs.TraceLines.{cause_text, fate_text, passage_text};

use world_trace::{Cause, Fate, Passage};

/// The tab that begins a column, and the word of a passage.
pub(crate) fn tab_passage(passage: Passage) -> &'static str
    ensures { result.now ≡ codes "\t" ++ passage_text passage }
{
    match passage {
        Passage::Made => "\tmade",
        Passage::Sent => "\tsent",
        Passage::Got => "\tgot",
    }
}

/// A cause in a few words.
pub(crate) fn cause_text(cause: Cause) -> &'static str
    ensures { result.now ≡ cause_text cause }
{
    match cause {
        Cause::NoMobile => "no such mobile",
        Cause::MobileKnown => "the mobile connected before",
        Cause::NotOnChannel => "the mobile isn't on a channel",
        Cause::NotBetween => "the mobile isn't between two channels",
        Cause::ChannelGone => "the channel was released",
        Cause::LinkDown => "the link is down",
        Cause::NothingInAir => "nothing new in the air",
        Cause::FrameNotTaken => "the station hasn't taken the frame",
        Cause::NoCommand => "no command to change the channel",
        Cause::NoHandover => "the command is no handover",
        Cause::BadMessage => "no lawful message",
        Cause::OutboxEmpty => "the outbox is empty",
        Cause::TenuresSpent => "the channel had its last tenure",
        Cause::NothingMade => "nothing was made",
        Cause::InboxEmpty => "the inbox is empty",
        Cause::NoConnection => "no such connection",
        Cause::ConnectionClosed => "the connection is clearing or ended",
    }
}

/// A space and the word of the fate, if there is a fate; then the tab that ends the column.
pub(crate) fn fate_tab(fate: Option<Fate>) -> &'static str
    ensures { result.now ≡ fate_text fate ++ codes "\t" }
{
    match fate {
        None => "\t",
        Some(Fate::Accepted) => " accepted\t",
        Some(Fate::Duplicate) => " duplicate\t",
        Some(Fate::Gap) => " gap\t",
        Some(Fate::Unnumbered) => " unnumbered\t",
    }
}
