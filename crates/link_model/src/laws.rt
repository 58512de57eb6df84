// SPDX-License-Identifier: MIT OR Apache-2.0
//! Laws: each contract here states a property of the definitions that it names. The functions do
//! nothing.

ghost use Rattle.std.specs.Prelude.{◌≡◌, ℕ, ◌++◌, false, List};
ghost use Rattle.link_model.specs.BaseState.{BaseState};
ghost use Rattle.link_model.specs.Base.{is_active, new_base};
ghost use Rattle.link_model.specs.BaseCalls.{BaseCall, after_calls, messages_made, messages_given};
ghost use Rattle.link_model.specs.Tenures.{Tenures};

/// The messages that a base station end makes for a channel are in tenures. A tenure lasts from an
/// activation acknowledgement to the next release acknowledgement, and no activation is
/// acknowledged within a tenure. ESTABLISH INDICATION and DATA INDICATION of the channel are made
/// only within a tenure. All this holds for any calls in any order, up to a `take_down`. The law is
/// about the definitions that the contracts of the calls cite.
pub fn keeps_tenures()
    ensures made { (base : BaseState) (channel : ℕ) (calls : List BaseCall) →
        Tenures channel (is_active base.active channel) (messages_made base calls)
        (is_active (after_calls base calls).active channel) }

    // The messages that a new end gave out, followed by the messages not given out yet, are in
    // tenures too.
    ensures given { (station channel : ℕ) (calls : List BaseCall) →
        let base = new_base station in
        let end = after_calls base calls in
        Tenures channel false (messages_given base calls ++ end.messages)
        (is_active end.active channel) }
{}

/// After any calls up to a `take_down`, the messages given out, followed by the messages not given
/// out yet, are the messages held at first, followed by the messages made. Each message is thus
/// given out at most once, and in order.
pub fn gives_in_order()
    ensures { (base : BaseState) (calls : List BaseCall)
        → messages_given base calls ++ (after_calls base calls).messages
        ≡ base.messages ++ messages_made base calls }
{}
