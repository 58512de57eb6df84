// SPDX-License-Identifier: MIT OR Apache-2.0
//! Laws: each contract states what holds of the definitions that it names. The functions have empty
//! bodies.

ghost use Rattle.std.specs.Prelude.{◌≡◌, ℕ, ◌+◌, ◌≤◌, List, [], ◌∷◌};
ghost use Rattle.std.specs.Prelude.{◌++◌};
ghost use Rattle.mobile_end.specs.DataLink.{to_be_taken};
ghost use Rattle.mobile_end.specs.DataLinkState.{DataLinkState};
ghost use Rattle.mobile_end.specs.RunsToEnd.{RunsToEnd};
ghost use Rattle.world_laws.specs.LineUp.Alive.{Alive};
ghost use Rattle.world_laws.specs.LineUp.BreakStep.{BreakStep};
ghost use Rattle.world_laws.specs.LineUp.ChangeStep.{ChangeStep};
ghost use Rattle.world_laws.specs.LineUp.Order.{Ended, IsInOrder, arriving};
ghost use Rattle.world_laws.specs.LineUp.Opening.{opened};
ghost use Rattle.world_laws.specs.LineUp.Places.{Item, LineUp, controls_in, controls_of, flow};
ghost use Rattle.world_laws.specs.LineUp.Places.{messages_in};
ghost use Rattle.world_laws.specs.LineUp.MobileStep.{MobileStep};
ghost use Rattle.world_laws.specs.LineUp.RelayStep.{RelayStep};
ghost use Rattle.world_laws.specs.LineUp.Steps.{Steps};

/// A connection lives (`Alive`) from its initial message on. Assumes: the mobile's link continues
/// after the initial message and the messages on their way up; no COMPLETE or FAILURE is on its way
/// up, or still to be taken from the link. The law is about plain lists.
pub fn line_up_begins()
    ensures { (m : ℕ) (sent : List (List ℕ)) (link : DataLinkState) (initial : List ℕ)
        (items : List Item)
        → RunsToEnd m sent (flow (initial ∷ messages_in items)) link
        → controls_in items + controls_of (to_be_taken link) ≡ 0
        → Alive m (opened sent link initial items) }
{}

/// A connection that lives continues to live whatever its mobile does or meets: the mobile sends,
/// stations take its messages and acknowledge them, and the mobile follows a COMMAND, arrives,
/// returns, or is dismissed.
pub fn mobile_keeps_line_up()
    ensures { (m : ℕ) (before after : LineUp) → MobileStep m before after → Alive m before
        → Alive m after }
{}

/// A connection that lives continues to live when a message moves along the line: the message is
/// relayed, is held until CC or while an old channel drains, is dropped if it isn't of the flow, or
/// is taken by the switch.
pub fn relaying_keeps_line_up()
    ensures { (m : ℕ) (before after : LineUp) → RelayStep before after → Alive m before
        → Alive m after }
{}

/// A connection that lives continues to live when the roles of its channels change: when a COMMAND
/// is put, when COMPLETE or FAILURE is received, and when an old channel is released and leaves.
pub fn changes_keep_line_up()
    ensures { (m : ℕ) (before after : LineUp) → ChangeStep before after → Alive m before
        → Alive m after }
{}

/// A connection that lives continues to live when the link of a station breaks and a part of what
/// is on its way up from a channel of the station is lost.
pub fn breaks_keep_line_up()
    ensures { (m : ℕ) (before after : LineUp) → BreakStep before after → Alive m before
        → Alive m after }
{}

/// Whatever happened to a connection that lives, the switch accepted the first messages that the
/// mobile's upper layers sent, once and in order, and judged no gap. The messages that may still
/// reach the switch begin with the next message sent, or with the last accepted message. Assumes: a
/// modulus of 2 or more.
pub fn line_up_is_accepted_in_order()
    ensures alive { (m : ℕ) (l : LineUp) → 2 ≤ m → Alive m l
        → IsInOrder m l.sent l.taken (arriving l) }
    ensures run { (m : ℕ) (before after : LineUp) → 2 ≤ m → Alive m before → Steps m before after
        → IsInOrder m after.sent after.taken (arriving after) }
{}

/// A connection that lives may close or be removed; the messages that the switch took, followed by
/// those that wait for the switch, are then in order. They remain in order when the mobile sends
/// more, when the switch takes a waiting message, and when the link of the switch breaks and a part
/// of the waiting messages is lost. The switch accepted the first messages sent, once and in order,
/// and judged no gap, if the modulus is 2 or more.
pub fn ended_line_up_remains_in_order()
    ensures ends { (m : ℕ) (l : LineUp) → Alive m l → Ended m l.sent l.out l.taken }
    ensures sends { (m : ℕ) (sent more out taken : List (List ℕ)) → Ended m sent out taken
        → Ended m (sent ++ more) out taken }
    ensures takes { (m : ℕ) (sent out taken : List (List ℕ)) (x : List ℕ)
        → Ended m sent (x ∷ out) taken → Ended m sent out (taken ++ x ∷ []) }
    ensures loses { (m : ℕ) (sent out lost taken : List (List ℕ)) → Ended m sent (out ++ lost) taken
        → Ended m sent out taken }
    ensures accepted { (m : ℕ) (sent out taken : List (List ℕ)) → 2 ≤ m → Ended m sent out taken
        → IsInOrder m sent taken out }
{}
