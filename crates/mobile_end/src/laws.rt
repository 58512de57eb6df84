// SPDX-License-Identifier: MIT OR Apache-2.0
//! Laws: each contract here states a property of the definitions that it names. The functions do
//! nothing.

ghost use Rattle.std.specs.Prelude.{◌≡◌, ℕ, List, [], filter};
ghost use Rattle.dtap_codec.specs.Message.{is_flow_message};
ghost use Rattle.dtap_codec.specs.Places.{Rise};
ghost use Rattle.mobile_end.specs.RunsToEnd.{RunsToEnd};
ghost use Rattle.mobile_end.specs.Mobile.{new_mobile};
ghost use Rattle.mobile_end.specs.Calls.{Call, after_calls, taken_by_calls};
ghost use Rattle.mobile_end.specs.Calls.{taken_on_three_by_calls, establishments};
ghost use Rattle.mobile_end.specs.OneRepeat.{OneRepeat};
ghost use Rattle.mobile_end.specs.Unacknowledged.{RepeatsUnacknowledged, acknowledgements};

/// The one-repeat rule, for any calls in any order. The messages of the flow that a station takes
/// in an establishment are a slice of the sent list, in order. The message at place k of the sent
/// list carries the number k modulo m. The first slice begins at place 0. Each later slice begins
/// where the slice before it ended, or at the last message of the slice before it. The law is about
/// the definitions that the contracts of the calls cite.
pub fn repeats_at_most_one()
    ensures { (m : ℕ) (calls : List Call) →
        OneRepeat m (after_calls (new_mobile m) calls).sent 0
        (establishments (new_mobile m) [] calls) }
{}

/// A mobile sends the unacknowledged message again, for any calls in any order. All messages of the
/// flow that are taken in an establishment are acknowledged there, except at most the last one. If
/// the last one isn't acknowledged, the next establishment begins with that message. Otherwise the
/// next establishment begins with the next message of the sent list.
pub fn repeats_the_unacknowledged()
    ensures { (m : ℕ) (calls : List Call) →
        RepeatsUnacknowledged m (after_calls (new_mobile m) calls).sent 0
        (establishments (new_mobile m) [] calls) (acknowledgements (new_mobile m) [] calls) }
{}

/// The messages of the flow that stations take on SAPI 0, over all channels, have places in the
/// sent list that rise from place 0 by steps of 0 or 1, for any calls in any order.
pub fn numbers_run_on()
    ensures { (m : ℕ) (calls : List Call) →
        (k : ℕ) × Rise m (after_calls (new_mobile m) calls).sent 0
        (taken_by_calls (new_mobile m) calls) k }
{}

/// The link of SAPI 0 continues where the messages that stations took ended, for any calls in any
/// order. The messages of the flow that stations took, followed by the messages that stations can
/// still take, have places that rise by steps of 0 or 1 to the end of the sent list. The messages
/// that stations took, followed by the messages that stations can take after the mobile sends again
/// on another channel, have such places too.
pub fn link_goes_on()
    ensures { (m : ℕ) (calls : List Call) →
        RunsToEnd m (after_calls (new_mobile m) calls).sent
        (filter is_flow_message (taken_by_calls (new_mobile m) calls))
        (after_calls (new_mobile m) calls).zero }
{}

/// No message of the flow is taken on SAPI 3, for any calls in any order. Therefore the laws on
/// places speak only of SAPI 0.
pub fn flow_takes_sapi_zero()
    ensures { (m : ℕ) (calls : List Call) →
        filter is_flow_message (taken_on_three_by_calls (new_mobile m) calls) ≡ [] }
{}
