// SPDX-License-Identifier: MIT OR Apache-2.0
//! Laws: each contract states a property of the definitions that it names. The bodies are empty.

ghost use Rattle.judge_laws.specs.Agreeing.{RowsAgree};
ghost use Rattle.judge_laws.specs.Hearing.{StationsAreHeardAlike, SwitchIsHeardAlike};
ghost use Rattle.judge_laws.specs.Lives.{LivesAreJudgedFairly};
ghost use Rattle.judge_laws.specs.Saying.{ActivationsShowReferences, FramesSayWhatWasPut};

/// A judge and the controller read the same in a frame that arrives: the same channel or reference,
/// and the same message. In a frame that a judge doesn't use, the judge reads nothing. The law
/// holds for each result of reading the frame's body, also for a fault. The law is about
/// definitions.
pub fn frames_are_heard_alike()
    ensures station { StationsAreHeardAlike }
    ensures switch { SwitchIsHeardAlike }
{}

/// In the frames of a connection's messages, a judge reads exactly what the messages say. Assumes:
/// the connection's number fits 24 bits, the messages can be written and are read as the same
/// messages (`IsSound`), messages to a station aren't put on the switch's link, and the judge finds
/// the handover reference in each CHANNEL ACTIVATION. A judge finds the reference in each CHANNEL
/// ACTIVATION that the controller builds for a station. The law is about definitions.
pub fn frames_say_what_was_put()
    ensures messages { FramesSayWhatWasPut }
    ensures activations { ActivationsShowReferences }
{}

/// After the messages of a row, a judge's connection agrees with the controller's connection
/// (`Agrees`): the channels are the same, no flow has a fault, and the due messages are those that
/// are held or may still be relayed. The messages change neither the channels nor the references of
/// the judge's connection. Assumes: the controller's connection is valid, its channels differ, and
/// it is open before and after the row (`IsOpenRow`); the switch was asked for the connection; the
/// judge's connection has taken the row's input and the row's COMMAND, if there is one
/// (`Prepared`). The law covers neither how frames find their connection nor rows that close a
/// connection. For a whole life see `lives_are_judged_fairly`. The law is about definitions.
pub fn rows_agree()
    ensures { RowsAgree }
{}

/// A judge finds no fault of the controller in the frames of any life of the controller, neither in
/// a connection that the frames end nor in a connection that is open after them. Assumes: the
/// settings are allowed, each body that arrives consists of octets, and the judge knows the cell of
/// no station. The frames may have any numbers, and may arrive on any link in any order, even after
/// the link broke. If the judge stops judging a connection at a frame (`unjudged`), the law doesn't
/// cover the connection from that frame on. Nor does the law say how often the judge stops. The law
/// is about definitions.
pub fn lives_are_judged_fairly()
    ensures { LivesAreJudgedFairly }
{}
