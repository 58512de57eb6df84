// SPDX-License-Identifier: MIT OR Apache-2.0
//! Laws: the contract of each function states what holds of the definitions that the contract
//! names. The functions have empty bodies.

ghost use Rattle.relay_order.specs.Carried.{EventsExplainRuns};
ghost use Rattle.relay_order.specs.Order.{RunsInOrder};
ghost use Rattle.relay_order.specs.Run.{RunsAreShown};

/// The running relay keeps the order of messages. Uplink: the messages that the switch accepts on a
/// connection are a beginning of those that the connection's mobile sent, each once and in order.
/// The messages that the switch took on a connection begin with the message with which the mobile
/// connected. The switch finds no gap, and no DT1 arrives after a connection's CLEAR COMPLETE.
/// These claims on the uplink hold for any beginning of the octets written to the switch, as the
/// switch may not have received the rest. Downlink: the octets written to stations hand to a mobile
/// some of the messages that the switch sent on the mobile's connection. Each message is handed at
/// most once, in order for each SAPI, on the serving channel, and no message is handed while the
/// channel changes. Assumes: some network of mobiles, data links, stations and a switch that follow
/// the standards explains what the relay was given (`Explains`). The law holds of any run of
/// `serve_links` (`RunsAreShown`): over any links, with or without faults, and with outboxes that
/// were given up. In such a run, the controller took from each link the first frames of the octets
/// that arrived, and the octets written to the link are a beginning of those that the controller
/// put.
pub fn relay_keeps_order()
    ensures shown { RunsAreShown }
    ensures order { RunsInOrder }
{}

/// Law: the events of any world explain a run of the relay, once they are carried on until the
/// world's links have ended. So the premise `Explains` of the law on order can be fulfilled. In
/// that run, the links give the octets of the world's stations and switch, in whatever pieces, and
/// the controller takes the frames in the order in which the world's controller took them. Assumes:
/// `bsc` accepts the world's settings, and the texts of the events are octets.
pub fn events_explain_runs()
    ensures { EventsExplainRuns }
{}
