// SPDX-License-Identifier: MIT OR Apache-2.0
//! Laws: functions with empty bodies. The contract of each states a property of the definitions
//! that it names.

ghost use Rattle.std.specs.Prelude.{List, ℕ};
ghost use Rattle.settings.specs.Parameters.{Parameters};
ghost use Rattle.world_model.specs.declared.event.Event.{Event};
ghost use Rattle.world_laws.specs.Order.OctetEvents.{IsOctetEvent};
ghost use Rattle.program_base.specs.Script.{IsLine};
ghost use Rattle.bsc_program.specs.ScriptOrder.{ScriptsRunInOrder};

/// Law: the world that a script's events make is in order, whatever script `replay` reads. The
/// messages that the switch accepts on a connection are the beginning of those that the
/// connection's mobile sent, no gap is ever judged, and each relay queue is first in, first out.
/// Assumes: the settings are allowed.
pub fn scripts_run_in_order()
    ensures { (settings : Parameters) (octets : List ℕ) (events : List Event)
        → ScriptsRunInOrder settings octets events }
{}

/// Law: the messages of an event consist of octets, and the number of a mobile that connects is an
/// octet, if a line is the text of the event. The laws on the order of messages in a world with a
/// controller assume these properties of events.
pub fn lines_are_of_octets()
    ensures { (cells : ℕ) (event : Event) (line : List ℕ)
        → IsLine cells event line → IsOctetEvent event }
{}
