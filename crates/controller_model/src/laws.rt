// SPDX-License-Identifier: MIT OR Apache-2.0
ghost use Rattle.std.specs.Prelude.{◌≡◌, ◌≢◌, ℕ, List, Option, Some, option_map};
ghost use Rattle.std.specs.Prelude.{take};
ghost use Rattle.conn_messages.specs.declared.channel.Channel.{Channel};
ghost use Rattle.conn_rules.specs.declared.input.Input.{Input};
ghost use Rattle.conn_rules.specs.Connection.{Connection};
ghost use Rattle.conn_rules.specs.Streams.{OfRow};
ghost use Rattle.conn_rules.specs.Table.{row_of};
ghost use Rattle.controller_model.specs.declared.word.Word.{Word};
ghost use Rattle.controller_model.specs.Controller.{Controller, Entry, entry_of};
ghost use Rattle.controller_model.specs.Life.{aged, all_aged, on_word, timed, with_own_input};
ghost use Rattle.controller_model.specs.Ownership.{Leaves, concerned};
ghost use Rattle.controller_model.specs.Reports.{decision_over, report_reading};
ghost use Rattle.dtap_codec.specs.declared.report.Report.{Report};
ghost use Rattle.dtap_codec.specs.declared.report.TheConstants.{REPORT_LENGTH};
ghost use Rattle.dtap_codec.specs.Report.{IsReport};
ghost use Rattle.ho_decision.specs.declared.decision.Decision.{Decision};
ghost use Rattle.ho_decision.specs.Decision.{Decides};
ghost use Rattle.ho_decision.specs.Settings.{Settings};

/// If the first 16 octets of a list are the text of a report, these octets are read as that report.
pub fn report_is_read()
    ensures { (octets : List ℕ) (report : Report) → IsReport octets report
        → report ≡ report_reading (take REPORT_LENGTH octets) }
{}

/// If `Decides` allows a decision for some settings, reports and number of the last report,
/// `decision_over` gives that decision for the same settings, reports and number.
pub fn decision_is_one()
    ensures { (s : Settings) (reports : List Report) (number : ℕ) (d : Decision)
        → Decides s reports number d
        → d ≡ decision_over s reports number }
{}

/// A row of the table doesn't change the number of its connection.
pub fn row_keeps_number()
    ensures { (s : Connection) (input : Input) (offer : Option Channel)
        → OfRow (λ r. r.next.number ≡ s.number) (row_of s input offer) }
{}

/// A frame leaves every connection unchanged, except the connection that the frame concerns. The
/// break of a link and the expiry of timers are inputs to one connection after the other; each such
/// input leaves every other connection unchanged. Elapsed time is added to each connection
/// independently of the others.
pub fn others_are_left()
    ensures frames { (m source : ℕ) (word : Word) (c : Controller) → concerned c word ≢ Some m
        → Leaves m c (on_word source word c).next }
    ensures breaks { (m : ℕ) (input : Input) (c : Controller) (e : Entry)
        → m ≢ e.connection.number → Leaves m c (with_own_input input c e).next }
    ensures ages { (m ms : ℕ) (c : Controller) → entry_of (all_aged ms c) m
        ≡ option_map (aged ms) (entry_of c m) }
    ensures time { (m : ℕ) (c : Controller) (e : Entry) → m ≢ e.connection.number
        → Leaves m c (timed c e).next }
{}
