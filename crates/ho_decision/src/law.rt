// SPDX-License-Identifier: MIT OR Apache-2.0
ghost use Rattle.std.specs.Prelude.{◌≡◌, ◌==◌, ℕ, List, [], ◌∷◌, ◌++◌};
ghost use Rattle.std.specs.Prelude.{◌↔◌};
ghost use Rattle.std.specs.List.{list_any};
ghost use Rattle.std.specs.List.Sorted.{IsStrictlyIncreasing};
ghost use Rattle.dtap_codec.specs.declared.report.Report.{Report};
ghost use Rattle.ho_decision.specs.declared.settings.Cell.{Cell};
ghost use Rattle.ho_decision.specs.declared.decision.Decision.{Decision};
ghost use Rattle.ho_decision.specs.Settings.{Settings, IsAllowed, others, other_arfcns};
ghost use Rattle.ho_decision.specs.Average.{last, serving_average, neighbour_average, quality};
ghost use Rattle.ho_decision.specs.Decision.{Decides};
ghost use Rattle.ho_decision.specs.declared.settings.TheConstants.{MAX_WINDOW};

/// Ten reports (`MAX_WINDOW`) are enough: each average and the decision over a list of reports are
/// the same as over the last ten reports of the list. Assumes: allowed settings.
pub fn ten_reports_are_enough()
    ensures serving { (s : Settings) (all : List Report) → IsAllowed s
        → serving_average s all ≡ serving_average s (last MAX_WINDOW all) }
    ensures quality { (s : Settings) (all : List Report) → IsAllowed s
        → quality s all ≡ quality s (last MAX_WINDOW all) }
    ensures neighbour { (s : Settings) (all : List Report) (cell : Cell) → IsAllowed s
        → neighbour_average s all cell ≡ neighbour_average s (last MAX_WINDOW all) cell }
    ensures decision { (s : Settings) (all : List Report) (number : ℕ) (d : Decision) → IsAllowed s
        → Decides s all number d ↔ Decides s (last MAX_WINDOW all) number d }
    // The last ten reports are the same whether a report is appended to a list of reports or to the
    // last ten reports of the list.
    ensures one_more { (all : List Report) (report : Report)
        → last MAX_WINDOW (last MAX_WINDOW all ++ report ∷ []) ≡
        last MAX_WINDOW (all ++ report ∷ []) }
{}

/// For given settings, reports and number of the last report there is at most one decision.
pub fn one_decision()
    ensures { (s : Settings) (reports : List Report) (number : ℕ) (d e : Decision)
        → Decides s reports number d → Decides s reports number e → d ≡ e }
{}

/// BCCH-FREQ is an index into a list of ARFCNs that rises without repeats. The list has the ARFCN
/// of each cell but the serving one, and no other ARFCN.
pub fn arfcns_are_rising()
    ensures rising { (s : Settings) → IsStrictlyIncreasing (other_arfcns s) }
    ensures members { (s : Settings) (arfcn : ℕ)
        → list_any (λ a. a == arfcn) (other_arfcns s) ≡
        list_any (λ c. c.arfcn == arfcn) (others s) }
{}
