// SPDX-License-Identifier: MIT OR Apache-2.0
//! Laws: each contract claims something about the definitions that are named in the contract. The
//! bodies are empty.

ghost use Rattle.std.specs.Prelude.{◌≡◌, ℕ, List};
ghost use Rattle.std.specs.List.{AllByRecursion};
ghost use Rattle.controller_model.specs.declared.step.Step.{Step};
ghost use Rattle.controller_model.specs.Controller.{new_controller};
ghost use Rattle.controller_model.specs.Life.{life};
ghost use Rattle.controller_worker.specs.Steps.{frames_to};
ghost use Rattle.ipa_framing.specs.Frame.{IsFrame};
ghost use Rattle.ipa_framing.specs.Framer.{Call, frames_of, octets_of};
ghost use Rattle.link_workers.specs.Reading.{frames_text};
ghost use Rattle.octets.specs.Element.{AreOctets};
ghost use Rattle.settings.specs.Parameters.{AreAllowed, Parameters};
ghost use Rattle.station_io.specs.Octets.{Next, TakesWhole, came_in, ended_behind, items_in};
ghost use Rattle.station_io.specs.Octets.{merged, octets_put, order_of};

/// Octets in decide octets out. The octets of each link may arrive in any pieces, and the frames of
/// all links may be merged with each other and with ticks in any order. If the framer of each link
/// has returned every whole frame, the octets put for a link are the octets of the frames that the
/// controller's life over the merged steps puts for that link. The octets put are a function of the
/// octets that arrived and of the order (`octets_put`); other pieces of the same octets give the
/// same merged steps. `write_frame` writes each frame that is put, if settings are allowed and
/// octets arrived. Every list of steps is the merge of the items that arrive in the list, in the
/// order of the list.
pub fn octets_in_decide_octets_out()
    ensures put { (p : Parameters) (order : List Next) (calls : ℕ → List Call)
        → ((link : ℕ) → TakesWhole (calls link)) → (link : ℕ)
        → octets_put (new_controller p) order (λ l. items_in (octets_of (calls l))) link
        ≡ frames_text (frames_to link
        (life p (merged order (λ l. ended_behind (frames_of (calls l))))).outs) }
    ensures pieces { (p : Parameters) (order : List Next) (calls others : ℕ → List Call)
        → ((link : ℕ) → TakesWhole (calls link)) → ((link : ℕ) → TakesWhole (others link))
        → ((link : ℕ) → octets_of (calls link) ≡ octets_of (others link))
        → merged order (λ l. ended_behind (frames_of (calls l)))
        ≡ merged order (λ l. ended_behind (frames_of (others l))) }
    ensures written { (p : Parameters) (order : List Next) (octets : ℕ → List ℕ) → AreAllowed p
        → ((link : ℕ) → AreOctets (octets link)) → (link : ℕ)
        → AllByRecursion IsFrame
        (frames_to link (life p (merged order (λ l. items_in (octets l)))).outs) }
    ensures order { (steps : List Step) → merged (order_of steps) (came_in steps) ≡ steps }
{}
