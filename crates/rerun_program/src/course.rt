// SPDX-License-Identifier: MIT OR Apache-2.0
ghost use Rattle.std.specs.Prelude.{◌≡◌, ◌||◌, IfErr, IfOk, OnOk, is_some};
ghost use Rattle.dtap_codec.specs.Number.{count_of};
ghost use Rattle.program_io.specs.Status.{status_of};
ghost use Rattle.rerun.specs.Difference.{first_difference};
ghost use Rattle.rerun_lines.specs.StepText.{step_text};
ghost use Rattle.rerun_program.specs.Done.{concerns_wanted, difference_told, differs_at, lines_at};
ghost use Rattle.rerun_program.specs.Done.{mark_of, shown_in, told};
ghost use Rattle.rerun_program.specs.Going.{IsBegun, behind_step, seen, stops_in};

use crate::plan::{Mode, Plan};
use conn_messages::Out;
use connection_notes::Note;
use controller::{Settings, Step};
use dtap_codec::Modulus;
use octets::Memory;
use program_io::Failure;
use record_steps::RecordedStep;
use rerun::{Again, Extent, Rerun, first_difference};
use rerun_lines::{Mark, View, put_difference, put_step};
use std::alloc::Global;

/// A run that is done again, over all its parts.
#[derive(Drop)]
pub(crate) struct Course {
    alloc: Global,
    mode: Mode,
    view: View,
    /// How many links the controller has.
    links: u16,
    rerun: Rerun,
    /// How many steps were done. It saturates.
    count: u64,
    /// Whether one of them put other frames than the record has.
    has_differed: bool,
    /// The lines of the last step.
    lines: Vec<u8>,
    /// The line of its first difference.
    difference: Vec<u8>,
}

impl Course {
    /// A run of the controller with these settings, before its first step.
    pub(crate) fn new(alloc: Global, plan: Plan, settings: Settings) -> Result<Course, Memory>
        ensures { IfOk result (λ course. IsBegun plan (seen course)) }
    {
        let links = u16::from(settings.cell_count()) + 1;
        let modulus = modulus_of(&settings);
        let rerun = Rerun::new(alloc, settings)?;
        Ok(Course {
            alloc,
            mode: plan.mode,
            view: View {
                modulus,
                choice: plan.choice,
            },
            links,
            rerun,
            count: 0,
            has_differed: false,
            lines: Vec::new(alloc),
            difference: Vec::new(alloc),
        })
    }

    /// Whether it stops at a step, which put other frames than the record has or didn't.
    pub(crate) fn stops_at(&self, differs: bool) -> bool
        ensures { result ≡ stops_in self.now.mode differs }
    {
        match self.mode {
            Mode::Show => differs,
            Mode::Compare => false,
        }
    }

    /// Whether a step put other frames than the record has.
    pub(crate) fn has_differed(&self) -> bool
        ensures { result ≡ self.now.has_differed }
    {
        self.has_differed
    }

    pub(crate) fn links(&self) -> u16
        ensures { result ≡ self.now.links }
    {
        self.links
    }

    /// The lines of the last step.
    pub(crate) fn lines(&self) -> &[u8]
        ensures { result.now ≡ self.now.lines.items }
    {
        self.lines.as_slice()
    }

    /// The line of its first difference; empty where there is none.
    pub(crate) fn difference(&self) -> &[u8]
        ensures { result.now ≡ self.now.difference.items }
    {
        self.difference.as_slice()
    }

    /// Does a step again, and says whether it put other frames than the record has.
    pub(crate) fn step(&mut self, extent: Extent, done: &RecordedStep) -> Result<bool, Failure>
        ensures state { OnOk result (seen self.new ≡ behind_step (seen self.old) done.now) }
        ensures differs { IfOk result (λ differs.
            differs ≡ is_some (differs_at extent self.old.rerun done.now)) }
        ensures differed { IfOk result (λ differs.
            self.new.has_differed ≡ (differs || self.old.has_differed)) }
        ensures lines { OnOk result (self.new.lines.items ≡ lines_at self.old.mode self.old.view
            (mark_of self.old.count done.now) self.old.rerun done.now.step) }
        ensures difference { OnOk result (self.new.difference.items ≡ difference_told extent
            (mark_of self.old.count done.now) self.old.rerun done.now) }
        ensures err { IfErr result (λ failure. status_of failure ≡ 3) }
    {
        let concerns = self.concerns(&done.step)?;
        self.count = self.count.saturating_add(1);
        let mark = Mark {
            number: self.count,
            stamp: done.stamp,
        };
        let again = self.rerun.give(&done.step)?;
        self.tell(mark, concerns, extent, done, again)
    }

    /// Whether a step takes a frame for the connection that is wanted.
    fn concerns(&self, step: &Step) -> Result<bool, Memory>
        ensures { IfOk result (λ is.
            is ≡ concerns_wanted self.now.rerun step.now self.now.view.choice.conn) }
    {
        match self.view.choice.conn {
            None => Ok(false),
            Some(number) => self.rerun.concerns(step, number),
        }
    }

    /// Makes the lines of a step, and says whether it put other frames than the record has.
    fn tell(
        &mut self,
        mark: Mark,
        concerns: bool,
        extent: Extent,
        done: &RecordedStep,
        again: Again,
    ) -> Result<bool, Failure>
        ensures kept { seen self.new ≡ seen self.old }
        ensures differs { IfOk result (λ differs.
            differs ≡ is_some (first_difference extent again.outputs.outs done.now.puts)) }
        ensures differed { IfOk result (λ differs.
            self.new.has_differed ≡ (differs || self.old.has_differed)) }
        ensures lines { OnOk result (self.new.lines.items
            ≡ shown_in self.old.mode (step_text (count_of self.old.view.modulus)
            self.old.view.choice mark concerns done.now.step again.outputs.outs
            again.notes.items)) }
        ensures difference { OnOk result (self.new.difference.items
            ≡ told mark again.outputs.outs done.now.puts
            (first_difference extent again.outputs.outs done.now.puts)) }
        ensures err { IfErr result (λ failure. status_of failure ≡ 3) }
    {
        let outs = again.outputs.as_slice();
        let shown = self.show(mark, concerns, &done.step, outs, again.notes.as_slice());
        let told = match shown {
            Ok(()) => self.compare(mark, extent, done, outs),
            Err(failure) => Err(failure),
        };
        drop(again);
        told
    }

    /// Makes the lines of a step, where they are shown.
    fn show(
        &mut self,
        mark: Mark,
        concerns: bool,
        step: &Step,
        outs: &[Out],
        notes: &[Note],
    ) -> Result<(), Failure>
        ensures kept { seen self.new ≡ seen self.old }
        ensures differed { self.new.has_differed ≡ self.old.has_differed }
        ensures lines { OnOk result (self.new.lines.items
            ≡ shown_in self.old.mode (step_text (count_of self.old.view.modulus)
            self.old.view.choice mark concerns step.now outs.now notes.now)) }
        ensures err { IfErr result (λ failure. status_of failure ≡ 3) }
    {
        self.lines.clear();
        match self.mode {
            Mode::Show => {
                let lines = &mut self.lines;
                put_step(
                    self.alloc, &self.view, mark, concerns, step, outs, notes, lines,
                )
            }
            Mode::Compare => Ok(()),
        }
    }

    /// Makes the line of the first frame that differs from the record, if one does.
    fn compare(
        &mut self,
        mark: Mark,
        extent: Extent,
        done: &RecordedStep,
        outs: &[Out],
    ) -> Result<bool, Failure>
        ensures kept { seen self.new ≡ seen self.old }
        ensures lines { self.new.lines ≡ self.old.lines }
        ensures differs { IfOk result (λ differs.
            differs ≡ is_some (first_difference extent outs.now done.now.puts)) }
        ensures differed { IfOk result (λ differs.
            self.new.has_differed ≡ (differs || self.old.has_differed)) }
        ensures difference { OnOk result (self.new.difference.items
            ≡ told mark outs.now done.now.puts
            (first_difference extent outs.now done.now.puts)) }
        ensures err { IfErr result (λ failure. status_of failure ≡ 3) }
    {
        self.difference.clear();
        let recorded = done.puts.as_slice();
        match first_difference(extent, outs, recorded) {
            None => Ok(false),
            Some(place) => {
                self.has_differed = true;
                let line = &mut self.difference;
                put_difference(self.alloc, mark, place, outs, recorded, line)?;
                Ok(true)
            }
        }
    }
}

/// How many numbers messages of the flow have in a network.
fn modulus_of(settings: &Settings) -> Modulus {
    if settings.release98() {
        Modulus::Two
    } else {
        Modulus::Four
    }
}
