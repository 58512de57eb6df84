// SPDX-License-Identifier: MIT OR Apache-2.0
ghost use Rattle.std.specs.Prelude.{◌≡◌, IfErr, IfOk, OnErr, OnOk, None, Some};
ghost use Rattle.record_steps.specs.Reading.{FaultIs, IsNoFault, begun, first_reading, kept};
ghost use Rattle.record_steps.specs.Reading.{link_fault, number_fault, order_fault, taken, with_put};
ghost use Rattle.record_steps.specs.declared.step_fault.StepFault.TheVariants.{Memory};
ghost use Rattle.record_steps.specs.declared.step_reader.Part.TheVariants.{Steps};

use crate::{PutFrame, RecordedStep, StepFault};
use controller_model::{Item, Step};
use run_record::{Entry, Stamp, Stamped};
use std::alloc::Global;
use std::marker::Model;
use std::mem;

/// The part of a record that was read last.
#[derive(Clone, Copy)]
pub enum Part {
    /// The head, which comes before the first step.
    Head,
    /// The steps, with the frames that they put.
    Steps,
    /// The end that the record states (`Entry::Lost`).
    End,
}

/// Assembles the steps of a record from its entries. A step is handed out when the next step
/// begins, or at the end of the record.
#[derive(Drop)]
pub struct StepReader {
    alloc: Global,
    part: Part,
    step: Option<RecordedStep>,
}

impl Model for StepReader {
    ghost use Rattle.record_steps.specs.Reading.{Reading};

    ghost Value = { Reading };

    ghost view = { λ r. record { part = r.part; step = r.step } };
}

impl StepReader {
    /// A reader before the first entry.
    pub fn new(alloc: Global) -> StepReader
        ensures { result ≡ first_reading }
    {
        StepReader {
            alloc,
            part: Part::Head,
            step: None,
        }
    }

    /// Takes the next entry of a record with `links` links. Returns the preceding step, if the
    /// entry begins a step; else `Ok(None)`. An `Err` changes nothing: `PutBeforeStep`,
    /// `HeadBehindStep` or `BehindEnd` for an entry at the wrong place, `NoLink` for a link that
    /// isn't below `links`, `Memory` if an allocation fails.
    pub fn take(&mut self, links: u16, this: Stamped) -> Result<Option<RecordedStep>, StepFault>
        ensures taken { IfOk result (λ done. (done ≡ (taken self.old this).done)
            × (self.new ≡ (taken self.old this).next)) }
        ensures sound { IfOk result (λ _. IsNoFault links self.old this) }
        ensures fault { IfErr result (λ fault. FaultIs links self.old this fault) }
        ensures refused { OnErr result (self.new ≡ self.old) }
    {
        check_order(self.part, &this.entry)?;
        check_link(links, &this.entry)?;
        let Stamped { stamp, entry } = this;
        match entry {
            Entry::Head(_) => {
                self.part = Part::Head;
                Ok(None)
            }
            Entry::Took(link, what) => {
                let source = u16::from(link);
                Ok(self.begin(stamp, Step::Take(Item { source, what })))
            }
            Entry::Passed(ms) => Ok(self.begin(stamp, Step::Tick(ms))),
            Entry::Put(link, frame) => {
                self.put(PutFrame { link, frame })?;
                Ok(None)
            }
            Entry::Lost => {
                self.part = Part::End;
                Ok(None)
            }
        }
    }

    /// Begins a step, and returns the preceding step, if there is one.
    fn begin(&mut self, stamp: Stamp, step: Step) -> Option<RecordedStep>
        ensures done { result ≡ (begun stamp step self.old.step).done }
        ensures next { self.new ≡ (begun stamp step self.old.step).next }
    {
        self.part = Part::Steps;
        let begun = RecordedStep {
            stamp,
            step,
            puts: Vec::new(self.alloc),
        };
        mem::replace(&mut self.step, Some(begun))
    }

    /// Appends a frame to those of the current step. If the allocation fails, nothing changes.
    fn put(&mut self, put: PutFrame) -> Result<(), StepFault>
        ensures put { OnOk result (self.new ≡ (kept Steps (with_put put self.old.step)).next) }
        ensures refused { OnErr result (self.new ≡ self.old) }
        ensures memory { IfErr result (λ fault. fault ≡ Memory) }
    {
        if let Some(step) = &mut self.step {
            if step.puts.push(put).is_err() {
                return Err(StepFault::Memory);
            }
        }
        self.part = Part::Steps;
        Ok(())
    }

    /// The last step; `None` if no step was read. If the record was cut, the step may lack its last
    /// frames.
    pub fn finish(self) -> Option<RecordedStep>
        ensures { result ≡ self.step }
    {
        self.step
    }
}

/// Checks that an entry may follow the part `part`.
fn check_order(part: Part, entry: &Entry) -> Result<(), StepFault>
    ensures ok { OnOk result (order_fault part entry.now ≡ None) }
    ensures err { IfErr result (λ fault. order_fault part entry.now ≡ Some fault) }
{
    match (part, entry) {
        (Part::End, _) => Err(StepFault::BehindEnd),
        (Part::Head, Entry::Put(..)) => Err(StepFault::PutBeforeStep),
        (Part::Steps, Entry::Head(_)) => Err(StepFault::HeadBehindStep),
        _ => Ok(()),
    }
}

/// Checks that the link of an entry, if it has one, is below `links`.
fn check_link(links: u16, entry: &Entry) -> Result<(), StepFault>
    ensures ok { OnOk result (link_fault links entry.now ≡ None) }
    ensures err { IfErr result (λ fault. link_fault links entry.now ≡ Some fault) }
{
    match entry {
        Entry::Took(link, _) => check_number(links, *link),
        Entry::Put(link, _) => check_number(links, *link),
        _ => Ok(()),
    }
}

fn check_number(links: u16, link: u8) -> Result<(), StepFault>
    ensures ok { OnOk result (number_fault links link ≡ None) }
    ensures err { IfErr result (λ fault. number_fault links link ≡ Some fault) }
{
    if u16::from(link) < links {
        Ok(())
    } else {
        Err(StepFault::NoLink(link))
    }
}
