// SPDX-License-Identifier: MIT OR Apache-2.0
ghost use Rattle.std.specs.Prelude.{◌≡◌, ◌++◌, ℕ, List};
ghost use Rattle.run_record.specs.declared.entry.Stamp.{Stamp};
ghost use Rattle.run_record.specs.declared.entry.Stamped.{Stamped};
ghost use Rattle.run_record.specs.declared.next.Next.TheVariants.{End};
ghost use Rattle.run_record.specs.Reads.{file_of};
ghost use Rattle.run_record.specs.Record.{AreWritable};
ghost use Rattle.record_steps.specs.declared.step_reader.Part.TheVariants.{Head};
ghost use Rattle.record_steps.specs.Reading.{first_reading, handed, sound_from};
ghost use Rattle.record_steps.specs.Runs.{AreOfLinks, IsCut, ReadsSteps, entries_with};
ghost use Rattle.record_steps.specs.Steps.{StepDone, steps_of};

use run_record::{what_is_written_is_read, what_was_cut_is_read_so_far};

/// Law: the reader hands out exactly the steps of the entries before the first entry with a fault,
/// whatever the entries are.
pub fn steps_are_handed_out()
    ensures { (links : ℕ) (entries : List Stamped) →
        handed first_reading (sound_from links Head entries)
        ≡ steps_of (sound_from links Head entries) }
{}

/// Law: the file of a run's head and steps, with the frames that each step put, is read without a
/// fault and gives the same steps with the same frames. Assumes: the links of the steps and frames
/// are links of the run; each entry can be written.
pub fn steps_are_read_as_recorded()
    ensures { (links : ℕ) (stamp : Stamp) (pieces : List (List ℕ)) (steps : List StepDone) →
        AreOfLinks links steps → AreWritable (entries_with stamp pieces steps) →
        ReadsSteps links (file_of (entries_with stamp pieces steps)) End steps }
{
    what_is_written_is_read();
}

/// Law: a beginning of the file of a run's head and steps is cut within the file's header, or is
/// read without a fault up to its end or up to a packet that is cut. The steps that are read are
/// the first steps of the run, with the frames that these steps put. Only the last step that is
/// read may lack frames: the last frames that it put. Assumes: the links of the steps and frames
/// are links of the run; each entry can be written.
pub fn steps_of_a_cut_record_are_the_first()
    ensures { (links : ℕ) (stamp : Stamp) (pieces : List (List ℕ)) (steps : List StepDone)
        (octets rest : List ℕ) →
        AreOfLinks links steps → AreWritable (entries_with stamp pieces steps) →
        octets ++ rest ≡ file_of (entries_with stamp pieces steps) → IsCut links octets steps }
{
    what_was_cut_is_read_so_far();
}
