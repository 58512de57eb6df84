// SPDX-License-Identifier: MIT OR Apache-2.0
ghost use Rattle.std.specs.Prelude.{◌≡◌, ◌≢◌, ℕ, List, None, Some, map, slice_get, take};
ghost use Rattle.conn_messages.specs.declared.out.Out.{Out};
ghost use Rattle.record_steps.specs.declared.recorded_step.PutFrame.{PutFrame};
ghost use Rattle.rerun.specs.declared.difference.Extent.{Extent};
ghost use Rattle.rerun.specs.declared.difference.Extent.TheVariants.{All};
ghost use Rattle.rerun.specs.Difference.{first_difference, put_of};

/// Law: the frames that a step put are those of its record, each on its link and in the same order,
/// if `first_difference` finds no difference between all frames of the step.
pub fn same_frames_are_equal()
    ensures { (outs : List Out) (puts : List PutFrame) →
        first_difference All outs puts ≡ None → map put_of outs ≡ puts }
{}

/// Law: if `first_difference` finds a difference, the frames before its place are the same on both
/// sides, and the frames at its place differ.
pub fn difference_is_the_first()
    ensures { (extent : Extent) (outs : List Out) (puts : List PutFrame) (k : ℕ) →
        first_difference extent outs puts ≡ Some k →
        (take k (map put_of outs) ≡ take k puts)
        × (slice_get (map put_of outs) k ≢ slice_get puts k) }
{}
