// SPDX-License-Identifier: MIT OR Apache-2.0
ghost use Rattle.std.specs.Prelude.{◌≡◌, ◌++◌, ℕ, List};
ghost use Rattle.run_record.specs.declared.entry.Stamped.{Stamped};
ghost use Rattle.run_record.specs.declared.next.Next.TheVariants.{End};
ghost use Rattle.run_record.specs.Reads.{Begins, Reads, file_of};
ghost use Rattle.run_record.specs.Record.{AreWritable};

/// Law: reading the file of some entries gives these entries, and then `End`. Assumes: links are
/// below 256, and milliseconds and the fields of times are below 2^32, as their types ensure; a
/// link can carry each frame; a piece of the head has at most `MAX_HEAD` octets.
pub fn what_is_written_is_read()
    ensures { (entries : List Stamped) → AreWritable entries →
        Reads (file_of entries) entries End }
{}

/// Law: reading a beginning of the file of some entries gives the entries whose packets are whole,
/// and then `End`, or `Cut` if the octets end within a packet. Octets that are shorter than the
/// file's header open as `Cut`. Assumes: links are below 256, and milliseconds and the fields of
/// times are below 2^32, as their types ensure; a link can carry each frame; a piece of the head
/// has at most `MAX_HEAD` octets.
pub fn what_was_cut_is_read_so_far()
    ensures { (entries : List Stamped) (octets rest : List ℕ) → AreWritable entries →
        octets ++ rest ≡ file_of entries → Begins octets entries }
{}
