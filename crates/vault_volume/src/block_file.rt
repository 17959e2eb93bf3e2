//! An open file as a volume uses it: what a read gives, and what a stop may leave.
ghost use Rattle.std.specs.Prelude.{◌≡◌, ◌+◌, ◌-◌, ◌^◌, ◌<◌, ◌≤◌, List, ℕ, length, OnOk, OnErr, IfOk};
ghost use Rattle.vault_volume.specs.Disk.{CountsAtMost, LeavesOneImage, Unsettles, SameLeft, Ticks};
ghost use Rattle.vault_volume.specs.Image.{bytes_at, with_bytes, DiffersOnlyWithin};

use std::io;

/// A file that reveals its image follows the model of a disk in `Volume`. Of one that does not, nothing
/// is known.
pub trait BlockFile: Drop {
    /// Whether a file of this type reveals its image.
    ghost tells: { Type 0 };

    /// How many of its calls have failed, as far as it counts them.
    ghost failures: { Self → ℕ };

    /// All its bytes, as a read gives them.
    ghost image: { Self → List ℕ };

    /// The clock: how many calls there have been.
    ghost moment: { Self → ℕ };

    /// What a stop could leave at each moment up to now.
    ghost left_at: { Self → ℕ → List ℕ → Type 0 };

    /// How many bytes it has.
    fn len(&self) -> io::Result<u64>
        ensures len { tells → IfOk result (λ bytes. bytes ≡ length (image self.now)) };

    /// Gives the bytes written last.
    fn read_exact_at(&mut self, out: &mut [u8], at: u64) -> io::Result<()>
        requires range { tells → at + length out.old ≤ length (image self.old) }
        requires count { failures self.old < 2 ^ 64 - 1 }
        ensures failures { CountsAtMost result (failures self.old) (failures self.new) }
        ensures bytes { tells → OnOk result (out.new ≡ bytes_at (image self.old) at (length out.old)) }
        ensures image { tells → image self.new ≡ image self.old }
        ensures stop { tells → SameLeft (left_at self.old (moment self.old)) (left_at self.new (moment self.new)) }
        ensures clock { tells → Ticks (moment self.old) (moment self.new) (left_at self.old) (left_at self.new) };

    /// Until a sync that answers `Ok`, a stop may leave any bytes in the range, also where this fails.
    fn write_all_at(&mut self, bytes: &[u8], at: u64) -> io::Result<()>
        requires range { tells → at + length bytes.now ≤ length (image self.old) }
        requires count { failures self.old < 2 ^ 64 - 1 }
        ensures failures { CountsAtMost result (failures self.old) (failures self.new) }
        ensures written { tells → OnOk result (image self.new ≡ with_bytes (image self.old) at bytes.now) }
        ensures torn { tells → OnErr result (DiffersOnlyWithin at (length bytes.now) (image self.old) (image self.new)) }
        ensures same_length { tells → length (image self.new) ≡ length (image self.old) }
        ensures stop { tells → Unsettles at (length bytes.now) (left_at self.old (moment self.old)) (left_at self.new (moment self.new)) }
        ensures clock { tells → Ticks (moment self.old) (moment self.new) (left_at self.old) (left_at self.new) };

    /// After an `Ok` a stop leaves what a read gives.
    fn sync_all(&mut self) -> io::Result<()>
        requires count { failures self.old < 2 ^ 64 - 1 }
        ensures failures { CountsAtMost result (failures self.old) (failures self.new) }
        ensures settled { tells → OnOk result (LeavesOneImage (image self.old) (left_at self.new (moment self.new))) }
        ensures unsettled { tells → OnErr result (SameLeft (left_at self.old (moment self.old)) (left_at self.new (moment self.new))) }
        ensures image { tells → image self.new ≡ image self.old }
        ensures clock { tells → Ticks (moment self.old) (moment self.new) (left_at self.old) (left_at self.new) };
}
