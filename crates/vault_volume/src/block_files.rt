//! The files of a machine, as far as a volume needs them.
ghost use Rattle.std.specs.Prelude.{◌≡◌, ◌≢◌, ◌*◌, ℕ, List, Option, Some, None, IfErr, IfOk, IsErrOf, OnErr, OnOk, replicate};
ghost use Rattle.vault_volume.specs.Disk.{LeavesOneImage};
ghost use Rattle.vault_volume.specs.File.{IsNotOfLength};

use crate::{BlockFile, FileError};

/// What the file of a volume is opened for.
#[derive(Clone, Copy)]
pub enum Access {
    Read,
    ReadAndWrite,
}

/// A file is opened by its path, locked against each other one who would open it so.
pub trait BlockFiles {
    type File: BlockFile;

    /// The bytes of the file of a path, where there is one that is not open.
    ghost holds: { Self → List ℕ → Option (List ℕ) };

    /// A file was opened by a path, and has not been closed.
    ghost is_open: { Self → List ℕ → Type 0 };

    /// What the machine has besides these files is the same in both states.
    ghost same_beside: { Self → Self → Type 0 };

    /// The file that is there. Where it is opened only to be read, a call that writes may fail.
    fn find(&mut self, path: &str, access: Access) -> Result<Self::File, FileError>
        ensures fresh { IfOk result (λ f. Self.File.failures f ≡ 0) }
        ensures missing { Self.File.tells → IsErrOf result FileError.Missing → holds self.old path.now ≡ None }
        ensures locked { Self.File.tells → IsErrOf result FileError.Locked → holds self.old path.now ≡ None }
        ensures found { Self.File.tells → IfOk result (λ f. holds self.old path.now ≡ Some (Self.File.image f)) }
        ensures settled { Self.File.tells → IfOk result (λ f. LeavesOneImage (Self.File.image f) (Self.File.left_at f (Self.File.moment f))) }
        ensures opened { Self.File.tells → OnOk result (holds self.new path.now ≡ None) }
        ensures open { Self.File.tells → OnOk result (is_open self.new path.now) }
        ensures unopened { Self.File.tells → OnErr result (holds self.new path.now ≡ holds self.old path.now) }
        // The files of other paths stay.
        ensures others { Self.File.tells → (other : List ℕ) → other ≢ path.now → holds self.new other ≡ holds self.old other }
        ensures others_open { Self.File.tells → (other : List ℕ) → other ≢ path.now → is_open self.old other → is_open self.new other }
        ensures beside { same_beside self.old self.new }
        ensures kind { IfErr result IsNotOfLength };

    /// Makes the file with so many blocks of zero bytes, also where there is one of that name. One that is
    /// locked is left as it is; another failure may leave any bytes.
    fn make(&mut self, path: &str, blocks: u32) -> Result<Self::File, FileError>
        ensures fresh { IfOk result (λ f. Self.File.failures f ≡ 0) }
        ensures zeros { Self.File.tells → IfOk result (λ f. Self.File.image f ≡ replicate (4096 * blocks) 0) }
        ensures settled { Self.File.tells → IfOk result (λ f. LeavesOneImage (Self.File.image f) (Self.File.left_at f (Self.File.moment f))) }
        ensures opened { Self.File.tells → OnOk result (holds self.new path.now ≡ None) }
        ensures open { Self.File.tells → OnOk result (is_open self.new path.now) }
        ensures locked { Self.File.tells → IsErrOf result FileError.Locked → holds self.new path.now ≡ holds self.old path.now }
        ensures others { Self.File.tells → (other : List ℕ) → other ≢ path.now → holds self.new other ≡ holds self.old other }
        ensures others_open { Self.File.tells → (other : List ℕ) → other ≢ path.now → is_open self.old other → is_open self.new other }
        ensures beside { same_beside self.old self.new }
        ensures kind { IfErr result IsNotOfLength };

    /// Closes a file that was opened by a path. It keeps its bytes.
    fn close(&mut self, path: &str, file: Self::File)
        requires { Self.File.tells → is_open self.old path.now }
        ensures closed { Self.File.tells → holds self.new path.now ≡ Some (Self.File.image file) }
        ensures others { Self.File.tells → (other : List ℕ) → other ≢ path.now → holds self.new other ≡ holds self.old other }
        ensures others_open { Self.File.tells → (other : List ℕ) → other ≢ path.now → is_open self.old other → is_open self.new other }
        ensures beside { same_beside self.old self.new };

    ghost beside_through: { (a b c : Self) → same_beside a b → same_beside b c → same_beside a c };
}
