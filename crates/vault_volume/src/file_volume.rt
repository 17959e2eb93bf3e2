//! A volume that is all of an open file.
ghost use Rattle.std.specs.Prelude.{◌≡◌, ◌≢◌, true, false, ◌+◌, ◌-◌, ◌*◌, ◌<◌, ◌≤◌, ◌^◌, ℕ, List, Some, None, length, replicate, IfErr, IfOk, IfSome, IfNone, IsErrOf, OnOk, OnErr, IsSome, is_ok};
ghost use Rattle.vault_volume.specs.Disk.{CountsFailure, LeavesOneImage};

use crate::{Access, BLOCK_BYTES, BlockFile, BlockFiles, Failed, FileError, Volume};
use std::io;

/// The calls that have failed: how many they are, and why the last one did.
#[derive(Drop)]
struct Failures {
    count: u64,
    cause: Option<io::Error>,
    ghost caused: { 1 ≤ count → IsSome cause },
    ghost uncaused: { count ≡ 0 → cause ≡ None },
}

impl Failures {
    fn new() -> Failures
        ensures { result.count ≡ 0 }
    {
        Failures {
            count: 0,
            cause: None,
        }
    }

    fn note(&mut self, outcome: io::Result<()>) -> Result<(), Failed>
        requires { self.old.count < 2 ^ 64 - 1 }
        ensures answer { is_ok result ≡ is_ok outcome }
        ensures count { CountsFailure result self.old.count self.new.count }
        ensures cause { IfErr outcome (λ e. self.new.cause ≡ Some e) }
        ensures same_cause { OnOk outcome (self.new.cause ≡ self.old.cause) }
    {
        if let Err(cause) = outcome {
            self.count += 1;
            self.cause = Some(cause);
            return Err(Failed);
        }
        Ok(())
    }
}

/// While it is there, no other process can open the file as a volume. It reveals its images where the file
/// reveals its own.
#[derive(Drop)]
pub struct FileVolume<F: BlockFile> {
    file: F,
    blocks: u32,
    failures: Failures,
    is_new: bool,
    ghost image_length: { F.BlockFile.tells → length (F.BlockFile.image file) ≡ 4096 * blocks },
    ghost counted: { F.BlockFile.failures file ≤ failures.count },
}

impl<F: BlockFile> FileVolume<F> {
    ghost use Rattle.vault_volume.specs.File.{block_file_of, is_new_file, IsNotOfLength, IsRefusedRightly};

    /// Makes the file with so many blocks of zero bytes, also where there is one of that name.
    pub fn create<H: BlockFiles<File = F>>(
        files: &mut H,
        path: &str,
        blocks: u32,
    ) -> Result<FileVolume<F>, FileError>
        ensures size { IfOk result (λ v. ⟦<FileVolume<F> as Volume>⟧.size v ≡ blocks) }
        ensures failures { IfOk result (λ v. ⟦<FileVolume<F> as Volume>⟧.failures v ≡ 0) }
        ensures zeros { F.tells → IfOk result (λ v. ⟦<FileVolume<F> as Volume>⟧.image v ≡ replicate (4096 * blocks) 0) }
        ensures settled { F.tells → IfOk result (λ v. LeavesOneImage (⟦<FileVolume<F> as Volume>⟧.image v) (⟦<FileVolume<F> as Volume>⟧.left_at v (⟦<FileVolume<F> as Volume>⟧.moment v))) }
        ensures made { IfOk result (λ v. is_new_file v ≡ true) }
        ensures opened { F.tells → OnOk result (H.holds files.new path.now ≡ None) }
        ensures open { F.tells → OnOk result (H.is_open files.new path.now) }
        ensures locked { F.tells → IsErrOf result FileError.Locked → H.holds files.new path.now ≡ H.holds files.old path.now }
        // The files of other paths stay.
        ensures others { F.tells → (other : List ℕ) → other ≢ path.now → H.holds files.new other ≡ H.holds files.old other }
        ensures others_open { F.tells → (other : List ℕ) → other ≢ path.now → H.is_open files.old other → H.is_open files.new other }
        ensures beside { H.same_beside files.old files.new }
        ensures kind { IfErr result IsNotOfLength }
    {
        let file = files.make(path, blocks)?;
        Ok(FileVolume::over(file, blocks, true))
    }

    /// Opens the file that is there. All its bytes are the volume. Where it is opened only to be read, a
    /// call that writes may fail.
    pub fn open<H: BlockFiles<File = F>>(
        files: &mut H,
        path: &str,
        access: Access,
    ) -> Result<FileVolume<F>, FileError>
        ensures refused { IfErr result IsRefusedRightly }
        // The length for which it is refused is the one that the file has.
        ensures length { F.tells → IfErr result (λ e. (bytes : ℕ) → e ≡ FileError.WrongLength bytes → (image : List ℕ) × (H.holds files.old path.now ≡ Some image) × (length image ≡ bytes)) }
        ensures missing { F.tells → IsErrOf result FileError.Missing → H.holds files.old path.now ≡ None }
        ensures locked { F.tells → IsErrOf result FileError.Locked → H.holds files.old path.now ≡ None }
        ensures failures { IfOk result (λ v. ⟦<FileVolume<F> as Volume>⟧.failures v ≡ 0) }
        ensures image { F.tells → IfOk result (λ v. H.holds files.old path.now ≡ Some (⟦<FileVolume<F> as Volume>⟧.image v)) }
        ensures settled { F.tells → IfOk result (λ v. LeavesOneImage (⟦<FileVolume<F> as Volume>⟧.image v) (⟦<FileVolume<F> as Volume>⟧.left_at v (⟦<FileVolume<F> as Volume>⟧.moment v))) }
        ensures found { IfOk result (λ v. is_new_file v ≡ false) }
        ensures opened { F.tells → OnOk result (H.holds files.new path.now ≡ None) }
        ensures open { F.tells → OnOk result (H.is_open files.new path.now) }
        ensures unopened { F.tells → OnErr result (H.holds files.new path.now ≡ H.holds files.old path.now) }
        // The files of other paths stay.
        ensures others { F.tells → (other : List ℕ) → other ≢ path.now → H.holds files.new other ≡ H.holds files.old other }
        ensures others_open { F.tells → (other : List ℕ) → other ≢ path.now → H.is_open files.old other → H.is_open files.new other }
        ensures beside { H.same_beside files.old files.new }
    {
        let file = files.find(path, access)?;
        match FileVolume::blocks_of(&file) {
            Ok(blocks) => Ok(FileVolume::over(file, blocks, false)),
            Err(error) => {
                files.close(path, file);
                Err(error)
            }
        }
    }

    // How many blocks a file has, where its bytes are blocks.
    fn blocks_of(file: &F) -> Result<u32, FileError>
        ensures blocks { F.tells → IfOk result (λ blocks. length (F.image file.now) ≡ 4096 * blocks) }
        ensures refused { IfErr result IsRefusedRightly }
        ensures length { F.tells → IfErr result (λ e. (bytes : ℕ) → e ≡ FileError.WrongLength bytes → length (F.image file.now) ≡ bytes) }
        ensures kind { IfErr result (λ e. (e ≢ FileError.Missing) × (e ≢ FileError.Locked)) }
    {
        let bytes = file.len().map_err(FileError::Io)?;
        whole_blocks(bytes).ok_or(FileError::WrongLength { bytes })
    }

    fn over(file: F, blocks: u32, is_new: bool) -> FileVolume<F>
        requires length { F.tells → length (F.image file) ≡ 4096 * blocks }
        requires fresh { F.failures file ≡ 0 }
        ensures size { ⟦<FileVolume<F> as Volume>⟧.size result ≡ blocks }
        ensures failures { ⟦<FileVolume<F> as Volume>⟧.failures result ≡ 0 }
        ensures file { block_file_of result ≡ file }
        ensures made { is_new_file result ≡ is_new }
    {
        FileVolume {
            file,
            blocks,
            failures: Failures::new(),
            is_new,
        }
    }

    /// Why the last call that failed did so, where one has.
    pub fn cause(&self) -> Option<&io::Error>
        ensures some { 1 ≤ ⟦<FileVolume<F> as Volume>⟧.failures self.now → IsSome result }
        ensures none { ⟦<FileVolume<F> as Volume>⟧.failures self.now ≡ 0 → result ≡ None }
    {
        self.failures.cause.as_ref()
    }

    /// Hands the file back, open as it is.
    pub fn into_file(self) -> F
        ensures { result ≡ block_file_of self }
    {
        self.file
    }
}

// How many blocks so many bytes are, where they are whole and fewer than 2^32.
fn whole_blocks(bytes: u64) -> Option<u32>
    ensures some { IfSome result (λ blocks. 4096 * blocks ≡ bytes) }
    ensures none { IfNone result ((blocks : ℕ) → blocks < 2 ^ 32 → 4096 * blocks ≢ bytes) }
{
    let blocks = u32::try_from(bytes / BLOCK_BYTES).ok()?;
    if bytes % BLOCK_BYTES != 0 {
        return None;
    }
    Some(blocks)
}

impl<F: BlockFile> Volume for FileVolume<F> {
    ghost tells = { F.BlockFile.tells };

    ghost size = { λ v. v.blocks };

    ghost failures = { λ v. v.failures.count };

    ghost image = { λ v. F.BlockFile.image v.file };

    ghost moment = { λ v. F.BlockFile.moment v.file };

    ghost left_at = { λ v. F.BlockFile.left_at v.file };

    ghost image_length = { λ v. v.image_length };

    fn size(&self) -> u32 {
        self.blocks
    }

    fn failures(&self) -> u64 {
        self.failures.count
    }

    fn read(&mut self, at: u64, out: &mut [u8]) -> Result<(), Failed> {
        let outcome = self.file.read_exact_at(out, at);
        self.failures.note(outcome)
    }

    fn write_at(&mut self, at: u64, bytes: &[u8]) -> Result<(), Failed> {
        let outcome = self.file.write_all_at(bytes, at);
        self.failures.note(outcome)
    }

    fn sync(&mut self) -> Result<(), Failed> {
        let outcome = self.file.sync_all();
        self.failures.note(outcome)
    }
}
