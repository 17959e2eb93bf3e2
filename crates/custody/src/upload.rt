//! A part that is taken in, all at once or as its bytes come: written to the vault, compared with what is
//! kept, or dropped since the answer is known.
ghost use Rattle.std.specs.Prelude.{◌≡◌, ◌+◌, ◌-◌, ◌*◌, ◌<◌, ◌^◌, IfOk, Some};
ghost use Rattle.sha2.specs.Sha256.{sha256};
ghost use Rattle.vault_volume.specs.Disk.{CountsFailure};
ghost use Rattle.vault_volume.specs.Extents.{part_bytes};
ghost use Rattle.vault_volume.specs.Vault.{volume_of};
ghost use Rattle.custody_records.specs.TypedRecords.{part_value};
ghost use Rattle.custody_machine.specs.Machine.{Receive};
ghost use Rattle.custody_machine.specs.StoredState.{AreExtents};
ghost use Rattle.custody.specs.OpenCustody.{KeepsOrder, HasExecuted};
ghost use Rattle.custody.specs.Reading.{ReadsVault};
ghost use Rattle.custody.specs.ReplyRecords.{IsRecordOfPart};
ghost use Rattle.custody.specs.Upload.{compared_part, OpensUpload, MayOpenPart, OpensPart, MayOpenChange, OpensChange, OpensComparing, MayWrite, WritesBytes, MayCompare, ComparesBytes, MayDiffer, AnswersOtherBytes, MayTake, TakesBytes, MayComplete, Completes, MayFinish, Finishes, MayGiveUp, GivesUp};

use crate::custody::closing_failure;
use crate::open_custody::{OpenCustody, make_room};
use crate::{Record, Refused, Reply};
use custody_machine::{Damage, Failure, Refusal};
use custody_records::Part;
use custody_rules::{Change, Ruling, judge_part};
use deposit_name::DepositName;
use schedule::Sec;
use sha2::{Digest, Sha256};
use sqlite::Alter;
use std::alloc::{AllocError, Global};
use vault_volume::{Extent, Failed, Opened, Vault, Volume};

/// The most bytes that are read at once, of a reader or of a part that is compared.
pub(crate) const PIECE_LEN: usize = 32_768;

/// What is done with the bytes of a part as they come.
pub enum Upload {
    /// They are written.
    Writing(Writing),
    /// They are compared with those that are kept, and have been the same so far.
    Comparing(Comparing),
    /// They are dropped, since the answer is known.
    Answered(Result<Reply, Refused>),
}

/// A new part: its name, where its bytes are being written, and room for its extents in a reply.
pub struct Writing {
    pub name: DepositName,
    pub opened: Opened,
    pub room: Vec<Extent>,
}

/// A part that is held, and how many of its bytes were compared.
#[derive(Drop)]
pub struct Comparing {
    pub name: DepositName,
    pub received: Sec,
    pub len: u32,
    pub digest: [u8; 32],
    pub extents: Vec<Extent>,
    pub done: u32,
}

impl Comparing {
    /// A part that is held at the extents, of which nothing is compared yet.
    fn with(alloc: Global, part: &Part, extents: &[Extent]) -> Result<Comparing, AllocError>
        ensures part { (part_value part.now).extents ≡ Some extents.now → IfOk result (λ c. part_value (compared_part c) ≡ part_value part.now) }
        ensures name { IfOk result (λ c. c.name ≡ part.now.name) }
        ensures extents { IfOk result (λ c. c.extents.items ≡ extents.now) }
        ensures done { IfOk result (λ c. c.done ≡ 0) }
    {
        Ok(Comparing {
            name: part.name,
            received: part.received,
            len: part.len,
            digest: part.digest,
            extents: Vec::from_slice(alloc, extents)?,
            done: 0,
        })
    }

    /// The record of the part.
    fn into_record(self) -> Record
        ensures { IsRecordOfPart result self.name (part_value (compared_part self)) }
    {
        let Comparing {
            name,
            received,
            len,
            digest,
            extents,
            ..
        } = self;
        Record::Part {
            name,
            received,
            len,
            digest,
            extents,
        }
    }
}

impl<V: Volume, S: Alter> OpenCustody<V, S> {
    /// Receives a part whose bytes are all there.
    pub(crate) fn receive(
        &mut self,
        alloc: Global,
        name: &[u8],
        bytes: &[u8],
        now: Sec,
    ) -> Result<Reply, Refused>
        requires order { KeepsOrder self.old }
        ensures { HasExecuted S.Store self.old (Receive name.now bytes.now) now result self.new }
    {
        let upload = self.open_upload(alloc, name, bytes.len(), now);
        let upload = self.take(upload, bytes);
        self.complete(upload, now)
    }

    /// Judges a part by its name and length, and makes ready for its bytes.
    pub(crate) fn open_upload(&mut self, alloc: Global, name: &[u8], len: usize, now: Sec) -> Upload
        requires order { KeepsOrder self.old }
        ensures { OpensUpload S.Store self.old name.now len now self.new result }
    {
        match judge_part(&self.records, name, len, now) {
            Ruling::Refuse(refusal) => Upload::Answered(Err(Refused::Refusal(refusal))),
            Ruling::Kept(kept) => match Record::of_kept(alloc, &kept) {
                Ok(record) => Upload::Answered(Ok(Reply {
                    record,
                    is_repeat: true,
                })),
                Err(_) => Upload::Answered(Err(Refused::Failure(Failure::NoMemory))),
            },
            Ruling::Compare(part, extents) => match Comparing::with(alloc, part, extents) {
                Ok(comparing) => self.open_comparing(comparing, len),
                Err(_) => Upload::Answered(Err(Refused::Failure(Failure::NoMemory))),
            },
            Ruling::Go(change) => self.open_change(alloc, change, len),
        }
    }

    /// Makes ready to compare a part that is held. One of another length is not that which is sent.
    fn open_comparing(&mut self, comparing: Comparing, len: usize) -> Upload
        requires { MayDiffer S.Store self.old comparing }
        ensures { OpensComparing S.Store self.old len self.new comparing result }
    {
        if comparing.len as usize == len {
            Upload::Comparing(comparing)
        } else {
            self.answer_other_bytes(comparing)
        }
    }

    /// Makes ready for the change that a part makes, which is that it is kept.
    fn open_change(&mut self, alloc: Global, change: Change, len: usize) -> Upload
        requires { MayOpenChange self.old change len }
        ensures { OpensChange S.Store self.old change len self.new result }
    {
        match change {
            Change::Part(name) => self.open_part(alloc, name, len),
            _ => unreachable!(),
        }
    }

    /// Makes room for the record of a new part, and takes blocks for its bytes.
    fn open_part(&mut self, alloc: Global, name: DepositName, len: usize) -> Upload
        requires { MayOpenPart self.old name len }
        ensures { OpensPart S.Store self.old name len self.new result }
    {
        let Ok(room) = make_room(alloc, &mut self.records, &name.tld) else {
            return Upload::Answered(Err(Refused::Failure(Failure::NoMemory)));
        };
        match self.vault.begin(alloc, len as u32) {
            Ok(opened) => Upload::Writing(Writing { name, opened, room }),
            Err(error) => Upload::Answered(Err(Refused::from(error))),
        }
    }

    /// Takes the next bytes.
    pub(crate) fn take(&mut self, upload: Upload, bytes: &[u8]) -> Upload
        requires { MayTake S.Store self.old upload bytes.now }
        ensures { TakesBytes S.Store self.old self.new upload bytes.now result }
    {
        match upload {
            Upload::Writing(writing) => self.write(writing, bytes),
            Upload::Comparing(comparing) => self.compare_on(comparing, bytes),
            Upload::Answered(answer) => Upload::Answered(answer),
        }
    }

    /// Writes the next bytes of a new part. Where the volume fails, its blocks are given back.
    fn write(&mut self, writing: Writing, bytes: &[u8]) -> Upload
        requires { MayWrite S.Store self.old writing bytes.now }
        ensures { WritesBytes S.Store self.old self.new writing bytes.now result }
    {
        let Writing {
            name,
            mut opened,
            room,
        } = writing;
        if self.vault.push(&mut opened, bytes).is_err() {
            self.vault.abandon(opened);
            return Upload::Answered(Err(Refused::Failure(Failure::VolumeFailed)));
        }
        Upload::Writing(Writing { name, opened, room })
    }

    /// Compares the next bytes with those that are kept, which are read piece by piece. Where they differ,
    /// the answer is known.
    fn compare_on(&mut self, comparing: Comparing, bytes: &[u8]) -> Upload
        requires { MayCompare S.Store self.old comparing bytes.now }
        ensures { ComparesBytes S.Store self.old self.new comparing bytes.now result }
    {
        let mut buffer = new_buffer();
        let mut comparing = comparing;
        for piece in bytes.chunks(PIECE_LEN) {
            let kept = &mut buffer[..piece.len()];
            let read = self
                .vault
                .read_piece(&comparing.extents, comparing.done, kept);
            if read.is_err() {
                return Upload::Answered(Err(Refused::Failure(Failure::VolumeFailed)));
            }
            if *kept != *piece {
                return self.answer_other_bytes(comparing);
            }
            comparing.done += piece.len() as u32;
        }
        Upload::Comparing(comparing)
    }

    /// Tells of a part whose bytes are not those that are sent whether it has its digest.
    fn answer_other_bytes(&mut self, comparing: Comparing) -> Upload
        requires { MayDiffer S.Store self.old comparing }
        ensures { AnswersOtherBytes S.Store self.old self.new comparing result }
    {
        let Ok(digest) = digest_part(&mut self.vault, &comparing.extents, comparing.len) else {
            return Upload::Answered(Err(Refused::Failure(Failure::VolumeFailed)));
        };
        if digest == comparing.digest {
            Upload::Answered(Err(Refused::Refusal(Refusal::OtherBytes)))
        } else {
            Upload::Answered(Err(Refused::Failure(Failure::Damaged(Damage::Digest))))
        }
    }

    /// Answers, when all bytes have come.
    pub(crate) fn complete(&mut self, upload: Upload, now: Sec) -> Result<Reply, Refused>
        requires { MayComplete S.Store self.old upload }
        ensures { Completes S.Store self.old now result self.new upload }
    {
        match upload {
            Upload::Writing(writing) => self.finish(writing, now),
            Upload::Comparing(comparing) => Ok(Reply {
                record: comparing.into_record(),
                is_repeat: true,
            }),
            Upload::Answered(answer) => answer,
        }
    }

    /// Syncs the bytes of a new part, and records it.
    fn finish(&mut self, writing: Writing, now: Sec) -> Result<Reply, Refused>
        requires { MayFinish S.Store self.old writing }
        ensures { Finishes S.Store self.old now result self.new writing }
    {
        let Writing { name, opened, room } = writing;
        let Ok(staged) = self.vault.finish(opened) else {
            return Err(Refused::Failure(Failure::VolumeFailed));
        };
        self.keep_staged(&name, staged, room, now)
    }

    /// Gives up a part whose bytes have not all come. It tells the failure that closes the custody: that of
    /// the volume, where it has failed already.
    pub(crate) fn give_up(&mut self, upload: Upload) -> Option<Failure>
        requires { MayGiveUp S.Store self.old upload }
        ensures { GivesUp S.Store self.old self.new upload result }
    {
        match upload {
            Upload::Writing(writing) => {
                let Writing {
                    name: _name,
                    opened,
                    room: _room,
                } = writing;
                self.vault.abandon(opened);
                None
            }
            Upload::Comparing(_comparing) => None,
            Upload::Answered(answer) => closing_failure(&answer),
        }
    }
}

/// The SHA-256 of a part that lies in the extents.
pub(crate) fn digest_part<V: Volume>(
    vault: &mut Vault<V>,
    extents: &[Extent],
    len: u32,
) -> Result<[u8; 32], Failed>
    requires held { AreExtents (V.size (volume_of vault.old)) len extents.now }
    requires count { V.failures (volume_of vault.old) < 2 ^ 64 - 1 }
    ensures digest { V.tells → IfOk result (λ found. found ≡ sha256 (part_bytes (V.image (volume_of vault.old)) extents.now len)) }
    ensures read { ReadsVault vault.old vault.new }
    ensures failures { CountsFailure result (V.failures (volume_of vault.old)) (V.failures (volume_of vault.new)) }
{
    let mut buffer = new_buffer();
    let mut hasher = Sha256::new();
    let mut done = 0;
    while done < len {
        let count = ((len - done) as usize).min(PIECE_LEN);
        let piece = &mut buffer[..count];
        vault.read_piece(extents, done, piece)?;
        hasher.update(&*piece);
        done += count as u32;
    }
    Ok(hasher.finalize())
}

/// Room for a piece.
pub(crate) fn new_buffer() -> [u8; 32_768] {
    [0; PIECE_LEN]
}
