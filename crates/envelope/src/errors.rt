//! Why a text was not read as an envelope, and where.
ghost use Rattle.std.specs.Prelude.{◌≡◌};
ghost use Rattle.envelope.specs.declared.errors.EnvError.TheVariants.{Spelling, Memory};
ghost use Rattle.envelope.specs.declared.errors.SpellingFault.TheVariants as fault;

use std::alloc::{AllocError, AllocFailed};
use std::error::Error;
use std::fmt;

/// Why a text was not read as an envelope.
#[derive(Clone, Copy, Debug, PartialEq, Eq, Hash)]
pub enum EnvError {
    /// It is not the one text of any envelope in form.
    Spelling(SpellingFault),
    /// There was no memory.
    Memory,
}

/// Where a text parts from the one text of an envelope: the first of these that holds.
#[derive(Clone, Copy, Debug, PartialEq, Eq, Hash)]
pub enum SpellingFault {
    /// It has more bytes than any envelope's text.
    Long,
    /// It is not UTF-8: the bytes before this offset are.
    NotUtf8 { offset: usize },
    /// It is no JSON text. The place is that of the JSON reader.
    NotJson { line: usize, column: usize },
    /// This member is not there, or not in form.
    Member(Member),
    /// Its members are those of an envelope, whose text is another from this offset on: this byte stands there, or it
    /// ends there.
    Byte { offset: usize, wanted: Option<u8> },
}

/// A member of an envelope, in the order in which they are read.
#[derive(Clone, Copy, Debug, PartialEq, Eq, Hash)]
pub enum Member {
    Contents,
    Type,
    Deletes,
    /// In the header. A header that is not there is a fault of this one.
    Count,
    /// In the header.
    Tld,
    Id,
    PrevId,
    /// In the menu. A menu that is not there is a fault of this one.
    ObjectUris,
    Resend,
    Watermark,
}

impl fmt::Display for Member {
    ghost use Rattle.std.specs.Prelude.{Some};
    ghost use Rattle.envelope.specs.ErrorText.{member_name};

    ghost output = { λ m. Some (member_name m) };

    fn fmt<W: fmt::Write>(&self, f: &mut fmt::Formatter<W>) -> fmt::Result {
        f.write_str(match self {
            Member::Contents => "contents",
            Member::Type => "type",
            Member::Deletes => "deletes",
            Member::Count => "header.count",
            Member::Tld => "header.tld",
            Member::Id => "id",
            Member::PrevId => "prevId",
            Member::ObjectUris => "rdeMenu.objURI",
            Member::Resend => "resend",
            Member::Watermark => "watermark",
        })
    }
}

impl fmt::Display for EnvError {
    ghost use Rattle.std.specs.Prelude.{Some};
    ghost use Rattle.envelope.specs.ErrorText.{env_error_text};

    ghost output = { λ e. Some (env_error_text e) };

    fn fmt<W: fmt::Write>(&self, f: &mut fmt::Formatter<W>) -> fmt::Result {
        f.write_str(match self {
            EnvError::Spelling(_) => "E1",
            EnvError::Memory => "E2",
        })
    }
}

impl Error for EnvError {}

impl From<Member> for EnvError {
    ghost from_gives = { λ member e. e ≡ Spelling (fault.Member member) };

    fn from(member: Member) -> EnvError {
        EnvError::Spelling(SpellingFault::Member(member))
    }
}

impl From<AllocError> for EnvError {
    ghost from_gives = { λ _ e. e ≡ Memory };

    fn from(_: AllocError) -> EnvError {
        EnvError::Memory
    }
}

impl<T: Drop> From<AllocFailed<T>> for EnvError {
    ghost from_gives = { λ _ e. e ≡ Memory };

    fn from(_: AllocFailed<T>) -> EnvError {
        EnvError::Memory
    }
}
