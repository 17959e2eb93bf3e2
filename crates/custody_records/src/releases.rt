//! Releases of deposits.
ghost use Rattle.std.specs.Prelude.{◌≡◌, IfOk, MatchResult};
ghost use Rattle.custody_records.specs.Form.{ground_in, release_in};
ghost use Rattle.custody_records.specs.Keys.{text_cmp};
ghost use Rattle.custody_records.specs.inside.Orders.{text_exact, text_total};
ghost use Rattle.custody_records.specs.Records as records;
ghost use Rattle.custody_records.specs.TypedRecords.{release_entry, release_key, release_value, handover_row};
ghost use Rattle.custody_records.specs.declared.errors.RowError.TheVariants.{OutOfForm};

use crate::tables::Keyed;
use crate::{Names, RowError};
use deposit_name::{Reference, Tld};
use desk::Ground;
use schedule::Sec;
use std::alloc::{AllocError, Global};
use std::cmp::Ordering;
use std::str;

/// Deposits of a registry handed over on a ground (Specification 2, Part B section 6).
#[derive(Debug, PartialEq, Drop)]
pub struct Release {
    pub reference: Reference,
    pub tld: Tld,
    pub reason: Ground,
    pub at: Sec,
    /// The names of the parts.
    pub names: Names,
}

impl Release {
    /// The same release again.
    pub fn try_clone(&self, alloc: Global) -> Result<Release, AllocError>
        ensures { IfOk result (λ release. release ≡ self.now) }
    {
        Ok(Release {
            names: self.names.try_clone(alloc)?,
            ..*self
        })
    }
}

/// The columns of a row of the table of releases.
#[derive(Clone, Copy, Debug)]
pub struct ReleaseColumns<'a> {
    pub reference: &'a [u8],
    pub tld: &'a [u8],
    pub reason: &'a [u8],
    pub at: i64,
    pub names: &'a [u8],
}

impl ReleaseColumns<'_> {
    /// The release of the row, where its fields are in form.
    pub fn read(&self, alloc: Global) -> Result<Release, RowError>
        ensures { MatchResult result (λ release. release_in (handover_row self.now) ≡ Some (release_entry release))
            (λ e. e ≡ OutOfForm → release_in (handover_row self.now) ≡ None) }
    {
        let reference = Reference::parse(self.reference).ok_or(RowError::OutOfForm)?;
        let tld = Tld::parse(self.tld).ok_or(RowError::OutOfForm)?;
        let reason = read_ground(self.reason).ok_or(RowError::OutOfForm)?;
        let at = Sec::new(self.at).ok_or(RowError::OutOfForm)?;
        let names = Names::parse(alloc, self.names)?;
        Ok(Release {
            reference,
            tld,
            reason,
            at,
            names,
        })
    }
}

/// The ground of that text.
fn read_ground(text: &[u8]) -> Option<Ground>
    ensures { result ≡ ground_in text.now }
{
    match str::from_utf8(text) {
        Ok(text) => Ground::parse(text),
        Err(_) => None,
    }
}

impl Keyed for Release {
    type Key = Reference;

    ghost key_of = { release_key };

    ghost order = { text_cmp };

    ghost Value = { records.Release };

    ghost value_of = { release_value };

    ghost total = { text_total };

    ghost exact = { text_exact };

    fn key(&self) -> Reference {
        self.reference
    }

    fn compare(&self, sought: &Reference) -> Ordering {
        self.reference.as_bytes().cmp(sought.as_bytes())
    }
}
