//! The keys of a chain of deposits.
ghost use Rattle.std.specs.Prelude.{◌≡◌, ◌↔◌, ◌++◌, ◌∷◌, [], true, ℕ, List, Some, None, IfOk, IfSome, IsTrue, MatchOption, OnOk, if◌then◌else◌, is_none, length, map, option_map};
ghost use Rattle.std.specs.Set.{distinct_count};
ghost use Rattle.std.specs.Str.{bytes_eq};
ghost use Rattle.deposit_name.specs.Tables.{has_deletes};
ghost use Rattle.dnrd_csv.specs.Text.{key_rows};
ghost use Rattle.envelope.specs.Envelope.{env_of};
ghost use Rattle.deposit_verify.specs.Bases.{base_after, base_at, base_of_first, base_then, no_keys, reading_at, reading_of};
ghost use Rattle.deposit_verify.specs.Chain.{IsBase, IsFirstOfChain, IsLaterOfChain};
ghost use Rattle.deposit_verify.specs.Rows.{keys_after};
ghost use Rattle.deposit_verify.specs.Tables.{AreCountable};
ghost use Rattle.deposit_verify.specs.Verdict.{are_key_counts, is_full, key_numbers, keys_after_files};
ghost use Rattle.deposit_verify.specs.TablesReasons.{IsFirstWrong, said_counts};
ghost use Rattle.deposit_verify.specs.inside.SortedKeys.{AreNamedKeys};
ghost use Rattle.dnrd_csv.specs.inside.RowKeys.{borrowed_texts};

use crate::files_read::{FilesRead, deletes_of, read_files};
use crate::found_envelope::find_envelope;
use crate::key_set::KeySet;
use crate::keys::sorted_texts;
use crate::laws::law_reading;
use crate::menu::has_menu;
use crate::named_keys::{contained_keys, deleted_keys};
use crate::tables_reason::WrongCount;
use deposit_name::{Kind, TableName};
use envelope::Envelope;
use std::alloc::{AllocError, Global};

/// The keys that there are after the deposits of a chain, a full one and later ones that are not full: those of
/// contacts, domains, hosts and registrars.
#[derive(Debug, Drop)]
pub struct Base {
    contacts: KeySet,
    domains: KeySet,
    hosts: KeySet,
    registrars: KeySet,
}

/// A deposit that is read whole.
#[derive(Drop)]
pub struct WholeDeposit {
    pub envelope: Envelope,
    pub files: FilesRead,
}

fn is_full(envelope: &Envelope) -> bool
    ensures { result ≡ is_full envelope.now.kind }
{
    match envelope.kind {
        Kind::Full => true,
        Kind::Diff | Kind::Incr => false,
    }
}

/// Reads a deposit, from its parts, joined in order: `None` where it fails the check of its frame, envelope, menu, files,
/// tables or deleted keys.
///
/// # Errors
///
/// Want of memory, and nothing else.
pub fn read_whole(alloc: Global, joined: &[u8]) -> Result<Option<WholeDeposit>, AllocError>
    ensures value { IfOk result (λ read. option_map
        (λ whole. reading_of (env_of whole.envelope) whole.files.tables.items whole.files.deleted.items) read
        ≡ reading_at joined.now) }
    ensures countable { IfOk result (λ read. IfSome read
        (λ whole. AreCountable (env_of whole.envelope) whole.files.tables.items whole.files.deleted.items)) }
{
    law_reading();
    let Ok(found) = find_envelope(alloc, joined)? else {
        return Ok(None);
    };
    let envelope = found.envelope;
    if !has_menu(&envelope) {
        return Ok(None);
    }
    match read_files(alloc, &envelope, found.rest)? {
        Ok(files) => Ok(Some(WholeDeposit { envelope, files })),
        Err(_) => Ok(None),
    }
}

// The keys that a deposit contains in a table, and those that it names there, in ascending order.
fn named_keys<'f>(
    alloc: Global,
    envelope: &Envelope,
    files: &'f FilesRead,
    name: TableName,
) -> Result<(Vec<&'f [u8]>, Vec<&'f [u8]>), AllocError>
    requires files { AreCountable (env_of envelope.now) files.now.tables.items files.now.deleted.items }
    requires name { has_deletes name ≡ true }
    ensures named { IfOk result (λ keys. AreNamedKeys keys.0.items keys.1.items) }
    ensures after { IfOk result (λ keys. (before : List (List ℕ))
        → keys_after before (borrowed_texts keys.0.items) (borrowed_texts keys.1.items)
        ≡ keys_after_files (env_of envelope.now) before files.now.tables.items (map key_rows files.now.deleted.items) name) }
{
    let contained = contained_keys(alloc, &envelope.contents, &files.tables, name)?;
    let deleted = deleted_keys(alloc, deletes_of(envelope), &files.deleted, name)?;
    let named = sorted_texts(alloc, &contained, &deleted)?;
    Ok((contained, named))
}

// How many keys of a table there are after a deposit.
fn count_after(
    alloc: Global,
    keys: &KeySet,
    envelope: &Envelope,
    files: &FilesRead,
    name: TableName,
) -> Result<usize, AllocError>
    requires files { AreCountable (env_of envelope.now) files.now.tables.items files.now.deleted.items }
    requires name { has_deletes name ≡ true }
    ensures { IfOk result (λ count. count ≡ distinct_count bytes_eq
        (keys_after_files (env_of envelope.now) keys.now files.now.tables.items
        (map key_rows files.now.deleted.items) name)) }
{
    let found = named_keys(alloc, envelope, files, name)?;
    Ok(keys.count_after(&found.0, &found.1))
}

// Brings the keys of a table to those after a deposit.
fn change(
    alloc: Global,
    keys: &mut KeySet,
    envelope: &Envelope,
    files: &FilesRead,
    name: TableName,
) -> Result<(), AllocError>
    requires files { AreCountable (env_of envelope.now) files.now.tables.items files.now.deleted.items }
    requires name { has_deletes name ≡ true }
    ensures { OnOk result (keys.new
        ≡ keys_after_files (env_of envelope.now) keys.old files.now.tables.items
        (map key_rows files.now.deleted.items) name) }
{
    let found = named_keys(alloc, envelope, files, name)?;
    keys.change(alloc, &found.0, &found.1)
}

impl Base {
    /// The keys after a full deposit, from its parts, joined in order: `None` where it is not read, or not full.
    ///
    /// # Errors
    ///
    /// Want of memory, and nothing else.
    pub fn of_full(alloc: Global, joined: &[u8]) -> Result<Option<Base>, AllocError>
        ensures base { IfOk result (λ base. MatchOption base (¬ IsFirstOfChain joined.now) (IsBase (joined.now ∷ []))) }
        // It is the one that is a function of the same.
        ensures computed { IfOk result (λ base. base ≡ base_at (joined.now ∷ [])) }
    {
        law_reading();
        Base::of_first(alloc, joined)
    }

    /// Brings the keys to those after a later deposit of the chain, and says whether it is read and not full. Where it is
    /// not, or where memory is refused, the keys are of no use any more.
    ///
    /// # Errors
    ///
    /// Want of memory, and nothing else.
    pub fn then(&mut self, alloc: Global, joined: &[u8]) -> Result<bool, AllocError>
        ensures read { IfOk result (λ is. IsTrue is ↔ IsLaterOfChain joined.now) }
        ensures base { IfOk result (λ is. IsTrue is → (chain : List (List ℕ)) → IsBase chain self.old
            → IsBase (chain ++ joined.now ∷ []) self.new) }
        // They are those that are a function of the same.
        ensures computed { IfOk result (λ is. (if is then Some self.new else None)
            ≡ base_then self.old joined.now) }
    {
        law_reading();
        self.follow_later(alloc, joined)
    }

    fn of_first(alloc: Global, joined: &[u8]) -> Result<Option<Base>, AllocError>
        ensures { IfOk result (λ base. base ≡ base_of_first joined.now) }
    {
        let Some(whole) = read_whole(alloc, joined)? else {
            return Ok(None);
        };
        if !is_full(&whole.envelope) {
            return Ok(None);
        }
        let mut base = Base::empty(alloc);
        base.follow(alloc, &whole.envelope, &whole.files)?;
        Ok(Some(base))
    }

    fn follow_later(&mut self, alloc: Global, joined: &[u8]) -> Result<bool, AllocError>
        ensures { IfOk result (λ is. (if is then Some self.new else None)
            ≡ base_then self.old joined.now) }
    {
        let Some(whole) = read_whole(alloc, joined)? else {
            return Ok(false);
        };
        if is_full(&whole.envelope) {
            return Ok(false);
        }
        self.follow(alloc, &whole.envelope, &whole.files)?;
        Ok(true)
    }

    fn empty(alloc: Global) -> Base
        ensures { result ≡ no_keys }
    {
        Base {
            contacts: KeySet::new(alloc),
            domains: KeySet::new(alloc),
            hosts: KeySet::new(alloc),
            registrars: KeySet::new(alloc),
        }
    }

    fn follow(
        &mut self,
        alloc: Global,
        envelope: &Envelope,
        files: &FilesRead,
    ) -> Result<(), AllocError>
        requires { AreCountable (env_of envelope.now) files.now.tables.items files.now.deleted.items }
        ensures { OnOk result (self.new ≡ base_after self.old
            (reading_of (env_of envelope.now) files.now.tables.items files.now.deleted.items)) }
    {
        change(
            alloc,
            &mut self.contacts,
            envelope,
            files,
            TableName::Contact,
        )?;
        change(alloc, &mut self.domains, envelope, files, TableName::Domain)?;
        change(alloc, &mut self.hosts, envelope, files, TableName::Host)?;
        change(
            alloc,
            &mut self.registrars,
            envelope,
            files,
            TableName::Registrar,
        )
    }

    /// Of the counts of a deposit, the first that is not the number of the keys after it.
    pub(crate) fn wrong_count(
        &self,
        alloc: Global,
        envelope: &Envelope,
        files: &FilesRead,
    ) -> Result<Option<WrongCount>, AllocError>
        requires counts { length (env_of envelope.now).count ≡ 4 }
        requires files { AreCountable (env_of envelope.now) files.now.tables.items files.now.deleted.items }
        ensures right { IfOk result (λ wrong. is_none wrong ≡ are_key_counts (env_of envelope.now) self.now
            files.now.tables.items (map key_rows files.now.deleted.items)) }
        ensures first { IfOk result (λ wrong. IfSome wrong (IsFirstWrong
            (key_numbers (env_of envelope.now) self.now files.now.tables.items (map key_rows files.now.deleted.items))
            (said_counts (env_of envelope.now).count))) }
    {
        let there = self.counts_after(alloc, envelope, files)?;
        Ok(WrongCount::first(&envelope.header.count, there))
    }

    /// How many contacts, domains, hosts and registrars there are after a deposit.
    ///
    /// # Errors
    ///
    /// Want of memory, and nothing else.
    pub fn counts_after(
        &self,
        alloc: Global,
        envelope: &Envelope,
        files: &FilesRead,
    ) -> Result<[usize; 4], AllocError>
        requires { AreCountable (env_of envelope.now) files.now.tables.items files.now.deleted.items }
        ensures { IfOk result (λ counts. counts ≡ key_numbers (env_of envelope.now) self.now
            files.now.tables.items (map key_rows files.now.deleted.items)) }
    {
        let contacts = count_after(alloc, &self.contacts, envelope, files, TableName::Contact)?;
        let domains = count_after(alloc, &self.domains, envelope, files, TableName::Domain)?;
        let hosts = count_after(alloc, &self.hosts, envelope, files, TableName::Host)?;
        let registrars = count_after(
            alloc,
            &self.registrars,
            envelope,
            files,
            TableName::Registrar,
        )?;
        Ok([contacts, domains, hosts, registrars])
    }
}
