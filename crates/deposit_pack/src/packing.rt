//! Packing a deposit.
ghost use Rattle.std.specs.Prelude.{◌≡◌, ◌≢◌, ◌≤◌, ◌<◌, ◌↔◌, ◌⊎◌, ◌∷◌, [], All, Contains, IfErr, IfNone, IfOk, IfSome, IsSome, IsTrue, Option, false, length, option_map};
ghost use Rattle.deposit_name.specs.Tables.{has_deletes};
ghost use Rattle.deposit_name.specs.declared.kinds.Kind.TheVariants.{Full};
ghost use Rattle.deposit_verify.specs.declared.base.Base.{Base as BaseKeys};
ghost use Rattle.envelope.specs.Envelope.{env_of};
ghost use Rattle.deposit_verify.specs.Checks.{HasMenu};
ghost use Rattle.deposit_verify.specs.References.{AreReferencesKept};
ghost use Rattle.deposit_pack.specs.inside.Steps.{AreRead, HasNoFault};
ghost use Rattle.deposit_pack.specs.Packable.{AreAttributes, IsPackable, MayFollow};
ghost use Rattle.deposit_pack.specs.PackErrors.{HaveHeaders, IsPackError, base_keys};
ghost use Rattle.deposit_pack.specs.Packing.{Objects, contents_rows, deposit_length_max, env_counting, table_names, objects_in, packed};
ghost use Rattle.deposit_pack.specs.declared.source.Attributes.{Attributes};
ghost use Rattle.deposit_pack.specs.declared.source.Source.{Source};

use crate::envelopes::{counted, uncounted_envelope};
use crate::pack_error::PackError;
use crate::source::{Attributes, Source};
use crate::source_reading::read_source;
use crate::splitting::DEPOSIT_LENGTH_MAX;
use crate::writing::write_files;
use deposit_name::{Kind, TableName};
use deposit_verify::{Base, FilesRead, menu_reason, missing_key};
use envelope::{Envelope, write_envelope, write_frame};
use schedule::is_sunday;
use std::alloc::Global;

// What the attributes say, and which keys may be deleted.
fn find_fault(attributes: &Attributes, source: &Source<'_>) -> Result<(), PackError>
    ensures fine { IfOk result (λ _. HasNoFault attributes.now (objects_in source.entry.now)) }
    ensures fault { (base : Option BaseKeys) → IfErr result (IsPackError attributes.now source.entry.now base) }
{
    let kind = attributes.name.kind;
    if is_sunday(attributes.name.day) && kind != Kind::Full {
        return Err(PackError::Sunday(attributes.name.day));
    }
    if !may_follow(attributes) {
        return Err(PackError::PrevId(kind));
    }
    match first_undeletable(kind, source) {
        Some(table) => Err(PackError::Deletes { kind, table }),
        None => Ok(()),
    }
}

fn may_follow(attributes: &Attributes) -> bool
    ensures { IsTrue result ↔ MayFollow attributes.now.name.kind attributes.now.prev_id }
{
    match attributes.name.kind {
        Kind::Full => attributes.prev_id.is_none(),
        Kind::Diff => attributes.prev_id.is_some(),
        Kind::Incr => true,
    }
}

// The first table whose keys a deposit of this kind may not delete.
fn first_undeletable(kind: Kind, source: &Source<'_>) -> Option<TableName>
    ensures none { IfNone result ((kind ≡ Full → (objects_in source.entry.now).deletes ≡ []) × All (λ f. IsTrue (has_deletes f.name)) (objects_in source.entry.now).deletes) }
    ensures some { IfSome result (λ table. Contains (table_names (objects_in source.entry.now).deletes) table × (kind ≡ Full ⊎ has_deletes table ≡ false)) }
{
    for file in source.deletes {
        if kind == Kind::Full || !file.name.has_deletes() {
            return Some(file.name);
        }
    }
    None
}

// Attributes are in form by the types of their fields.
fn law_attributes(attributes: &Attributes)
    ensures { AreAttributes attributes.now }
{
    let _name = &attributes.name.tld;
    let _id = attributes.id.as_bytes();
    if let Some(prev_id) = &attributes.prev_id {
        let _prev_id = prev_id.as_bytes();
    }
}

// Whether the tables are those of the kind, and a full deposit names only keys that are there.
fn check_tables(alloc: Global, envelope: &Envelope, files: &FilesRead) -> Result<(), PackError>
    requires { (a : Attributes) × (o : Objects) × (env_of envelope.now ≡ env_counting a o (0 ∷ 0 ∷ 0 ∷ 0 ∷ [])) × AreRead o files.now }
    ensures menu { IfOk result (λ _. HasMenu (env_of envelope.now)) }
    ensures references { IfOk result (λ _. (a : Attributes) (o : Objects) → env_of envelope.now ≡ env_counting a o (0 ∷ 0 ∷ 0 ∷ 0 ∷ []) → AreRead o files.now
        → a.name.kind ≡ Full → AreReferencesKept (contents_rows o)) }
    ensures refused { (a : Attributes) (source : Source) (base : Option BaseKeys) → env_of envelope.now ≡ env_counting a (objects_in source) (0 ∷ 0 ∷ 0 ∷ 0 ∷ []) → AreRead (objects_in source) files.now
        → IfErr result (IsPackError a source base) }
{
    if let Some(reason) = menu_reason(envelope) {
        return Err(PackError::Menu(reason));
    }
    match envelope.kind {
        Kind::Diff | Kind::Incr => Ok(()),
        Kind::Full => match missing_key(alloc, &files.tables)? {
            Some(missing) => Err(PackError::Reference(missing)),
            None => Ok(()),
        },
    }
}

/// Packs a deposit: the bytes of its parts, joined in order. `base` is the keys after the deposits that it follows, and
/// wanted where it is not full.
///
/// # Errors
///
/// One of U1 to U10 that holds, or want of memory.
pub fn pack(
    alloc: Global,
    attributes: &Attributes,
    source: &Source<'_>,
    base: Option<&Base>,
) -> Result<Vec<u8>, PackError>
    // The objects may be deposited, and this is their deposit.
    ensures packable { IfOk result (λ _. IsPackable attributes.now (objects_in source.entry.now) (base_keys (option_map (λ b. b.now) base.entry))) }
    ensures packed { IfOk result (λ bytes. bytes.items ≡ packed attributes.now (objects_in source.entry.now) (base_keys (option_map (λ b. b.now) base.entry))) }
    ensures length { IfOk result (λ bytes. length bytes.items ≤ deposit_length_max) }
    // With headers, each file has its own.
    ensures headers { IfOk result (λ _. HaveHeaders source.entry.now) }
    // Where it is not full, its counts are those after the given keys.
    ensures based { IfOk result (λ _. attributes.now.name.kind ≢ Full → IsSome base.entry) }
    ensures refused { IfErr result (IsPackError attributes.now source.entry.now (option_map (λ b. b.now) base.entry)) }
{
    law_attributes(attributes);
    find_fault(attributes, source)?;
    let files = read_source(alloc, source)?;
    let written = write_files(alloc, source, &files)?;
    let body = written.bytes;
    let draft = uncounted_envelope(alloc, attributes, written.contents, written.deletes)?;
    check_tables(alloc, &draft, &files)?;
    let envelope = counted(alloc, draft, &files, base)?;
    drop(files);
    let text = write_envelope(alloc, &envelope)?;
    let bytes = write_frame(alloc, &text, &body)?;
    if bytes.len() > DEPOSIT_LENGTH_MAX {
        return Err(PackError::Length);
    }
    Ok(bytes)
}
