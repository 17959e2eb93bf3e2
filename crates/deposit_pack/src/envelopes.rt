//! The envelope of a deposit that is packed.
ghost use Rattle.std.specs.Prelude.{◌≡◌, ◌≢◌, ◌<◌, ◌≤◌, ◌^◌, ◌∷◌, [], All, IfErr, IfOk, IsSome, MatchResult, map, option_map, slice_get};
ghost use Rattle.envelope.specs.Envelope.{env_of};
ghost use Rattle.deposit_name.specs.declared.kinds.Kind.TheVariants.{Full};
ghost use Rattle.deposit_verify.specs.Checks.{HasMenu, counted_uris, object_uris};
ghost use Rattle.deposit_pack.specs.PackErrors.{IsPackError, IsTooMany, base_keys};
ghost use Rattle.deposit_pack.specs.Packing.{Objects, counts_with, packed_entry, env_counting, numbers_of, objects_in, packed_env};
ghost use Rattle.deposit_pack.specs.declared.pack_error.PackError.TheVariants.{Count as CountError};
ghost use Rattle.deposit_pack.specs.declared.source.Source.{Source};
ghost use Rattle.deposit_pack.specs.declared.source.Attributes.{Attributes};
ghost use Rattle.deposit_pack.specs.inside.Steps.{AreRead};

use crate::pack_error::PackError;
use crate::source::Attributes;
use deposit_name::{Kind, TableName};
use deposit_verify::{Base, FilesRead, row_counts, wanted_uri};
use envelope::{Count, Envelope, FileEntry, Header, Menu, Uri};
use std::alloc::{AllocError, Global};

// The URI at a place of the menu, from 0: none behind the last.
fn uri_at(place: usize) -> Option<Uri>
    ensures { result ≡ slice_get object_uris place }
{
    wanted_uri(place).and_then(Uri::parse)
}

// The URIs of the menu.
fn object_uris(alloc: Global) -> Result<Vec<Uri>, AllocError>
    ensures { IfOk result (λ uris. uris.items ≡ object_uris) }
{
    let mut uris = Vec::with_capacity(alloc, 5)?;
    for place in 0..5 {
        if let Some(uri) = uri_at(place) {
            uris.push(uri)?;
        }
    }
    Ok(uris)
}

// These numbers of the counted objects.
fn counts(alloc: Global, numbers: [u32; 4]) -> Result<Vec<Count>, AllocError>
    ensures { IfOk result (λ counts. counts.items ≡ counts_with counted_uris numbers) }
{
    let mut counts = Vec::with_capacity(alloc, 4)?;
    for (place, number) in numbers.iter().enumerate() {
        if let Some(uri) = uri_at(place) {
            let count = *number;
            counts.push(Count { uri, count })?;
        }
    }
    Ok(counts)
}

/// The envelope of files with these entries, before its objects are counted: the counts are 0.
pub fn uncounted_envelope(
    alloc: Global,
    attributes: &Attributes,
    contents: Vec<FileEntry>,
    deletes: Vec<FileEntry>,
) -> Result<Envelope, AllocError>
    ensures { IfOk result (λ e. (o : Objects) → contents.items ≡ map packed_entry o.contents → deletes.items ≡ map packed_entry o.deletes
        → env_of e ≡ env_counting attributes.now o (0 ∷ 0 ∷ 0 ∷ 0 ∷ [])) }
{
    let name = &attributes.name;
    Ok(Envelope {
        contents,
        deletes: match name.kind {
            Kind::Full => None,
            Kind::Diff | Kind::Incr => Some(deletes),
        },
        header: Header {
            count: counts(alloc, [0; 4])?,
            tld: name.tld,
        },
        id: attributes.id,
        prev_id: attributes.prev_id,
        menu: Menu {
            object_uris: object_uris(alloc)?,
        },
        resend: name.rev,
        kind: name.kind,
        watermark: name.day,
    })
}

// How many counted objects there are: in a full deposit the rows, in any other the keys after it.
fn numbers_of(
    alloc: Global,
    envelope: &Envelope,
    files: &FilesRead,
    base: Option<&Base>,
) -> Result<[usize; 4], PackError>
    requires { (a : Attributes) × (o : Objects) × (env_of envelope.now ≡ env_counting a o (0 ∷ 0 ∷ 0 ∷ 0 ∷ [])) × AreRead o files.now × HasMenu (env_of envelope.now) }
    ensures numbers { IfOk result (λ numbers. (a : Attributes) (o : Objects) → env_of envelope.now ≡ env_counting a o (0 ∷ 0 ∷ 0 ∷ 0 ∷ []) → AreRead o files.now
        → (numbers ≡ numbers_of a.name.kind a o (base_keys (option_map (λ b. b.now) base.entry))) × (a.name.kind ≢ Full → IsSome base.entry)) }
    ensures refused { (a : Attributes) (source : Source) → env_of envelope.now ≡ env_counting a (objects_in source) (0 ∷ 0 ∷ 0 ∷ 0 ∷ [])
        → IfErr result (IsPackError a source (option_map (λ b. b.now) base.entry)) }
{
    match (envelope.kind, base) {
        (Kind::Full, _) => Ok(row_counts(&files.tables)),
        (_, Some(base)) => Ok(base.counts_after(alloc, envelope, files)?),
        (_, None) => Err(PackError::NoBase),
    }
}

// A number of objects of a table as a count holds it.
fn as_count(table: TableName, number: usize) -> Result<u32, PackError>
    ensures { MatchResult result (λ count. (count ≡ number) × (number < 2 ^ 32)) (λ e. (e ≡ CountError table) × (2 ^ 32 ≤ number)) }
{
    u32::try_from(number).map_err(|_| PackError::Count(table))
}

// The numbers of counted objects, in their order, as counts hold them.
fn as_counts(numbers: [usize; 4]) -> Result<[u32; 4], PackError>
    ensures counts { IfOk result (λ counts. (counts ≡ numbers) × All (λ n. n < 2 ^ 32) numbers) }
    ensures refused { IfErr result (λ e. (table : TableName) × (e ≡ CountError table) × IsTooMany table numbers) }
{
    let [contacts, domains, hosts, registrars] = numbers;
    Ok([
        as_count(TableName::Contact, contacts)?,
        as_count(TableName::Domain, domains)?,
        as_count(TableName::Host, hosts)?,
        as_count(TableName::Registrar, registrars)?,
    ])
}

/// The envelope with its objects counted.
pub fn counted(
    alloc: Global,
    envelope: Envelope,
    files: &FilesRead,
    base: Option<&Base>,
) -> Result<Envelope, PackError>
    requires { (a : Attributes) × (o : Objects) × (env_of envelope ≡ env_counting a o (0 ∷ 0 ∷ 0 ∷ 0 ∷ [])) × AreRead o files.now × HasMenu (env_of envelope) }
    ensures counted { IfOk result (λ e. (a : Attributes) (o : Objects) → env_of envelope ≡ env_counting a o (0 ∷ 0 ∷ 0 ∷ 0 ∷ []) → AreRead o files.now
        → (env_of e ≡ packed_env a o (base_keys (option_map (λ b. b.now) base.entry))) × (a.name.kind ≢ Full → IsSome base.entry)) }
    ensures small { IfOk result (λ e. (a : Attributes) (o : Objects) → env_of envelope ≡ env_counting a o (0 ∷ 0 ∷ 0 ∷ 0 ∷ []) → AreRead o files.now
        → All (λ n. n < 2 ^ 32) (numbers_of a.name.kind a o (base_keys (option_map (λ b. b.now) base.entry)))) }
    ensures refused { (a : Attributes) (source : Source) → env_of envelope ≡ env_counting a (objects_in source) (0 ∷ 0 ∷ 0 ∷ 0 ∷ []) → AreRead (objects_in source) files.now
        → IfErr result (IsPackError a source (option_map (λ b. b.now) base.entry)) }
{
    let mut envelope = envelope;
    let numbers = numbers_of(alloc, &envelope, files, base)?;
    envelope.header.count = counts(alloc, as_counts(numbers)?)?;
    Ok(envelope)
}
