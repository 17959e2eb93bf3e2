//! The menu of a deposit: its objects, and the files that belong to them.
ghost use Rattle.std.specs.Prelude.{◌≡◌, ◌↔◌, IsTrue, MatchOption, map, option_map, slice_get};
ghost use Rattle.envelope.specs.Envelope.{env_of};
ghost use Rattle.deposit_verify.specs.Checks.{HasContents, HasMenu, StandInOrder, counted_uris, object_uris};
ghost use Rattle.deposit_verify.specs.HeaderReasons.{FirstDiffers, HasObjects, IsMenuReason};
ghost use Rattle.deposit_verify.specs.Places.{all_tables};
ghost use Rattle.deposit_verify.specs.inside.MenuReasons.{IsOrderReason};

use crate::files_read::deletes_of;
use crate::files_reason::FileList;
use crate::header_reason::MenuReason;
use crate::places::table_place;
use deposit_name::{Kind, TableName};
use envelope::{Count, Envelope, FileEntry, Uri};

/// The URI of the object that stands at a place of the menu (RFC 9022), from 0: none behind the last.
pub fn wanted_uri(place: usize) -> Option<&'static [u8]>
    ensures { option_map (λ uri. uri.now) result ≡ slice_get object_uris place }
{
    match place {
        0 => Some(b"urn:ietf:params:xml:ns:csvContact-1.0"),
        1 => Some(b"urn:ietf:params:xml:ns:csvDomain-1.0"),
        2 => Some(b"urn:ietf:params:xml:ns:csvHost-1.0"),
        3 => Some(b"urn:ietf:params:xml:ns:csvRegistrar-1.0"),
        4 => Some(b"urn:ietf:params:xml:ns:rdeHeader-1.0"),
        _ => None,
    }
}

/// The URI of the object that is counted at a place, from 0: none behind the last.
pub fn wanted_count(place: usize) -> Option<&'static [u8]>
    ensures { option_map (λ uri. uri.now) result ≡ slice_get counted_uris place }
{
    if place < 4 { wanted_uri(place) } else { None }
}

/// The table that stands at a place of a full deposit, from 0: none behind the last.
pub fn wanted_table(place: usize) -> Option<TableName>
    ensures { result ≡ slice_get all_tables place }
{
    match place {
        0 => Some(TableName::Domain),
        1 => Some(TableName::DomainContacts),
        2 => Some(TableName::DomainStatuses),
        3 => Some(TableName::DomainNameServers),
        4 => Some(TableName::Host),
        5 => Some(TableName::HostAddresses),
        6 => Some(TableName::Contact),
        7 => Some(TableName::Registrar),
        _ => None,
    }
}

fn is_same_uri(here: Option<Uri>, wanted: Option<&[u8]>) -> bool
    ensures { IsTrue result ↔ (here ≡ option_map (λ uri. uri.now) wanted.entry) }
{
    match (here, wanted) {
        (Some(here), Some(wanted)) => here.as_bytes() == wanted,
        (None, None) => true,
        _ => false,
    }
}

fn counted_at(counts: &[Count], place: usize) -> Option<Uri>
    ensures { result ≡ slice_get (map (λ c. c.uri) counts.now) place }
{
    counts.get(place).map(|count| count.uri)
}

fn table_at(files: &[FileEntry], place: usize) -> Option<TableName>
    ensures { result ≡ slice_get (map (λ f. f.name) files.now) place }
{
    files.get(place).map(|file| file.name)
}

// The first place at which the objects are not those of the menu: the one behind its last where there are more.
fn first_other_uri(uris: &[Uri]) -> Option<usize>
    ensures { MatchOption result (uris.now ≡ object_uris) (FirstDiffers uris.now object_uris) }
{
    for place in 0..=5 {
        if !is_same_uri(uris.get(place).copied(), wanted_uri(place)) {
            return Some(place);
        }
    }
    None
}

// The first place at which other objects are counted.
fn first_other_count(counts: &[Count]) -> Option<usize>
    ensures { MatchOption result (map (λ c. c.uri) counts.now ≡ counted_uris)
        (FirstDiffers (map (λ c. c.uri) counts.now) counted_uris) }
{
    for place in 0..=4 {
        if !is_same_uri(counted_at(counts, place), wanted_count(place)) {
            return Some(place);
        }
    }
    None
}

// The first place at which the tables are not all tables, in order.
fn first_other_table(files: &[FileEntry]) -> Option<usize>
    ensures { MatchOption result (map (λ f. f.name) files.now ≡ all_tables)
        (FirstDiffers (map (λ f. f.name) files.now) all_tables) }
{
    for place in 0..=8 {
        if table_at(files, place) != wanted_table(place) {
            return Some(place);
        }
    }
    None
}

// The first place of a list whose table does not stand behind the one before it.
fn order_reason(list: FileList, files: &[FileEntry]) -> Option<MenuReason>
    ensures { MatchOption result (StandInOrder (map (λ f. f.name) files.now))
        (IsOrderReason list (map (λ f. f.name) files.now)) }
{
    for place in 1..files.len() {
        let before = files[place - 1].name;
        let here = files[place].name;
        if table_place(before) >= table_place(here) {
            return Some(MenuReason::Order {
                list,
                place,
                before,
                here,
            });
        }
    }
    None
}

// The first place at which the contents are not those of the deposit's kind.
fn contents_reason(envelope: &Envelope) -> Option<MenuReason>
    ensures { MatchOption result
        (HasContents envelope.now.kind (map (λ f. f.name) envelope.now.contents.items))
        (λ reason. HasObjects (env_of envelope.now) → IsMenuReason (env_of envelope.now) reason) }
{
    let files = &envelope.contents;
    match envelope.kind {
        Kind::Full => {
            let place = first_other_table(files)?;
            Some(MenuReason::Contents {
                place,
                here: table_at(files, place),
            })
        }
        Kind::Diff | Kind::Incr => order_reason(FileList::Contents, files),
    }
}

/// The first place at which the menu, the counted objects or the names of the files are not those of the deposit's kind.
pub fn menu_reason(envelope: &Envelope) -> Option<MenuReason>
    ensures { MatchOption result (HasMenu (env_of envelope.now)) (IsMenuReason (env_of envelope.now)) }
{
    let uris = &envelope.menu.object_uris;
    if let Some(place) = first_other_uri(uris) {
        return Some(MenuReason::ObjectUri {
            place,
            here: uris.get(place).copied(),
        });
    }
    let counts = &envelope.header.count;
    if let Some(place) = first_other_count(counts) {
        return Some(MenuReason::Count {
            place,
            here: counted_at(counts, place),
        });
    }
    if let Some(reason) = contents_reason(envelope) {
        return Some(reason);
    }
    order_reason(FileList::Deletes, deletes_of(envelope))
}

/// Whether the menu, the counted objects and the names of the files are those of the deposit's kind.
pub fn has_menu(envelope: &Envelope) -> bool
    ensures { IsTrue result ↔ HasMenu (env_of envelope.now) }
{
    menu_reason(envelope).is_none()
}
