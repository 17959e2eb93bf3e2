//! The records of all rows.
ghost use Rattle.std.specs.Prelude.{◌≡◌, ℕ, codes, map, Some, None, is_some, IfErr, MatchResult};
ghost use Rattle.custody_records.specs.Form.{form_after, in_form_or, records_in, OutOfForm};
ghost use Rattle.custody_records.specs.MemoryRecords.{records_of, records_of_lists};
ghost use Rattle.custody_records.specs.Rows.{Rows};
ghost use Rattle.custody_records.specs.declared.damage.RowDamage.{RowDamage};
ghost use Rattle.custody_records.specs.declared.damage.RowDamage.TheVariants as damage;
ghost use Rattle.custody_store.specs.inside.Loading.{IsFormFault};
ghost use Rattle.custody_store.specs.Reading.{answered_meta};
ghost use Rattle.custody_store.specs.StoreState.{store_state, ChangesNothing};

use crate::faults::StoreFault;
use crate::holds::load_holds_if;
use crate::meta::first_of;
use crate::notices::load_notices;
use crate::parts::load_parts;
use crate::registries::load_registries;
use crate::releases::load_releases;
use custody_records::{RecordLists, Records, RowDamage};
use sqlite::{Alter, Connection, Row};
use std::alloc::Global;

/// The number and the blocks of the volume, where meta has one row, that is in form, and its schema
/// has a table of holds just where one is there.
pub fn volume_in(rows: &[Row], has_holds: bool) -> Result<(u64, u32), StoreFault>
    ensures { MatchResult result
        (λ v. (rest : Rows) → form_after (map answered_meta rows.now) rest ≡ in_form_or damage.Form (records_in has_holds v.0 v.1 rest))
        (λ e. (why : RowDamage) → e ≡ StoreFault.Damaged why → (rest : Rows) → is_some rest.holds ≡ has_holds → form_after (map answered_meta rows.now) rest ≡ OutOfForm why) }
{
    let Some(meta) = first_of(rows) else {
        return Err(StoreFault::Failed);
    };
    if !meta.is_known() {
        return Err(StoreFault::Damaged(RowDamage::Schema));
    }
    if meta.has_holds() != has_holds {
        return Err(StoreFault::Damaged(RowDamage::Form));
    }
    if rows.len() > 1 {
        return Err(StoreFault::Damaged(RowDamage::Form));
    }
    match meta.volume() {
        Some(volume) => Ok(volume),
        None => Err(StoreFault::Damaged(RowDamage::Form)),
    }
}

/// The records of all rows, where each is in form; the table of holds is there or not.
fn load_lists<S: Alter>(
    db: &mut Connection<S>,
    has_holds: bool,
    alloc: Global,
) -> Result<RecordLists, StoreFault>
    ensures found { (store_state S.Store db.new).IsHonest → (store_state S.Store db.old).HasSchemaTablesFirst → (store_state S.Store db.old).has_table (codes "hold") ≡ has_holds → (number blocks : ℕ) → MatchResult result
        (λ lists. records_in has_holds number blocks (store_state S.Store db.old).rows ≡ records_of_lists number blocks lists)
        (λ e. e ≡ StoreFault.Damaged damage.Form → records_in has_holds number blocks (store_state S.Store db.old).rows ≡ None) }
    ensures reads { ChangesNothing (store_state S.Store db.old) (store_state S.Store db.new) result }
    ensures kind { IfErr result IsFormFault }
{
    let registries = load_registries(db, alloc)?;
    let parts = load_parts(db, alloc)?;
    let notices = load_notices(db, alloc)?;
    let releases = load_releases(db, alloc)?;
    let holds = load_holds_if(db, has_holds, alloc)?;
    Ok(RecordLists {
        registries,
        parts,
        notices,
        releases,
        holds,
    })
}

/// The records of all rows, for a volume of this number and so many blocks, where all are in form.
pub fn load_records<S: Alter>(
    db: &mut Connection<S>,
    has_holds: bool,
    volume: (u64, u32),
    alloc: Global,
) -> Result<Records, StoreFault>
    ensures found { (store_state S.Store db.new).IsHonest → (store_state S.Store db.old).HasSchemaTablesFirst → (store_state S.Store db.old).has_table (codes "hold") ≡ has_holds → MatchResult result
        (λ records. records_in has_holds volume.0 volume.1 (store_state S.Store db.old).rows ≡ Some (records_of records))
        (λ e. e ≡ StoreFault.Damaged damage.Form → records_in has_holds volume.0 volume.1 (store_state S.Store db.old).rows ≡ None) }
    ensures reads { ChangesNothing (store_state S.Store db.old) (store_state S.Store db.new) result }
    ensures kind { IfErr result IsFormFault }
{
    let (number, blocks) = volume;
    let lists = load_lists(db, has_holds, alloc)?;
    match Records::of_lists(alloc, number, blocks, lists) {
        Ok(Some(records)) => Ok(records),
        Ok(None) => Err(StoreFault::Damaged(RowDamage::Form)),
        Err(_) => Err(StoreFault::Failed),
    }
}
