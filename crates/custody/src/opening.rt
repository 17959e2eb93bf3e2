//! The steps of an opening and of a beginning.
ghost use Rattle.std.specs.Prelude.{◌≡◌, ◌≢◌, ◌⊎◌, ◌↔◌, ℕ, pos, codes, true, false, IsTrue, List, ◌-◌, ◌<◌, ◌^◌, is_some, option_map, IfOk, IfErr, OnOk, MatchResult};
ghost use Rattle.vault_volume.specs.Disk.{LeavesOneImage};
ghost use Rattle.vault_volume.specs.Head.{head_of};
ghost use Rattle.vault_volume.specs.Image.{bytes_at};
ghost use Rattle.vault_volume.specs.Vault.{volume_of};
ghost use Rattle.custody_records.specs.Form.{form_of, InForm};
ghost use Rattle.custody_records.specs.MemoryRecords.{records_of};
ghost use Rattle.custody_records.specs.Records.{new_records};
ghost use Rattle.custody_records.specs.Rows.{Rows, initial_rows, first_meta};
ghost use Rattle.custody_records.specs.RowsOfRecords.{digits_of};
ghost use Rattle.custody_records.specs.TypedRecords as typed;
ghost use Rattle.custody_store.specs.StoreState.{store_state, has_any_table, has_all_tables, HasMetaOrNone, ChangesNothing, CreatesTables, Migrates};
ghost use Rattle.custody_machine.specs.declared.damage.Damage as wrong;
ghost use Rattle.custody_machine.specs.Damage.{IsDamaged};
ghost use Rattle.custody_machine.specs.StoredState.{AreWhole};
ghost use Rattle.custody_machine.specs.Custody.{MayInitialise};
ghost use Rattle.custody_machine.specs.declared.answers.Failure as why;
ghost use Rattle.custody.specs.OpenCustody.{current_records, KeepsOrder};
ghost use Rattle.custody_rules.specs.Blocks.{IsMapOf};
ghost use Rattle.custody.specs.Opening.{HasNoRecord, failure_of, CountsToldFailure, IsVolumeSize, ReadsVolume, NamesVolume, IsNotIdentified, IsIdentified, IsRefusedBy, ReportsDamage, AreWholeOf, IsRowDamage, OpensTables};

use crate::InitError;
use crate::open_custody::OpenCustody;
use custody_machine::{Damage, Failure};
use custody_records::{Meta, Records};
use custody_rules::whole_map;
use custody_store::{Store, StoreFault, find_meta, has_all_tables, has_any_table};
use sqlite::{Alter, Connection};
use std::alloc::Global;
use vault_volume::{ExtentMap, FEWEST_BLOCKS, MOST_BLOCKS, Vault, Volume, read_head, write_head};

/// The first row of meta.
fn find_record<S: Alter>(db: &mut Connection<S>) -> Result<Option<Meta>, Failure>
    ensures found { (store_state S.Store db.new).IsHonest → HasMetaOrNone (store_state S.Store db.old)
        → IfOk result (λ found. found ≡ option_map typed.meta_of (first_meta (store_state S.Store db.old).rows)) }
    ensures reads { ChangesNothing (store_state S.Store db.old) (store_state S.Store db.new) result }
    ensures kind { IfErr result (λ failure. failure ≡ Failure.StoreFailed) }
    // Where there is no table meta, the database is not called.
    ensures missing { (store_state S.Store db.old).has_table (codes "meta") ≡ false → (result ≡ Ok None) × (db.new ≡ db.old) }
{
    find_meta(db).map_err(failure_of)
}

/// Whether a database has a record of a vault.
pub fn has_record<S: Alter>(db: &mut Connection<S>) -> Result<bool, Failure>
    ensures found { (store_state S.Store db.new).IsHonest → HasMetaOrNone (store_state S.Store db.old)
        → IfOk result (λ is_there. is_there ≡ is_some (first_meta (store_state S.Store db.old).rows)) }
    ensures reads { ChangesNothing (store_state S.Store db.old) (store_state S.Store db.new) result }
    ensures kind { IfErr result (λ failure. failure ≡ Failure.StoreFailed) }
    // Where there is no table meta, the database is not called.
    ensures missing { (store_state S.Store db.old).has_table (codes "meta") ≡ false → (result ≡ Ok false) × (db.new ≡ db.old) }
{
    Ok(find_record(db)?.is_some())
}

/// The number in block 0.
fn read_number<V: Volume>(volume: &mut V) -> Result<u64, Failure>
    requires { V.failures volume.old < 2 ^ 64 - 1 }
    ensures reads { ReadsVolume V.Volume volume.old volume.new }
    ensures failures { MatchResult result (λ _. V.failures volume.new ≡ V.failures volume.old)
        (λ failure. CountsToldFailure (failure ≡ Failure.VolumeFailed) (V.failures volume.old) (V.failures volume.new)) }
    ensures head { V.tells → IfOk result (λ number. bytes_at (V.image volume.old) 0 4096 ≡ head_of number) }
    ensures not_closed { IfErr result (λ failure. failure ≢ Failure.Closed) }
    ensures kind { IfErr result (λ failure. (damage : wrong.Damage) → failure ≡ Failure.Damaged damage → damage ≡ Damage.Head) }
    ensures damaged { V.tells → IfErr result (λ failure. (damage : wrong.Damage) → failure ≡ Failure.Damaged damage → (rows : Rows) → IsDamaged damage rows (V.image volume.old)) }
{
    match read_head(volume) {
        Ok(Some(number)) => Ok(number),
        Ok(None) => Err(Failure::Damaged(Damage::Head)),
        Err(_) => Err(Failure::VolumeFailed),
    }
}

/// Whether the row is that of a volume of this number and so many blocks.
fn is_of(meta: &Meta, number: u64, blocks: u32) -> bool
    ensures { IsTrue result ↔ ((meta.now.number ≡ Some number) × (meta.now.blocks ≡ pos blocks)) }
{
    meta.number == Some(number) && meta.blocks == i64::from(blocks)
}

/// The number and the blocks of a volume, where it is the one of which the database has a record, and no
/// table of the records is missing.
pub fn identify<V: Volume, S: Alter>(
    volume: &mut V,
    db: &mut Connection<S>,
) -> Result<(u64, u32), Failure>
    requires { V.failures volume.old < 2 ^ 64 - 1 }
    ensures volume { ReadsVolume V.Volume volume.old volume.new }
    ensures reads { ChangesNothing (store_state S.Store db.old) (store_state S.Store db.new) result }
    ensures failures { MatchResult result (λ _. V.failures volume.new ≡ V.failures volume.old)
        (λ failure. CountsToldFailure (failure ≡ Failure.VolumeFailed) (V.failures volume.old) (V.failures volume.new)) }
    ensures found { IfOk result (λ found. NamesVolume V.Volume volume.old found) }
    ensures tables { IfOk result (λ _. has_all_tables (store_state S.Store db.old) ≡ true) }
    ensures told { IfErr result (λ failure. IsNotIdentified failure) }
    // What the rows say, where the database is honest and its first table is meta, or it has none.
    ensures rows { (store_state S.Store db.new).IsHonest → HasMetaOrNone (store_state S.Store db.old) → MatchResult result
        (λ _. IsIdentified V.tells (store_state S.Store db.old).rows (V.image volume.old))
        (λ failure. ReportsDamage V.tells (store_state S.Store db.old).rows (V.image volume.old) failure) }
    // Where there is no table meta, nothing is called.
    ensures missing { (store_state S.Store db.old).has_table (codes "meta") ≡ false
        → (result ≡ Err (Failure.Damaged Damage.NoRecord)) × (volume.new ≡ volume.old) × (db.new ≡ db.old) }
{
    let has_tables = has_all_tables(db);
    let Some(meta) = find_record(db)? else {
        return Err(Failure::Damaged(Damage::NoRecord));
    };
    let number = read_number(volume)?;
    let blocks = volume.size();
    if !is_of(&meta, number, blocks) {
        return Err(Failure::Damaged(Damage::Volume));
    }
    // Tables are looked for only where their schema is known.
    if !meta.is_known() {
        return Err(Failure::Damaged(Damage::Schema));
    }
    if !has_tables {
        return Err(Failure::Damaged(Damage::Form));
    }
    Ok((number, blocks))
}

/// Why a call of the store gave no answer.
pub(crate) fn failure_of(fault: StoreFault) -> Failure
    ensures { result ≡ failure_of fault }
{
    match fault {
        StoreFault::Failed => Failure::StoreFailed,
        StoreFault::Damaged(custody_records::RowDamage::Schema) => Failure::Damaged(Damage::Schema),
        StoreFault::Damaged(custody_records::RowDamage::Form) => Failure::Damaged(Damage::Form),
    }
}

/// The records of a database, where they are whole, and the map of their free blocks.
fn load_whole<S: Alter>(
    alloc: Global,
    store: &mut Store<S>,
    number: u64,
    blocks: u32,
) -> Result<(Records, ExtentMap), Failure>
    ensures whole { IfOk result (λ loaded. AreWholeOf number blocks (records_of loaded.0)) }
    ensures map { IfOk result (λ loaded. IsMapOf (records_of loaded.0) loaded.1) }
    ensures kind { IfErr result (λ failure. (failure ≢ Failure.VolumeFailed) × (failure ≢ Failure.Closed) × (failure ≢ Failure.Damaged Damage.Digest)) }
    ensures rows { (store_state S.Store store.new).IsHonest → (store_state S.Store store.old).HasSchemaTablesFirst → MatchResult result
        (λ loaded. form_of (store_state S.Store store.old).rows ≡ InForm (records_of loaded.0))
        (λ failure. (damage : wrong.Damage) → failure ≡ Failure.Damaged damage → IsRowDamage (store_state S.Store store.old).rows damage) }
    ensures reads { ChangesNothing (store_state S.Store store.old) (store_state S.Store store.new) result }
{
    let records = match store.load(alloc) {
        Ok(records) => records,
        Err(fault) => return Err(failure_of(fault)),
    };
    // (One database has one row of the volume: another here is no answer of the one that was asked before.)
    if records.number() != number || records.blocks() != blocks || blocks == 0 {
        return Err(Failure::StoreFailed);
    }
    let map = whole_map(alloc, &records)?;
    Ok((records, map))
}

/// Makes tables of schema 1 those of schema 2, where they are.
fn migrate_earlier<S: Alter>(store: &mut Store<S>, is_earlier: bool) -> Result<(), Failure>
    ensures migrates { is_earlier ≡ true → Migrates (store_state S.Store store.old) (store_state S.Store store.new) result }
    // Else the database is not called.
    ensures kept { is_earlier ≡ false → (result ≡ Ok tt) × (store.new ≡ store.old) }
    ensures trust { (store_state S.Store store.new).IsHonest → (store_state S.Store store.old).IsHonest }
    ensures kind { IfErr result (λ failure. failure ≡ Failure.StoreFailed) }
{
    if !is_earlier {
        return Ok(());
    }
    match store.migrate() {
        Ok(()) => Ok(()),
        Err(_) => Err(Failure::StoreFailed),
    }
}

/// The records of a database, where they are whole, and the map of their free blocks. Its tables are those
/// of schema 2 then.
pub fn load_current<S: Alter>(
    alloc: Global,
    store: &mut Store<S>,
    number: u64,
    blocks: u32,
    is_earlier: bool,
) -> Result<(Records, ExtentMap), Failure>
    ensures whole { IfOk result (λ loaded. AreWholeOf number blocks (records_of loaded.0)) }
    ensures map { IfOk result (λ loaded. IsMapOf (records_of loaded.0) loaded.1) }
    ensures kind { IfErr result (λ failure. (failure ≢ Failure.VolumeFailed) × (failure ≢ Failure.Closed) × (failure ≢ Failure.Damaged Damage.Digest)) }
    ensures rows { (store_state S.Store store.new).IsHonest → (store_state S.Store store.old).HasSchemaTablesFirst → MatchResult result
        (λ loaded. form_of (store_state S.Store store.old).rows ≡ InForm (records_of loaded.0))
        (λ failure. (damage : wrong.Damage) → failure ≡ Failure.Damaged damage → IsRowDamage (store_state S.Store store.old).rows damage) }
    ensures opens { OpensTables is_earlier (store_state S.Store store.old) (store_state S.Store store.new) result }
{
    let loaded = load_whole(alloc, store, number, blocks)?;
    migrate_earlier(store, is_earlier)?;
    Ok(loaded)
}

/// Whether a custody may be begun: there is no record of one, the size is in range, and no table of the
/// records is there.
pub fn may_begin<S: Alter>(db: &mut Connection<S>, blocks: u32) -> Result<(), InitError>
    ensures size { MatchResult result (λ _. IsVolumeSize blocks) (λ e. e ≡ InitError.Size → ¬ IsVolumeSize blocks) }
    ensures tables { IfOk result (λ _. has_any_table (store_state S.Store db.old) ≡ false) }
    ensures kind { IfErr result (λ e. (failure : why.Failure) → e ≡ InitError.Failure failure → failure ≡ Failure.StoreFailed) }
    ensures reads { ChangesNothing (store_state S.Store db.old) (store_state S.Store db.new) result }
    // A database with a record is refused, and no other.
    ensures rows { (store_state S.Store db.new).IsHonest → HasMetaOrNone (store_state S.Store db.old) → MatchResult result
        (λ _. HasNoRecord (store_state S.Store db.old).rows) (λ e. IsRefusedBy (store_state S.Store db.old).rows e) }
    // Where there is no table meta, the database is not called, and nothing but the size is refused, or another table.
    ensures missing { (store_state S.Store db.old).has_table (codes "meta") ≡ false
        → IfErr result (λ e. (e ≡ InitError.Size) ⊎ (e ≡ InitError.Failure Failure.StoreFailed)) × (db.new ≡ db.old) }
    ensures other { IfErr result (λ e. (store_state S.Store db.old).has_table (codes "meta") ≡ false → has_any_table (store_state S.Store db.old) ≡ false → e ≡ InitError.Size) }
{
    let has_tables = has_any_table(db);
    if has_record(db)? {
        return Err(InitError::AlreadyInitialised);
    }
    if !(FEWEST_BLOCKS..=MOST_BLOCKS).contains(&blocks) {
        return Err(InitError::Size);
    }
    if has_tables {
        return Err(InitError::Failure(Failure::StoreFailed));
    }
    Ok(())
}

/// Writes block 0, and then makes the records, none yet. There is memory for their map before anything is
/// written.
pub fn make_records<V: Volume, S: Alter>(
    alloc: Global,
    volume: &mut V,
    store: &mut Store<S>,
    number: u64,
    blocks: u32,
) -> Result<(Records, ExtentMap), Failure>
    requires count { V.failures volume.old < 2 ^ 64 - 1 }
    requires fits { IsVolumeSize blocks }
    requires blocks { V.size volume.old ≡ blocks }
    ensures records { IfOk result (λ made. records_of made.0 ≡ new_records number blocks) }
    ensures map { IfOk result (λ made. IsMapOf (records_of made.0) made.1) }
    ensures size { V.size volume.new ≡ V.size volume.old }
    ensures failures { MatchResult result (λ _. V.failures volume.new ≡ V.failures volume.old)
        (λ failure. CountsToldFailure (failure ≡ Failure.VolumeFailed) (V.failures volume.old) (V.failures volume.new)) }
    ensures kind { IfErr result (λ failure. (failure ≡ Failure.NoMemory) ⊎ ((failure ≡ Failure.VolumeFailed) ⊎ (failure ≡ Failure.StoreFailed))) }
    ensures unwritten { IfErr result (λ failure. failure ≡ Failure.NoMemory → (volume.new ≡ volume.old) × (store.new ≡ store.old)) }
    ensures head { V.tells → OnOk result (bytes_at (V.image volume.new) 0 4096 ≡ head_of number) }
    ensures settled { V.tells → OnOk result (LeavesOneImage (V.image volume.new) (V.left_at volume.new (V.moment volume.new))) }
    ensures founds { CreatesTables (store_state S.Store store.old) (store_state S.Store store.new) (initial_rows (digits_of number) (pos blocks)) result }
    ensures at_exit { V.tells → (store_state S.Store store.new).IsHonest → (store_state S.Store store.old).IsBare
        → (rows : Rows) (image : List ℕ) → (store_state S.Store store.new).may_leave rows → V.left_at volume.new (V.moment volume.new) image → MayInitialise rows image }
{
    let records = Records::new(alloc, number, blocks);
    let map = whole_map(alloc, &records)?;
    let Ok(()) = write_head(volume, number) else {
        return Err(Failure::VolumeFailed);
    };
    match store.create(number, blocks) {
        Ok(()) => Ok((records, map)),
        Err(_) => Err(Failure::StoreFailed),
    }
}

/// Whole records with their volume and database, and the map of their free blocks.
pub fn open_custody_over<V: Volume, S: Alter>(
    volume: V,
    store: Store<S>,
    records: Records,
    map: ExtentMap,
) -> OpenCustody<V, S>
    requires whole { AreWhole (records_of records) }
    requires map { IsMapOf (records_of records) map }
    requires size { V.size volume ≡ (records_of records).blocks }
    requires count { V.failures volume < 2 ^ 64 - 1 }
    ensures volume { volume_of result.vault ≡ volume }
    ensures store { result.store ≡ store }
    ensures records { current_records result ≡ records_of records }
    ensures order { KeepsOrder result }
{
    OpenCustody {
        vault: Vault::over(volume, map),
        store,
        records,
    }
}
