//! What a call does over a volume and a database, of whatever kinds they are.
ghost use Rattle.std.specs.Prelude.{◌≡◌, ◌-◌, ◌^◌, ◌<◌, ◌≤◌, ℕ, List, Ok, true, false, IfErr, IfOk, MatchBool};
ghost use Rattle.vault_volume.specs.Vault.{volume_of};
ghost use Rattle.custody_records.specs.Rows.{Rows};
ghost use Rattle.custody_store.specs.StoreState.{store_state};
ghost use Rattle.custody_machine.specs.declared.damage.Damage.TheVariants.{NoRecord};
ghost use Rattle.custody_machine.specs.Damage.{IsDamaged};
ghost use Rattle.custody.specs.Custody.{is_open, open_custody_of};
ghost use Rattle.custody.specs.Opening.{HasNoRecord};
ghost use Rattle.answer_lines.specs.Lines.{line_text};
ghost use Rattle.answer_lines.specs.Printing.{IsUnused, WritesWholeAt, Writer, as_line};
ghost use Rattle.answer_lines.specs.Statuses.{IsStatusAfter};
ghost use Rattle.agent_program.specs.VaultCalls.{HasServedConnections, IsServedFrom, HasPrintedReady, HasDoneBatch, IsCarriedOut, HasPrintedInitError, HasPrintedOpenFailure};
ghost use Rattle.theorems.specs.Lives.{HasOpened};

use crate::batch::do_lines;
use crate::host::Host;
use agent_cli::{Deed, act};
use answer_lines::{Line, VolumeNumber, print_line, tell, tell_init};
use custody::{Custody, Progress};
use custody_machine::{ExitStatus, Failure};
use http_api::{Api, ServiceError, serve_connections};
use schedule::Sec;
use sqlite::{Alter, Connection};
use std::alloc::Global;
use std::io::{Read, Write};
use vault_volume::Volume;

/// How a call over a volume and a database ended: the exit status, and both as it left them.
#[derive(Drop)]
pub struct CallEnd<V: Volume, S: Alter> {
    pub status: u8,
    /// Whether they are a vault's, which is to be closed.
    pub has_vault: bool,
    pub volume: V,
    pub db: Connection<S>,
}

impl<V: Volume, S: Alter + Drop> CallEnd<V, S> {
    /// The end of a call that has a vault.
    fn with_vault(status: u8, custody: Custody<V, S>) -> CallEnd<V, S>
        ensures status { result.status ≡ status }
        ensures vault { result.has_vault ≡ true }
        ensures volume { result.volume ≡ volume_of (open_custody_of custody).vault }
        ensures store { result.db ≡ (open_custody_of custody).store }
    {
        let (volume, db) = custody.close();
        CallEnd {
            status,
            has_vault: true,
            volume,
            db,
        }
    }
}

/// Makes a vault, and prints that it stands.
pub fn init_vault<V: Volume, S: Alter + Drop, W: Write, E: Write>(
    alloc: Global,
    files: (V, Connection<S>),
    blocks: u32,
    number: VolumeNumber,
    out: &mut W,
    err: &mut E,
) -> CallEnd<V, S>
    requires { V.failures files.0 < 2 ^ 64 - 1 }
    ensures ends { MatchBool result.has_vault
        (HasPrintedReady V.Volume S.Store files.0 files.1 blocks number result.status result.volume result.db (record { before = W.contents out.old; after = W.contents out.new }) (record { before = E.contents err.old; after = E.contents err.new }))
        (HasPrintedInitError V.Volume S.Store files.0 files.1 number result.status result.volume result.db (record { before = W.contents out.old; after = W.contents out.new }) (record { before = E.contents err.old; after = E.contents err.new })) }
    // Where there was no record, a stop before the commit leaves none.
    ensures within { (store_state S.Store files.1).IsAtRest → HasNoRecord (store_state S.Store files.1).rows
        → (rows : Rows) (image : List ℕ) → (store_state S.Store files.1).may_leave rows → IsDamaged NoRecord rows image }
{
    let (volume, db) = files;
    match Custody::init(alloc, volume, db, number.get()) {
        Ok(custody) => {
            let status = print_line(&Line::Ready { blocks, number }, out);
            CallEnd::with_vault(status, custody)
        }
        Err((error, volume, db)) => CallEnd {
            status: tell_init(&error, err),
            has_vault: false,
            volume,
            db,
        },
    }
}

/// Opens a vault, or prints why it does not open.
fn open_vault<V: Volume, S: Alter + Drop, E: Write>(
    alloc: Global,
    files: (V, Connection<S>),
    err: &mut E,
) -> Result<Custody<V, S>, CallEnd<V, S>>
    requires { V.failures files.0 < 2 ^ 64 - 1 }
    ensures opened { IfOk result (λ custody. HasOpened V.Volume S.Store files.0 files.1 (Ok custody) × IsUnused (record { before = E.contents err.old; after = E.contents err.new })) }
    ensures not_opened { IfErr result (λ ended. (ended.has_vault ≡ false) × ((output : Writer) → IsUnused output
        → HasPrintedOpenFailure V.Volume S.Store files.0 files.1 ended.status ended.volume ended.db output (record { before = E.contents err.old; after = E.contents err.new }))) }
{
    let (volume, db) = files;
    match Custody::open(alloc, volume, db) {
        Ok(custody) => Ok(custody),
        Err((failure, volume, db)) => Err(CallEnd {
            status: tell(&failure, err),
            has_vault: false,
            volume,
            db,
        }),
    }
}

/// Opens a vault, and does a deed on it.
pub fn open_and_act<V: Volume, S: Alter + Drop, W: Write, E: Write, P: Progress>(
    alloc: Global,
    files: (V, Connection<S>),
    deed: &Deed<'_>,
    file: &[u8],
    now: Sec,
    out: &mut W,
    err: &mut E,
    progress: &mut P,
) -> CallEnd<V, S>
    requires { V.failures files.0 < 2 ^ 64 - 1 }
    ensures { MatchBool result.has_vault
        (IsCarriedOut V.Volume S.Store files.0 files.1 deed.now file.now now result.status result.volume result.db (record { before = W.contents out.old; after = W.contents out.new }) (record { before = E.contents err.old; after = E.contents err.new }))
        (HasPrintedOpenFailure V.Volume S.Store files.0 files.1 result.status result.volume result.db (record { before = W.contents out.old; after = W.contents out.new }) (record { before = E.contents err.old; after = E.contents err.new })) }
{
    let mut custody = match open_vault(alloc, files, err) {
        Ok(custody) => custody,
        Err(ended) => return ended,
    };
    let status = act(alloc, &mut custody, deed, file, now, out, err, progress);
    CallEnd::with_vault(status, custody)
}

/// Opens a vault, and does the orders that lines ask for, in their turn.
pub fn batch<H: Host, V: Volume, S: Alter + Drop, L: Read + Drop, W: Write, E: Write>(
    host: &H,
    files: (V, Connection<S>),
    folder: &str,
    lines: L,
    out: &mut W,
    err: &mut E,
) -> CallEnd<V, S>
    requires { V.failures files.0 < 2 ^ 64 - 1 }
    ensures { MatchBool result.has_vault
        (HasDoneBatch V.Volume S.Store files.0 files.1 (H.BlockFiles.holds host.now) (H.shown host.now) folder.now (L.remaining lines) result.status result.volume result.db (record { before = W.contents out.old; after = W.contents out.new }) (record { before = E.contents err.old; after = E.contents err.new }))
        (HasPrintedOpenFailure V.Volume S.Store files.0 files.1 result.status result.volume result.db (record { before = W.contents out.old; after = W.contents out.new }) (record { before = E.contents err.old; after = E.contents err.new })) }
{
    let mut custody = match open_vault(host.alloc(), files, err) {
        Ok(custody) => custody,
        Err(ended) => return ended,
    };
    let status = do_lines(host, &mut custody, folder, lines, out, err);
    CallEnd::with_vault(status, custody)
}

/// Opens a vault, and answers so many connections at a port of the host itself.
pub fn serve<H: Host, V: Volume, S: Alter + Drop, W: Write, E: Write>(
    host: &H,
    files: (V, Connection<S>),
    port: u16,
    requests: u32,
    until_closed: bool,
    now: Option<Sec>,
    out: &mut W,
    err: &mut E,
) -> CallEnd<V, S>
    requires { V.failures files.0 < 2 ^ 64 - 1 }
    ensures { MatchBool result.has_vault
        (HasServedConnections V.Volume S.Store files.0 files.1 port now requests until_closed result.status result.volume result.db (record { before = W.contents out.old; after = W.contents out.new }))
        (HasPrintedOpenFailure V.Volume S.Store files.0 files.1 result.status result.volume result.db (record { before = W.contents out.old; after = W.contents out.new }) (record { before = E.contents err.old; after = E.contents err.new })) }
{
    let mut custody = match open_vault(host.alloc(), files, err) {
        Ok(custody) => custody,
        Err(ended) => return ended,
    };
    let status = answer_connections(
        host,
        &mut custody,
        port,
        requests,
        until_closed,
        now,
        out,
        err,
    );
    CallEnd::with_vault(status, custody)
}

/// Answers so many connections at a port, prints where it listens, and answers the status.
fn answer_connections<H: Host, V: Volume, S: Alter, W: Write, E: Write>(
    host: &H,
    custody: &mut Custody<V, S>,
    port: u16,
    requests: u32,
    until_closed: bool,
    now: Option<Sec>,
    out: &mut W,
    err: &mut E,
) -> u8
    ensures turns { (served : ℕ) × (served ≤ requests) × (result ≡ 0 → served ≡ requests) × IsServedFrom now served custody.old custody.new }
    ensures stays_open { until_closed ≡ true → is_open custody.old ≡ true → result ≡ 0 → is_open custody.new ≡ true }
    ensures status { IsStatusAfter 0 result }
    ensures told { WritesWholeAt (record { before = W.contents out.old; after = W.contents out.new }) (as_line (line_text (Line.Listening port))) 0 result }
{
    let alloc = host.alloc();
    let Ok(api) = Api::new(alloc) else {
        return tell(&Failure::NoMemory, err);
    };
    let mut listener = match host.listen(port) {
        Ok(listener) => listener,
        Err(fault) => return print_service_error(fault, err),
    };
    let status = print_line(&Line::Listening { port }, out);
    if status != ExitStatus::Done.number() {
        return status;
    }
    let served = serve_connections(
        alloc,
        host.clock(),
        &api,
        &mut listener,
        requests,
        until_closed,
        custody,
        now,
        err,
    );
    match served {
        Ok(()) => ExitStatus::Done.number(),
        Err(fault) => print_service_error(fault, err),
    }
}

/// Prints why no more connections are answered, and answers the status.
fn print_service_error<E: Write>(fault: ServiceError, err: &mut E) -> u8
    ensures { result ≡ 3 }
{
    let _ = writeln!(err, "{fault}");
    ExitStatus::Failed.number()
}
