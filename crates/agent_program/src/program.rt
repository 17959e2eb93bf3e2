//! What a call of the program does.
ghost use Rattle.std.specs.Prelude.{◌≡◌, ◌≢◌, ◌⊎◌, ℕ, IfErr, IfOk, OnErr, codes, map, string_bytes};
ghost use Rattle.answer_lines.specs.Printing.{IsUnused, WritesBeginning, as_line};
ghost use Rattle.agent_cli.specs.Faults.{IsStatusOf};
ghost use Rattle.agent_cli.specs.declared.order.Order.{Order};
ghost use Rattle.agent_program.specs.Calls.{EndsCall, EndsStart, EndsRun, IsNotDone, IsObeyed, MayStop};
ghost use Rattle.agent_program.specs.Errors.{IsProgramFailure};
ghost use Rattle.agent_program.specs.Folder.{AreOpen, HasActed, HasBatchedInFolder, HasBegunInFolder, HasEnded, HasServedInFolder, IsCopySpared, IsSpared};
ghost use Rattle.agent_program.specs.Host.{AreSameOutside, database_path as path_of_database, volume_path as path_of_volume};

use crate::clock::moment_of;
use crate::errors::{ProgramError, tell_error};
use crate::folder::{
    FolderCallEnd, close_folder, create_folder, database_path, is_read_only, open_folder,
    open_folder_to_read, volume_path,
};
use crate::host::Host;
use crate::output::Output;
use crate::parts::part_of;
use crate::streams::hold_streams;
use crate::terminal::Terminal;
use crate::vault_calls::{batch, init_vault, open_and_act, serve};
use agent_cli::{Deed, Order, WordFault, order_of};
use answer_lines::{VolumeNumber, write_whole};
use custody_machine::{ExitStatus, Failure};
use std::alloc::Global;
use std::io::{self, Read, Write};
use vault_volume::{BlockFile, FileVolume, Volume};

/// What is said where standard output does not take all that is printed.
const OUTPUT_FAILED: &[u8] = b"output failed\n";

/// Does what the words that the program was started with ask for, and answers the exit status. `lines` are
/// those of a batch. The line of an error is printed.
pub fn run<H: Host, L: Read + Drop, W: Write + Drop, E: Write>(
    host: &mut H,
    lines: L,
    out: &mut Output<W>,
    err: &mut E,
) -> u8
    ensures { EndsRun ⟦<FileVolume<H::File> as Volume>⟧ H.DatabaseFile.Disk H.File.tells (H.BlockFiles.holds host.old) (H.BlockFiles.holds host.new) (H.shown host.old) (L.remaining lines) (H.given_words host.old) result (record { before = ⟦<Output<W> as Write>⟧.contents out.old; after = ⟦<Output<W> as Write>⟧.contents out.new }) (record { before = E.contents err.old; after = E.contents err.new }) }
{
    match call_by_words(host, lines, out, err) {
        Ok(status) => status,
        Err(error) => tell_error(&error, err),
    }
}

/// Reads the words that the program was started with, and does what they ask for.
#[tactic(auto, using(crate::proofs::CallLemmas::stops))]
fn call_by_words<H: Host, L: Read + Drop, W: Write + Drop, E: Write>(
    host: &mut H,
    lines: L,
    out: &mut Output<W>,
    err: &mut E,
) -> Result<u8, ProgramError>
    ensures done { IfOk result (λ status. EndsStart ⟦<FileVolume<H::File> as Volume>⟧ H.DatabaseFile.Disk H.File.tells (H.BlockFiles.holds host.old) (H.BlockFiles.holds host.new) (H.shown host.old) (L.remaining lines) (H.given_words host.old) status (record { before = ⟦<Output<W> as Write>⟧.contents out.old; after = ⟦<Output<W> as Write>⟧.contents out.new }) (record { before = E.contents err.old; after = E.contents err.new })) }
    ensures error { IfErr result (MayStop H.File.tells (H.BlockFiles.holds host.old) (H.BlockFiles.holds host.new) (H.given_words host.old)) }
    ensures silent { OnErr result (IsUnused (record { before = ⟦<Output<W> as Write>⟧.contents out.old; after = ⟦<Output<W> as Write>⟧.contents out.new }) × IsUnused (record { before = E.contents err.old; after = E.contents err.new })) }
{
    let words = match host.words() {
        Ok(words) => words,
        Err(error) if error.kind() == io::ErrorKind::OutOfMemory => {
            return Err(ProgramError::Failure(Failure::NoMemory));
        }
        Err(_) => return Err(ProgramError::Words),
    };
    call(host, words.as_slice(), lines, out, err)
}

/// Does what the words of a call ask for, and answers the status. The first of them is the program's name.
#[tactic(auto, using(crate::proofs::CallLemmas::not_done))]
fn call<H: Host, L: Read + Drop, W: Write + Drop, E: Write>(
    host: &mut H,
    words: &[String],
    lines: L,
    out: &mut Output<W>,
    err: &mut E,
) -> Result<u8, ProgramError>
    ensures done { IfOk result (λ status. EndsCall ⟦<FileVolume<H::File> as Volume>⟧ H.DatabaseFile.Disk H.File.tells (H.BlockFiles.holds host.old) (H.BlockFiles.holds host.new) (H.shown host.old) (L.remaining lines) (map string_bytes words.now) status (record { before = ⟦<Output<W> as Write>⟧.contents out.old; after = ⟦<Output<W> as Write>⟧.contents out.new }) (record { before = E.contents err.old; after = E.contents err.new })) }
    ensures error { IfErr result (λ error. IsProgramFailure error × IsNotDone H.File.tells (H.BlockFiles.holds host.old) (H.BlockFiles.holds host.new) (map string_bytes words.now)) }
    ensures silent { OnErr result (IsUnused (record { before = ⟦<Output<W> as Write>⟧.contents out.old; after = ⟦<Output<W> as Write>⟧.contents out.new }) × IsUnused (record { before = E.contents err.old; after = E.contents err.new })) }
{
    match order_of(host.alloc(), words) {
        Ok(order) => obey(host, &order, lines, out, err),
        Err(fault) => Ok(tell_words(host.alloc(), &fault, out, err)),
    }
}

/// Prints the text of words that are no order, help among them, and answers the status.
fn tell_words<W: Write, E: Write>(alloc: Global, fault: &WordFault, out: &mut W, err: &mut E) -> u8
    ensures { IsStatusOf fault.now result ⊎ (result ≡ 3) }
{
    let printed = match fault {
        WordFault::Words(error) if !error.use_stderr() => print_text(alloc, fault, out),
        _ => print_text(alloc, fault, err),
    };
    match printed {
        Ok(()) => fault.status(),
        Err(_) => {
            let _ = write_whole(OUTPUT_FAILED, err);
            ExitStatus::Failed.number()
        }
    }
}

/// Prints a text in one piece, where there is memory for it.
fn print_text<W: Write>(alloc: Global, fault: &WordFault, out: &mut W) -> io::Result<()> {
    match format!(in alloc; "{fault}") {
        Ok(text) => out.write_all(text.as_bytes())?,
        Err(_) => write!(out, "{fault}")?,
    }
    out.flush()
}

/// Carries out an order, closes the files of its folder, and answers its status.
fn obey<H: Host, L: Read + Drop, W: Write + Drop, E: Write>(
    host: &mut H,
    order: &Order<'_>,
    lines: L,
    out: &mut Output<W>,
    err: &mut E,
) -> Result<u8, ProgramError>
    ensures done { IfOk result (λ status. IsObeyed ⟦<FileVolume<H::File> as Volume>⟧ H.DatabaseFile.Disk H.File.tells (H.BlockFiles.holds host.old) (H.BlockFiles.holds host.new) (H.shown host.old) (L.remaining lines) order.entry.now status (record { before = ⟦<Output<W> as Write>⟧.contents out.old; after = ⟦<Output<W> as Write>⟧.contents out.new }) (record { before = E.contents err.old; after = E.contents err.new })) }
    ensures error { IfErr result IsProgramFailure }
    ensures spared { H.File.tells → OnErr result (IsSpared (H.BlockFiles.holds host.old) (H.BlockFiles.holds host.new) order.entry.now) }
    ensures silent { OnErr result (IsUnused (record { before = ⟦<Output<W> as Write>⟧.contents out.old; after = ⟦<Output<W> as Write>⟧.contents out.new }) × IsUnused (record { before = E.contents err.old; after = E.contents err.new })) }
{
    let _streams = hold_streams(host)?;
    let volume_path = volume_path(host.alloc(), order.folder)?;
    let database_path = database_path(host.alloc(), order.folder)?;
    let ended = carry_out(host, order, lines, out, err)?;
    tell_failed_output(out, err);
    tell_cause(host.alloc(), &volume_path, ended.volume(), err);
    let status = ended.status();
    close_folder(host, &volume_path, &database_path, ended);
    Ok(status)
}

/// Prints that the output failed, where it did.
fn tell_failed_output<W: Write + Drop, E: Write>(out: &Output<W>, err: &mut E)
    ensures { WritesBeginning (record { before = E.contents err.old; after = E.contents err.new }) (as_line (codes "output failed")) }
{
    if out.has_failed() {
        let _ = write_whole(OUTPUT_FAILED, err);
    }
}

/// Prints why the last call on the volume that failed did so, where one has.
fn tell_cause<F: BlockFile, E: Write>(
    alloc: Global,
    path: &str,
    volume: &FileVolume<F>,
    err: &mut E,
)
    ensures { ⟦<FileVolume<F> as Volume>⟧.failures volume.now ≡ 0 → E.contents err.new ≡ E.contents err.old }
{
    if let Some(cause) = volume.cause() {
        if let ProgramError::File(line) = ProgramError::of_file(alloc, path, cause) {
            let _ = write_whole(line.as_bytes(), err);
        }
    }
}

/// Carries out an order over the files of its folder, which are to be closed then. `lines` are those of a
/// batch.
fn carry_out<H: Host, L: Read + Drop, W: Write, E: Write>(
    host: &mut H,
    order: &Order<'_>,
    lines: L,
    out: &mut W,
    err: &mut E,
) -> Result<FolderCallEnd<H::File, H::DatabaseFile>, ProgramError>
    ensures done { IfOk result (HasEnded ⟦<FileVolume<H::File> as Volume>⟧ H.DatabaseFile.Disk H.File.tells (H.BlockFiles.holds host.old) (H.shown host.old) (record { before = W.contents out.old; after = W.contents out.new }) (record { before = E.contents err.old; after = E.contents err.new }) (L.remaining lines) order.entry.now) }
    ensures error { IfErr result IsProgramFailure }
    ensures left_open { H.File.tells → IfOk result (λ ended. AreOpen (H.BlockFiles.is_open host.new) (H.is_database_open host.new) (path_of_volume order.entry.now.folder.now) (path_of_database order.entry.now.folder.now) ended × IsCopySpared (H.BlockFiles.holds host.old) (H.BlockFiles.holds host.new) (path_of_database order.entry.now.folder.now) ended) }
    // The files of other paths stay.
    ensures others { H.File.tells → AreSameOutside (H.BlockFiles.holds host.old) (H.BlockFiles.holds host.new) order.entry.now.folder.now }
    ensures unopened { H.File.tells → ((blocks number : ℕ) → order.entry.now.deed ≢ Deed.Init blocks number) → OnErr result (H.BlockFiles.holds host.new (path_of_volume order.entry.now.folder.now) ≡ H.BlockFiles.holds host.old (path_of_volume order.entry.now.folder.now)) }
    // What is not done prints nothing.
    ensures silent { OnErr result (IsUnused (record { before = W.contents out.old; after = W.contents out.new }) × IsUnused (record { before = E.contents err.old; after = E.contents err.new })) }
{
    match order.deed {
        Deed::Init { blocks, number } => begin_in_folder(host, order, blocks, number, out, err),
        Deed::Batch => batch_in_folder(host, order, lines, out, err),
        Deed::Serve {
            port,
            requests,
            until_closed,
        } => serve_in_folder(host, order, port, requests, until_closed, out, err),
        Deed::Put { .. }
        | Deed::Preview(_)
        | Deed::Do(_)
        | Deed::Due
        | Deed::Sweep { .. }
        | Deed::Fetch { .. }
        | Deed::Report { .. }
        | Deed::Explain { .. }
        | Deed::Digests { .. }
        | Deed::State
        | Deed::Audit => {
            let part = part_of(host, order)?;
            act_in_folder(host, order, &part, out, err)
        }
    }
}

/// Makes the files of a folder, and begins a vault over them.
fn begin_in_folder<H: Host, W: Write, E: Write>(
    host: &mut H,
    order: &Order<'_>,
    blocks: u32,
    number: VolumeNumber,
    out: &mut W,
    err: &mut E,
) -> Result<FolderCallEnd<H::File, H::DatabaseFile>, ProgramError>
    ensures done { IfOk result (HasBegunInFolder ⟦<FileVolume<H::File> as Volume>⟧ H.DatabaseFile.Disk H.File.tells (H.BlockFiles.holds host.old) (H.shown host.old) (record { before = W.contents out.old; after = W.contents out.new }) (record { before = E.contents err.old; after = E.contents err.new }) order.entry.now blocks number) }
    ensures error { IfErr result IsProgramFailure }
    ensures left_open { H.File.tells → IfOk result (λ ended. AreOpen (H.BlockFiles.is_open host.new) (H.is_database_open host.new) (path_of_volume order.entry.now.folder.now) (path_of_database order.entry.now.folder.now) ended × IsCopySpared (H.BlockFiles.holds host.old) (H.BlockFiles.holds host.new) (path_of_database order.entry.now.folder.now) ended) }
    // The files of other paths stay.
    ensures others { H.File.tells → AreSameOutside (H.BlockFiles.holds host.old) (H.BlockFiles.holds host.new) order.entry.now.folder.now }
    // What is not done prints nothing.
    ensures silent { OnErr result (IsUnused (record { before = W.contents out.old; after = W.contents out.new }) × IsUnused (record { before = E.contents err.old; after = E.contents err.new })) }
{
    let made = create_folder(host, order.folder, blocks)?;
    let files = (made.volume, made.db);
    Ok(FolderCallEnd::Open(init_vault(host.alloc(), files, blocks, number, out, err)))
}

/// Does the orders of lines on the vault of a folder.
fn batch_in_folder<H: Host, L: Read + Drop, W: Write, E: Write>(
    host: &mut H,
    order: &Order<'_>,
    lines: L,
    out: &mut W,
    err: &mut E,
) -> Result<FolderCallEnd<H::File, H::DatabaseFile>, ProgramError>
    ensures done { IfOk result (HasBatchedInFolder ⟦<FileVolume<H::File> as Volume>⟧ H.DatabaseFile.Disk H.File.tells (H.BlockFiles.holds host.old) (H.shown host.old) (record { before = W.contents out.old; after = W.contents out.new }) (record { before = E.contents err.old; after = E.contents err.new }) order.entry.now (L.remaining lines)) }
    ensures error { IfErr result IsProgramFailure }
    ensures left_open { H.File.tells → IfOk result (λ ended. AreOpen (H.BlockFiles.is_open host.new) (H.is_database_open host.new) (path_of_volume order.entry.now.folder.now) (path_of_database order.entry.now.folder.now) ended × IsCopySpared (H.BlockFiles.holds host.old) (H.BlockFiles.holds host.new) (path_of_database order.entry.now.folder.now) ended) }
    // The files of other paths stay.
    ensures others { H.File.tells → AreSameOutside (H.BlockFiles.holds host.old) (H.BlockFiles.holds host.new) order.entry.now.folder.now }
    ensures unopened { H.File.tells → OnErr result (H.BlockFiles.holds host.new (path_of_volume order.entry.now.folder.now) ≡ H.BlockFiles.holds host.old (path_of_volume order.entry.now.folder.now)) }
    // What is not done prints nothing.
    ensures silent { OnErr result (IsUnused (record { before = W.contents out.old; after = W.contents out.new }) × IsUnused (record { before = E.contents err.old; after = E.contents err.new })) }
{
    let found = open_folder(host, order.folder)?;
    let files = (found.volume, found.db);
    Ok(FolderCallEnd::Open(batch(host, files, order.folder, lines, out, err)))
}

/// Answers connections over the vault of a folder.
fn serve_in_folder<H: Host, W: Write, E: Write>(
    host: &mut H,
    order: &Order<'_>,
    port: u16,
    requests: u32,
    until_closed: bool,
    out: &mut W,
    err: &mut E,
) -> Result<FolderCallEnd<H::File, H::DatabaseFile>, ProgramError>
    ensures done { IfOk result (HasServedInFolder ⟦<FileVolume<H::File> as Volume>⟧ H.DatabaseFile.Disk H.File.tells (H.BlockFiles.holds host.old) (H.shown host.old) (record { before = W.contents out.old; after = W.contents out.new }) (record { before = E.contents err.old; after = E.contents err.new }) order.entry.now port requests until_closed) }
    ensures error { IfErr result IsProgramFailure }
    ensures left_open { H.File.tells → IfOk result (λ ended. AreOpen (H.BlockFiles.is_open host.new) (H.is_database_open host.new) (path_of_volume order.entry.now.folder.now) (path_of_database order.entry.now.folder.now) ended × IsCopySpared (H.BlockFiles.holds host.old) (H.BlockFiles.holds host.new) (path_of_database order.entry.now.folder.now) ended) }
    // The files of other paths stay.
    ensures others { H.File.tells → AreSameOutside (H.BlockFiles.holds host.old) (H.BlockFiles.holds host.new) order.entry.now.folder.now }
    ensures unopened { H.File.tells → OnErr result (H.BlockFiles.holds host.new (path_of_volume order.entry.now.folder.now) ≡ H.BlockFiles.holds host.old (path_of_volume order.entry.now.folder.now)) }
    // What is not done prints nothing.
    ensures silent { OnErr result (IsUnused (record { before = W.contents out.old; after = W.contents out.new }) × IsUnused (record { before = E.contents err.old; after = E.contents err.new })) }
{
    let found = open_folder(host, order.folder)?;
    let files = (found.volume, found.db);
    let now = order.now;
    Ok(FolderCallEnd::Open(serve(host, files, port, requests, until_closed, now, out, err)))
}

/// Carries out an order on the vault of a folder, at its moment.
fn act_in_folder<H: Host, W: Write, E: Write>(
    host: &mut H,
    order: &Order<'_>,
    part: &[u8],
    out: &mut W,
    err: &mut E,
) -> Result<FolderCallEnd<H::File, H::DatabaseFile>, ProgramError>
    ensures done { IfOk result (HasActed ⟦<FileVolume<H::File> as Volume>⟧ H.DatabaseFile.Disk H.File.tells (H.BlockFiles.holds host.old) (H.shown host.old) (record { before = W.contents out.old; after = W.contents out.new }) (record { before = E.contents err.old; after = E.contents err.new }) order.entry.now part.now) }
    ensures error { IfErr result IsProgramFailure }
    ensures left_open { H.File.tells → IfOk result (λ ended. AreOpen (H.BlockFiles.is_open host.new) (H.is_database_open host.new) (path_of_volume order.entry.now.folder.now) (path_of_database order.entry.now.folder.now) ended × IsCopySpared (H.BlockFiles.holds host.old) (H.BlockFiles.holds host.new) (path_of_database order.entry.now.folder.now) ended) }
    // The files of other paths stay.
    ensures others { H.File.tells → AreSameOutside (H.BlockFiles.holds host.old) (H.BlockFiles.holds host.new) order.entry.now.folder.now }
    ensures unopened { H.File.tells → OnErr result (H.BlockFiles.holds host.new (path_of_volume order.entry.now.folder.now) ≡ H.BlockFiles.holds host.old (path_of_volume order.entry.now.folder.now)) }
    // What is not done prints nothing.
    ensures silent { OnErr result (IsUnused (record { before = W.contents out.old; after = W.contents out.new }) × IsUnused (record { before = E.contents err.old; after = E.contents err.new })) }
{
    let now = moment_of(host, order)?;
    let alloc = host.alloc();
    let deed = &order.deed;
    let mut progress = Terminal::of(host, deed);
    if deed.only_reads() && is_read_only(host, order.folder)? {
        let found = open_folder_to_read(host, order.folder)?;
        let files = (found.volume, found.db);
        let ended = open_and_act(alloc, files, deed, part, now, out, err, &mut progress);
        return Ok(FolderCallEnd::ReadOnly(ended));
    }
    let found = open_folder(host, order.folder)?;
    let files = (found.volume, found.db);
    let ended = open_and_act(alloc, files, deed, part, now, out, err, &mut progress);
    Ok(FolderCallEnd::Open(ended))
}
