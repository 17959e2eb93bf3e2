//! The lines of a batch: each has the words of a call, without the program's name and the folder.
ghost use Rattle.std.specs.Prelude.{◌≡◌, [], ◌∷◌, IfOk, MatchOption, MatchResult, map};
ghost use Rattle.std.specs.Io.KnownBytes.{Consumes, IsAtEnd, Keeps};
ghost use Rattle.std.specs.Option.{option_map};
ghost use Rattle.std.specs.String.{string_bytes};
ghost use Rattle.agent_cli.specs.BatchLines.{AskInBatch, AskNoOrder, IsNoOrder, ReadsLine, GivesCall, call_words, line_fault_status, SplitsIntoWords};
ghost use Rattle.agent_cli.specs.declared.lines.LineFault.TheVariants.{Words};
ghost use Rattle.agent_cli.specs.declared.order.WordFault.TheVariants as fault;

use crate::{Order, WordFault, order_of};
use custody_machine::{ExitStatus, Failure};
use std::alloc::{AllocError, Global};
use std::fmt;
use std::io::{self, ErrorKind, Read};

/// How many bytes a line may have.
const LONGEST_LINE: usize = 65_536;

/// Why a line is no order. It is written as it is printed, with its last line feed.
#[derive(Debug, Drop)]
pub enum LineFault {
    /// It has more than 65,536 bytes.
    TooLong,
    /// It is no text.
    NoText,
    /// It asks for a batch or a server, which is a whole call.
    WholeCall,
    /// Its words are no order, or there is no memory to read them.
    Words(WordFault),
}

impl LineFault {
    /// The exit status of a batch that ends at the line: 2, or 3 for want of memory.
    pub fn status(&self) -> u8
        ensures { result ≡ line_fault_status self.now }
    {
        let status = match self {
            LineFault::Words(WordFault::NoMemory) => Failure::NoMemory.code().status,
            _ => ExitStatus::Misused,
        };
        status.number()
    }
}

impl fmt::Display for LineFault {
    fn fmt<W: fmt::Write>(&self, f: &mut fmt::Formatter<W>) -> fmt::Result {
        match self {
            LineFault::TooLong => f.write_str("error: a line has more than 65536 bytes\n"),
            LineFault::NoText => f.write_str("error: a line is no text\n"),
            LineFault::WholeCall => f.write_str("error: batch and serve are no lines of a batch\n"),
            LineFault::Words(fault) => write!(f, "{fault}"),
        }
    }
}

impl From<WordFault> for LineFault {
    ghost from_gives = { λ fault e. e ≡ Words fault };

    fn from(fault: WordFault) -> LineFault {
        LineFault::Words(fault)
    }
}

impl From<AllocError> for LineFault {
    ghost from_gives = { λ _ e. e ≡ Words fault.NoMemory };

    fn from(_error: AllocError) -> LineFault {
        LineFault::Words(WordFault::NoMemory)
    }
}

/// Reads the next byte, where there is one.
fn next_byte<R: Read>(input: &mut R) -> io::Result<Option<u8>>
    ensures { MatchResult result (λ found. MatchOption found (Keeps (R.remaining input.old) (R.remaining input.new) × IsAtEnd (R.remaining input.new)) (λ byte. Consumes (R.remaining input.old) (R.remaining input.new) (byte ∷ []))) (λ _. Keeps (R.remaining input.old) (R.remaining input.new)) }
{
    let mut byte = [0];
    let count = input.read(&mut byte)?;
    if count == 0 {
        Ok(None)
    } else {
        Ok(Some(byte[0]))
    }
}

/// Reads the next line, without its line feed, where there is one. Of a line that is too long it reads
/// only so much that this shows.
pub fn next_line<R: Read>(alloc: Global, input: &mut R) -> io::Result<Option<Vec<u8>>>
    ensures { IfOk result (λ found. ReadsLine (R.remaining input.old) (option_map (λ line. line.items) found) (R.remaining input.new)) }
{
    let mut line = Vec::new(alloc);
    for _ in 0..u64::MAX {
        if line.len() > LONGEST_LINE {
            return Ok(Some(line));
        }
        match next_byte(input) {
            Ok(None) if line.is_empty() => return Ok(None),
            Ok(None) => return Ok(Some(line)),
            Ok(Some(byte)) if byte == b'\n' => return Ok(Some(line)),
            Ok(Some(byte)) => line.push(byte)?,
            Err(error) if error.kind() == ErrorKind::Interrupted => {}
            Err(error) => return Err(error),
        }
    }
    Err(io::Error::from(ErrorKind::Interrupted))
}

/// The words of the call that a line gives: the folder is put behind the first of its own.
pub fn line_words(alloc: Global, folder: &str, line: &[u8]) -> Result<Vec<String>, LineFault>
    ensures { MatchResult result (λ words. GivesCall folder.now line.now (map string_bytes words.items)) (IsNoOrder folder.now line.now) }
{
    if line.len() > LONGEST_LINE {
        return Err(LineFault::TooLong);
    }
    match str::from_utf8(line) {
        Ok(text) => Ok(call_words(alloc, folder, text)?),
        Err(_) => Err(LineFault::NoText),
    }
}

fn call_words(alloc: Global, folder: &str, text: &str) -> Result<Vec<String>, AllocError>
    ensures { IfOk result (λ words. (own : _) × SplitsIntoWords text.now own × (map string_bytes words.items ≡ call_words folder.now own)) }
{
    let mut words = Vec::new(alloc);
    words.push(String::from_str(alloc, "escrow")?)?;
    for word in text.split_whitespace() {
        words.push(String::from_str(alloc, word)?)?;
        if words.len() == 2 {
            words.push(String::from_str(alloc, folder)?)?;
        }
    }
    Ok(words)
}

/// What the words of a line ask for.
pub fn order_in_batch<'a>(alloc: Global, words: &'a [String]) -> Result<Order<'a>, LineFault>
    ensures { MatchResult result (AskInBatch (map string_bytes words.now)) (AskNoOrder (map string_bytes words.now)) }
{
    let order = order_of(alloc, words)?;
    if order.deed.is_whole_call() {
        return Err(LineFault::WholeCall);
    }
    Ok(order)
}
