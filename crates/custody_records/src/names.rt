//! The names of a release as lines of text.
ghost use Rattle.std.specs.Prelude.{◌≡◌, ◌==◌, count_by, length, IfOk, MatchResult, OnOk, OnErr, IsTrue, [], ◌∷◌, ◌++◌};
ghost use Rattle.std.specs.List.{list_all};
ghost use Rattle.deposit_name.specs.Name.{IsName, name_text};
ghost use Rattle.custody_records.specs.Form.{lines_in};
ghost use Rattle.custody_records.specs.Lines.{lines_left};
ghost use Rattle.custody_records.specs.RowsOfRecords.{is_line, text_of_lines};
ghost use Rattle.custody_records.specs.declared.errors.RowError.TheVariants.{OutOfForm};

use crate::RowError;
use crate::lines::Lines;
use deposit_name::{DepositName, append, write_name};
use std::alloc::{AllocError, Global};
use std::marker::Model;

/// The names of the parts of a release, kept as the text that a row has of them, so that a row is written without taking
/// memory: each name is followed by a line feed, and there is none within it.
#[derive(Debug, Drop)]
pub struct Names {
    text: Vec<u8>,
}

impl Model for Names {
    ghost use Rattle.std.specs.Prelude.{◌≡◌, ℕ, List};
    ghost use Rattle.custody_records.specs.Names.{lines_of};
    ghost use Rattle.custody_records.specs.RowsOfRecords.{text_of_lines};

    ghost Value = { List (List ℕ) };

    ghost view = { λ n. lines_of n.text.items };

    ghost invariant = { λ n. n.text.items ≡ text_of_lines (lines_of n.text.items) };
}

impl PartialEq for Names {
    ghost use Rattle.std.proofs.Common.{rules};
    ghost use Rattle.std.specs.Cmp.Rules.{comparing};
    ghost use Rattle.std.specs.Ordering.{on};
    ghost use Rattle.std.specs.Str.{bytes_eq};
    ghost use Rattle.custody_records.specs.RowsOfRecords.{text_of_lines};

    ghost eq = { on text_of_lines bytes_eq };

    ghost laws = { Prim.search (comparing, rules) };

    fn eq(&self, other: &Names) -> bool {
        self.text == other.text
    }
}

impl Names {
    /// No names yet.
    pub fn new(alloc: Global) -> Names
        ensures { result ≡ [] }
    {
        Names {
            text: Vec::new(alloc),
        }
    }

    /// The names of a text, in which each is followed by a line feed.
    pub fn parse(alloc: Global, text: &[u8]) -> Result<Names, RowError>
        ensures { MatchResult result (λ names. lines_in text.now ≡ Some names) (λ e. e ≡ OutOfForm → lines_in text.now ≡ None) }
    {
        let Some((last, _)) = text.split_last() else {
            return Ok(Names::new(alloc));
        };
        if *last != b'\n' {
            return Err(RowError::OutOfForm);
        }
        Ok(Names {
            text: Vec::from_slice(alloc, text)?,
        })
    }

    /// Adds a name.
    pub fn push(&mut self, name: &DepositName) -> Result<(), AllocError>
        ensures added { OnOk result (self.new ≡ self.old ++ name_text name.now ∷ []) }
        ensures same { OnErr result (self.new ≡ self.old) }
        ensures in_form { IsName name.now }
    {
        let mut line = write_name(name);
        append(&mut line, b"\n");
        self.text.extend_from_slice(&line)?;
        Ok(())
    }

    /// The same names again.
    pub fn try_clone(&self, alloc: Global) -> Result<Names, AllocError>
        ensures { IfOk result (λ names. names ≡ self.now) }
    {
        Ok(Names {
            text: Vec::from_slice(alloc, &self.text)?,
        })
    }

    /// How many they are.
    pub fn count(&self) -> usize
        ensures { result ≡ length self.now }
    {
        count_feeds(&self.text)
    }

    /// The names in their order.
    pub fn lines(&self) -> Lines<'_>
        ensures { lines_left result ≡ self.now }
    {
        Lines::of(&self.text)
    }

    /// The text of the names, in which each is followed by a line feed.
    pub fn as_text(&self) -> &[u8]
        ensures text { result.now ≡ text_of_lines self.now }
        ensures lines { IsTrue (list_all is_line self.now) }
    {
        &self.text
    }
}

fn count_feeds(text: &[u8]) -> usize
    ensures { result ≡ count_by (λ byte. byte == 10) text.now }
{
    text.iter().filter(|byte| **byte == b'\n').count()
}
