//! Why a deposit fails the checks of counts and of references.
use deposit_name::TableName;
use desk::Check;
use envelope::Count;

/// Check 11: the first of the counted objects whose count is not the number of the rows of its table (of a full deposit)
/// or of its keys after the deposit (of any other).
#[derive(Clone, Copy, Debug, PartialEq, Eq)]
pub struct WrongCount {
    /// The place of the object among those that are counted, from 0.
    pub place: usize,
    /// What the header counts.
    pub said: u32,
    /// How many there are.
    pub there: usize,
}

impl WrongCount {
    ghost use Rattle.std.specs.Prelude.{◌≡◌, MatchOption, length};
    ghost use Rattle.deposit_verify.specs.TablesReasons.{IsFirstWrong, said_counts};

    /// The first count that is not the number that is there, of the counted tables.
    pub(crate) fn first(counts: &[Count], there: [usize; 4]) -> Option<WrongCount>
        requires { length counts.now ≡ 4 }
        ensures { MatchOption result (said_counts counts.now ≡ there) (IsFirstWrong there (said_counts counts.now)) }
    {
        for i in 0..4 {
            let said = counts[i].count;
            if said as usize != there[i] {
                return Some(WrongCount {
                    place: i,
                    said,
                    there: there[i],
                });
            }
        }
        None
    }
}

/// Check 12: the first field, by table in the order of a deposit, then by row, then by column, that names a key which
/// is not there.
#[derive(Debug, PartialEq, Eq, Drop)]
pub struct NoKey {
    pub table: TableName,
    /// The row, from 0.
    pub row: usize,
    /// The column, from 0.
    pub column: usize,
    /// The table that has no such key.
    pub of: TableName,
    pub key: Vec<u8>,
}

/// Why a deposit fails the checks of counts and of references.
#[derive(Debug, PartialEq, Eq, Drop)]
pub enum TablesReason {
    /// Check 11.
    Count(WrongCount),
    /// Check 12.
    Reference(NoKey),
}

impl TablesReason {
    ghost use Rattle.std.specs.Prelude.{◌≡◌};
    ghost use Rattle.deposit_verify.specs.TablesReasons.{tables_check};

    /// The check that fails.
    pub fn check(&self) -> Check
        ensures { result ≡ tables_check self.now }
    {
        match self {
            TablesReason::Count(_) => Check::Counts,
            TablesReason::Reference(_) => Check::References,
        }
    }
}
