//! What holds of every verdict.
ghost use Rattle.std.specs.Prelude.{◌≡◌, ◌↔◌, ℕ, List};
ghost use Rattle.desk.specs.declared.checks.Check.{Check};
ghost use Rattle.deposit_verify.specs.Checks.{IsVerdict, PassesCheck};
ghost use Rattle.deposit_verify.specs.Known.{Known};
ghost use Rattle.deposit_verify.specs.Bases.{AreBases};
ghost use Rattle.deposit_verify.specs.Chain.{AreChainKeys};
ghost use Rattle.deposit_verify.specs.Numbers.{AreChainNumbers};
ghost use Rattle.deposit_verify.specs.TablesReasons.{AreRulesOfReferences};
ghost use Rattle.deposit_verify.specs.Verdict.{IsLawful, verdict};
ghost use Rattle.deposit_verify.specs.Reasons.{IsReason, reason_check};
ghost use Rattle.deposit_verify.specs.declared.reason.Reason.{Reason};
ghost use Rattle.deposit_verify.specs.inside.Reading.{OneReading};
ghost use Rattle.dnrd_csv.specs.Readers.{IsTableReader};
ghost use Rattle.envelope.specs.Readers.{AreReaders};
ghost use Rattle.deposit_verify.specs.declared.verdict.Verdict.{Verdict};
ghost use Rattle.deposit_verify.specs.declared.verdict.Verdict.TheVariants.{Pass, Fail};

use dnrd_csv::{law_one_text, law_table_reader};
use envelope::{law_one_reading, law_readers};

/// Deposits are read in one way.
pub(crate) fn law_reading()
    ensures one { OneReading }
    ensures readers { AreReaders }
    ensures tables { IsTableReader }
{
    law_one_reading();
    law_readers();
    law_table_reader();
}

/// No deposit has two verdicts.
pub fn law_one_verdict()
    ensures { (joined : List ℕ) (k : Known) (v w : Verdict) → IsVerdict joined k v → IsVerdict joined k w → v ≡ w }
{}

/// The verdict as a function of a deposit's bytes and of what is known of it: it is the least check that fails, or a
/// pass where none does, and no deposit has another one.
pub fn law_verdict()
    ensures { IsLawful }
{
    law_reading();
    law_one_text();
}

/// A deposit has the verdict of a pass exactly if it passes each check.
pub fn law_pass()
    ensures { (joined : List ℕ) (known : Known) → (verdict joined known ≡ Pass) ↔ ((c : Check) → PassesCheck joined known c) }
{
    law_verdict();
}

/// Why a deposit fails: one that has a reason has that verdict.
pub fn law_reasons()
    ensures { (joined : List ℕ) (k : Known) (reason : Reason) → IsReason joined k reason → verdict joined k ≡ Fail (reason_check reason) }
{
    law_verdict();
}

/// The keys of a chain of deposits: those of a chain of one, and how each deposit changes them.
pub fn law_chains()
    ensures { AreChainKeys }
{}

/// The keys of a chain as a function of its deposits' bytes: there are keys just where the deposits are a chain, and
/// they are its keys.
pub fn law_bases()
    ensures { AreBases }
{
    law_reading();
}

/// How many keys a chain has: as many as the rows of a full deposit, and as before after one that names none. And what
/// the check of counts says of a deposit behind a chain: they are the numbers of the keys of the chain that ends with it.
pub fn law_chain_numbers()
    ensures { AreChainNumbers }
{
    law_reading();
}

/// The rules of references, one for each column that names keys, say what the check of references says.
pub fn law_reference_rules()
    ensures { AreRulesOfReferences }
{}
