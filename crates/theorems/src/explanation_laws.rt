//! That the check of a failure is found again, whatever commands came after it.
ghost use Rattle.std.specs.Prelude.{List};
ghost use Rattle.custody_machine.specs.State.{empty};
ghost use Rattle.custody_machine.specs.Machine.{TimedCommand, after};
ghost use Rattle.theorems.specs.Explained.{IsFoundAgain, IsOfOneStatement, IsToldUnlessDropped};

/// After any commands from the empty state, each failure tells of one statement and one check; and
/// where its parts and those of the deposits that it follows are held, the verdict on the bytes that
/// are held, by the notices before its own, is that check again. So an explanation that tells no reason
/// is right that a deposit which the failed one follows was dropped.
pub fn law_explained()
    ensures stated { (commands : List TimedCommand) → IsOfOneStatement (after empty commands) }
    ensures again { (commands : List TimedCommand) → IsFoundAgain (after empty commands) }
    ensures told { (commands : List TimedCommand) → IsToldUnlessDropped (after empty commands) }
{}
