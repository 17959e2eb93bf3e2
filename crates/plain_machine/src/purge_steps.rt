//! What is done of a purge.
ghost use Rattle.std.specs.Prelude.{◌≡◌, count_by, map};
ghost use Rattle.custody_records.specs.Records.{key_of};
ghost use Rattle.custody_machine.specs.Machine.{Purge, content_len, is_due_part, step};
ghost use Rattle.plain_machine.specs.Plain.{IsPlainStep, content_view, entry_after_purge, holds_view, plain_part_entry, part_view, state_view};
ghost use Rattle.plain_machine.specs.declared.state.PlainPart.{PlainPart};

use crate::holds::PlainHolds;
use crate::state::{PlainAnswer, PlainContent, PlainPart, PlainState};
use schedule::{Day, Sec, keep_until};

impl PlainContent {
    /// How many bytes it has, or had.
    fn len(&self) -> usize
        ensures { result ≡ content_len (content_view self.now) }
    {
        match self {
            PlainContent::Held(bytes) => bytes.len(),
            PlainContent::Dropped(len) => *len,
        }
    }
}

impl PlainPart {
    // Its bytes are held, the last day of their keeping is before today, and its day is not on
    // hold.
    fn is_due_part(&self, holds: &PlainHolds, today: Day) -> bool
        ensures { result ≡ is_due_part (holds_view holds.now) today (key_of self.now.name) (part_view self.now) }
    {
        !self.content.is_dropped()
            && keep_until(self.received.day()) < today.number()
            && !holds.hold(self)
    }

    fn drop_if_due(&mut self, holds: &PlainHolds, today: Day)
        ensures { plain_part_entry self.new ≡ entry_after_purge (holds_view holds.now) today (plain_part_entry self.old) }
    {
        if self.is_due_part(holds, today) {
            self.content = PlainContent::Dropped(self.content.len());
        }
    }
}

fn drop_due(parts: &mut Vec<PlainPart>, holds: &PlainHolds, today: Day)
    ensures { map plain_part_entry parts.new.items ≡ map (entry_after_purge (holds_view holds.now) today) (map plain_part_entry parts.old.items) }
{
    for part in parts.iter_mut() {
        part.drop_if_due(holds, today);
    }
}

fn count_due(parts: &[PlainPart], holds: &PlainHolds, today: Day) -> usize
    ensures { result ≡ count_by (λ (p : PlainPart). is_due_part (holds_view holds.now) today (key_of p.name) (part_view p)) parts.now }
{
    parts.iter().filter(|p| p.is_due_part(holds, today)).count()
}

impl PlainState {
    /// Drops the bytes that were kept for a year, but for those of a day that is on hold.
    pub(crate) fn purge(&mut self, now: Sec) -> PlainAnswer
        ensures { IsPlainStep result (state_view self.old) (state_view self.new) (step (state_view self.old) Purge now) }
    {
        let today = now.day();
        let count = count_due(&self.parts, &self.holds, today);
        drop_due(&mut self.parts, &self.holds, today);
        PlainAnswer::Purge { count }
    }
}
