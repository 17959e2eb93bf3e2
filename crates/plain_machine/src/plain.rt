//! The machine over whole byte strings.
ghost use Rattle.std.specs.Prelude.{◌≡◌, ◌≤◌, ◌-◌, ◌&&◌, ◌||◌, ◌==◌, not, if◌then◌else◌, nat_lt, ℕ, List, Ok, Some, IfOk, OnErr, find, option_map, length, count_by, is_some, is_none};
ghost use Rattle.std.specs.List.{list_any};
ghost use Rattle.deposit_name.specs.Name.{is_same_kind};
ghost use Rattle.desk.specs.Standing.{is_receipt};
ghost use Rattle.custody_records.specs.Records.{key_of};
ghost use Rattle.plain_machine.specs.DistinctPlaces.{is_at_key};
ghost use Rattle.plain_machine.specs.Plain.{state_view, part_view, content_view, IsPlainStep, is_registry_of};
ghost use Rattle.custody_machine.specs.Commands.{command_of};
ghost use Rattle.custody_machine.specs.NameReading.{read_name};
ghost use Rattle.custody_machine.specs.State.{empty, key_with_part, has_notice, part_numbers};
ghost use Rattle.custody_machine.specs.Machine.{Register, Receive, step, first_day_of, part_under_name, revision_part, has_other_kind, are_bytes_dropped, is_held_with_other, has_other_bytes, is_dropped, max_part_len, is_day_outside, is_outside, is_tld_unregistered, is_unregistered, is_out_of_range, is_failure_of, is_revision_not_due, is_stated, is_new_beside_other_kind, is_out_of_order, receive_tests, first_refusal};

use crate::holds::PlainHolds;
use crate::notices::PlainNotices;
use crate::sought_name::SoughtName;
use crate::state::{PlainAnswer, PlainContent, PlainPart, PlainRegistry, PlainState};
use custody_machine::{Command, Refusal};
use deposit_name::{DepositName, Kind, Tld};
use schedule::{Day, Sec};
use std::alloc::{AllocError, Global};

impl PlainContent {
    pub(crate) fn is_dropped(&self) -> bool
        ensures { result ≡ are_bytes_dropped (content_view self.now) }
    {
        match self {
            PlainContent::Held(_) => false,
            PlainContent::Dropped(_) => true,
        }
    }

    fn is_held_with_other(&self, bytes: &[u8]) -> bool
        ensures { result ≡ is_held_with_other bytes.now (content_view self.now) }
    {
        match self {
            PlainContent::Held(kept) => kept.as_slice() != bytes,
            PlainContent::Dropped(_) => false,
        }
    }
}

impl PlainPart {
    fn is_at(&self, name: &SoughtName, place: u8) -> bool
        ensures { result ≡ is_at_key (key_with_part (key_of name.now) place) self.now }
    {
        self.name.tld.as_bytes() == name.tld.as_bytes()
            && self.name.day == name.day
            && self.name.rev == name.rev
            && self.name.part == place
    }

    fn is_of_kind(&self, kind: Kind) -> bool
        ensures { result ≡ is_same_kind self.now.name.kind kind }
    {
        self.name.kind == kind
    }
}

impl PlainState {
    /// Nothing is kept yet.
    pub fn new(alloc: Global) -> PlainState
        ensures { state_view result ≡ empty }
    {
        PlainState {
            registries: Vec::new(alloc),
            parts: Vec::new(alloc),
            notices: PlainNotices::new(alloc),
            releases: Vec::new(alloc),
            holds: PlainHolds::new(alloc),
        }
    }

    fn find_registry(&self, tld: &Tld) -> Option<Day>
        ensures { result ≡ option_map (λ r. r.first_day) (find (is_registry_of tld.now) self.now.registries.items) }
    {
        self.registries
            .iter()
            .find(|r| r.tld.as_bytes() == tld.as_bytes())
            .map(|r| r.first_day)
    }

    pub(crate) fn find_part(&self, name: &SoughtName, place: u8) -> Option<&PlainPart>
        ensures { option_map (λ p. p.now) result ≡ find (is_at_key (key_with_part (key_of name.now) place)) self.now.parts.items }
    {
        self.parts.iter().find(|p| p.is_at(name, place))
    }

    fn first_day(&self, tld: &Tld) -> Option<Day>
        ensures { result ≡ first_day_of (state_view self.now) tld.now }
    {
        self.find_registry(tld)
    }

    pub(crate) fn part_at(&self, name: &SoughtName, place: u8) -> Option<&PlainPart>
        ensures { option_map (λ p. part_view p.now) result ≡ revision_part (state_view self.now) name.now place }
    {
        self.find_part(name, place)
    }

    pub(crate) fn part_under_name(&self, name: &SoughtName) -> Option<&PlainPart>
        ensures { option_map (λ p. part_view p.now) result ≡ part_under_name (state_view self.now) name.now }
    {
        match self.part_at(name, name.part) {
            Some(part) if part.is_of_kind(name.kind) => Some(part),
            _ => None,
        }
    }

    pub(crate) fn has_part(&self, name: &SoughtName, place: u8) -> bool
        ensures { result ≡ is_some (revision_part (state_view self.now) name.now place) }
    {
        self.part_at(name, place).is_some()
    }

    pub(crate) fn has_other_kind(&self, name: &SoughtName, place: u8) -> bool
        ensures { result ≡ has_other_kind name.now.kind (revision_part (state_view self.now) name.now place) }
    {
        match self.part_at(name, place) {
            Some(part) => !part.is_of_kind(name.kind),
            None => false,
        }
    }

    pub(crate) fn has_any_other_kind(&self, name: &SoughtName) -> bool
        ensures { result ≡ list_any (λ place. has_other_kind name.now.kind (revision_part (state_view self.now) name.now place)) part_numbers }
    {
        self.has_other_kind(name, 1)
            || self.has_other_kind(name, 2)
            || self.has_other_kind(name, 3)
            || self.has_other_kind(name, 4)
            || self.has_other_kind(name, 5)
            || self.has_other_kind(name, 6)
            || self.has_other_kind(name, 7)
            || self.has_other_kind(name, 8)
    }

    fn part_count_at(&self, name: &SoughtName, place: u8) -> u8
        ensures value { result ≡ (if is_some (revision_part (state_view self.now) name.now place) then 1 else 0) }
        ensures small { result ≤ 1 }
    {
        if self.has_part(name, place) { 1 } else { 0 }
    }

    pub(crate) fn count_parts(&self, name: &SoughtName) -> u8
        ensures value { result ≡ count_by (λ place. is_some (revision_part (state_view self.now) name.now place)) part_numbers }
        ensures small { result ≤ 8 }
    {
        self.part_count_at(name, 1)
            + self.part_count_at(name, 2)
            + self.part_count_at(name, 3)
            + self.part_count_at(name, 4)
            + self.part_count_at(name, 5)
            + self.part_count_at(name, 6)
            + self.part_count_at(name, 7)
            + self.part_count_at(name, 8)
    }

    fn is_unrecorded_name(&self, name: &SoughtName) -> bool
        ensures { result ≡ is_none (part_under_name (state_view self.now) name.now) }
    {
        self.part_under_name(name).is_none()
    }

    pub(crate) fn is_tld_unregistered(&self, tld: &Tld) -> bool
        ensures { result ≡ is_tld_unregistered (state_view self.now) tld.now }
    {
        self.first_day(tld).is_none()
    }

    pub(crate) fn is_unregistered(&self, name: &SoughtName) -> bool
        ensures { result ≡ is_unregistered (state_view self.now) name.now }
    {
        self.is_tld_unregistered(&name.tld)
    }

    fn has_other_bytes(&self, name: &SoughtName, bytes: &[u8]) -> bool
        ensures { result ≡ has_other_bytes bytes.now (part_under_name (state_view self.now) name.now) }
    {
        match self.part_under_name(name) {
            Some(part) => part.content.is_held_with_other(bytes),
            None => false,
        }
    }

    fn is_dropped(&self, name: &SoughtName) -> bool
        ensures { result ≡ is_dropped (part_under_name (state_view self.now) name.now) }
    {
        match self.part_under_name(name) {
            Some(part) => part.content.is_dropped(),
            None => false,
        }
    }

    pub(crate) fn is_day_outside(&self, tld: &Tld, day: Day, now: Sec) -> bool
        ensures { result ≡ is_day_outside (state_view self.now) tld.now day now }
    {
        let too_early = match self.first_day(tld) {
            Some(first_day) => day.number() < first_day.number(),
            None => false,
        };
        too_early || now.day().number() < day.number()
    }

    pub(crate) fn is_outside(&self, name: &SoughtName, now: Sec) -> bool
        ensures { result ≡ is_outside (state_view self.now) name.now now }
    {
        self.is_day_outside(&name.tld, name.day, now)
    }

    fn is_out_of_range(&self, name: &SoughtName, now: Sec) -> bool
        ensures { result ≡ is_out_of_range (state_view self.now) name.now now }
    {
        self.is_unrecorded_name(name) && self.is_outside(name, now)
    }

    // The day has a receipt, or the revision before has no failure.
    fn is_early(&self, name: &SoughtName) -> bool
        ensures { result ≡ (has_notice (state_view self.now).notices name.now.tld name.now.day is_receipt || (nat_lt 0 name.now.rev && not (has_notice (state_view self.now).notices name.now.tld name.now.day (is_failure_of (name.now.rev - 1))))) }
    {
        self.notices.has_receipt(&name.tld, name.day)
            || name.rev > 0 && !self.notices.has_failure(&name.tld, name.day, name.rev - 1)
    }

    fn is_revision_not_due(&self, name: &SoughtName) -> bool
        ensures { result ≡ is_revision_not_due (state_view self.now) name.now }
    {
        self.is_unrecorded_name(name) && self.is_early(name)
    }

    fn is_stated(&self, name: &SoughtName) -> bool
        ensures { result ≡ is_stated (state_view self.now) name.now }
    {
        self.is_unrecorded_name(name) && self.notices.has_verdict(&name.tld, name.day, name.rev)
    }

    fn differs_in_type(&self, name: &SoughtName) -> bool
        ensures { result ≡ is_new_beside_other_kind (state_view self.now) name.now }
    {
        self.is_unrecorded_name(name) && self.has_any_other_kind(name)
    }

    fn is_out_of_order(&self, name: &SoughtName) -> bool
        ensures { result ≡ is_out_of_order (state_view self.now) name.now }
    {
        self.is_unrecorded_name(name) && self.count_parts(name) + 1 != name.part
    }

    // The refusals of a part under a name, in their order.
    fn refusal_of(&self, name: &SoughtName, bytes: &[u8], now: Sec) -> Option<Refusal>
        ensures { result ≡ first_refusal (receive_tests (state_view self.now) name.now bytes.now now) }
    {
        if self.is_unregistered(name) {
            return Some(Refusal::RegistryUnknown);
        }
        if self.is_out_of_range(name, now) {
            return Some(Refusal::DateOutOfRange);
        }
        if is_out_of_size(bytes) {
            return Some(Refusal::Size);
        }
        if self.has_other_bytes(name, bytes) {
            return Some(Refusal::OtherBytes);
        }
        if self.is_dropped(name) {
            return Some(Refusal::DroppedAfterKeeping);
        }
        if self.is_revision_not_due(name) {
            return Some(Refusal::RevisionNotDue);
        }
        if self.is_stated(name) {
            return Some(Refusal::AlreadyStated);
        }
        if self.differs_in_type(name) {
            return Some(Refusal::TypeDiffers);
        }
        if self.is_out_of_order(name) {
            return Some(Refusal::PartOutOfOrder);
        }
        None
    }

    fn find_refusal(&self, name: &DepositName, bytes: &[u8], now: Sec) -> Option<Refusal>
        ensures { result ≡ first_refusal (receive_tests (state_view self.now) name.now bytes.now now) }
    {
        self.refusal_of(&SoughtName::of(name), bytes, now)
    }

    fn find_recorded(&self, name: &DepositName) -> Option<&PlainPart>
        ensures { option_map (λ p. part_view p.now) result ≡ part_under_name (state_view self.now) name.now }
    {
        self.part_under_name(&SoughtName::of(name))
    }

    fn register(&mut self, tld: Tld, first_day: Day) -> Result<PlainAnswer, AllocError>
        ensures step { (now : ℕ) → IfOk result (λ answer. IsPlainStep answer (state_view self.old) (state_view self.new) (step (state_view self.old) (Register tld first_day) now)) }
        ensures err { OnErr result (state_view self.new ≡ state_view self.old) }
    {
        match self.first_day(&tld) {
            Some(kept) => Ok(registry_answer(tld, kept, true)),
            None => {
                self.registries.push(PlainRegistry { tld, first_day })?;
                Ok(registry_answer(tld, first_day, false))
            }
        }
    }

    fn receive(
        &mut self,
        alloc: Global,
        text: &[u8],
        bytes: &[u8],
        now: Sec,
    ) -> Result<PlainAnswer, AllocError>
        ensures step { IfOk result (λ answer. IsPlainStep answer (state_view self.old) (state_view self.new) (step (state_view self.old) (Receive text.now bytes.now) now)) }
        ensures err { OnErr result (state_view self.new ≡ state_view self.old) }
    {
        match DepositName::parse(text) {
            Ok(name) => self.receive_part(alloc, &name, bytes, now),
            Err(fault) => Ok(PlainAnswer::Refused(Refusal::NameRefused(fault))),
        }
    }

    fn receive_part(
        &mut self,
        alloc: Global,
        name: &DepositName,
        bytes: &[u8],
        now: Sec,
    ) -> Result<PlainAnswer, AllocError>
        requires { (text : List ℕ) × (read_name text ≡ Ok name.now) }
        ensures step { (text : List ℕ) → read_name text ≡ Ok name.now → IfOk result (λ answer. IsPlainStep answer (state_view self.old) (state_view self.new) (step (state_view self.old) (Receive text bytes.now) now)) }
        ensures err { OnErr result (state_view self.new ≡ state_view self.old) }
    {
        match self.find_refusal(name, bytes, now) {
            Some(refusal) => Ok(PlainAnswer::Refused(refusal)),
            None => match self.find_recorded(name) {
                Some(part) => Ok(part_answer(name, part.received, bytes.len(), true)),
                None => {
                    let copy = Vec::from_slice(alloc, bytes)?;
                    self.parts.push(PlainPart {
                        name: *name,
                        received: now,
                        content: PlainContent::Held(copy),
                    })?;
                    Ok(part_answer(name, now, bytes.len(), false))
                }
            },
        }
    }
}

/// Does a command, as the machine has it. `Err`: memory was refused, and nothing has changed.
pub fn step_plain(
    state: &mut PlainState,
    alloc: Global,
    command: &Command<'_>,
    now: Sec,
) -> Result<PlainAnswer, AllocError>
    ensures step { IfOk result (λ answer. IsPlainStep answer (state_view state.old) (state_view state.new) (step (state_view state.old) (command_of command.now) now)) }
    ensures err { OnErr result (state_view state.new ≡ state_view state.old) }
{
    match command {
        Command::Register(tld, first_day) => state.register(*tld, *first_day),
        Command::Receive(name, bytes) => state.receive(alloc, name, bytes, now),
        Command::Statement(stated) => state.receive_statement(alloc, stated, now),
        Command::Check(tld, day) => state.receive_check(tld, *day, now),
        Command::Release(reference, tld, reason) => {
            state.release(alloc, *reference, *tld, *reason, now)
        }
        Command::Hold(reference, tld, day) => state.hold(*reference, *tld, *day, now),
        Command::Lift(reference) => Ok(state.lift(*reference, now)),
        Command::Purge => Ok(state.purge(now)),
    }
}

fn registry_answer(tld: Tld, first_day: Day, is_repeat: bool) -> PlainAnswer
    ensures { result ≡ PlainAnswer.Registry tld first_day is_repeat }
{
    PlainAnswer::Registry {
        tld,
        first_day,
        is_repeat,
    }
}

fn part_answer(name: &DepositName, received: Sec, len: usize, is_repeat: bool) -> PlainAnswer
    ensures { result ≡ PlainAnswer.Part name.now received len is_repeat }
{
    PlainAnswer::Part {
        name: *name,
        received,
        len,
        is_repeat,
    }
}

fn is_out_of_size(bytes: &[u8]) -> bool
    ensures { result ≡ (length bytes.now == 0 || nat_lt max_part_len (length bytes.now)) }
{
    bytes.is_empty() || bytes.len() > 1_048_576
}
