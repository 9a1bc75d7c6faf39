//! What a node received of a client's log.
ghost use Rattle.std.specs.Prelude.{◌≡◌, ◌≢◌, ◌⊎◌, ◌+◌, ◌^◌, ◌<◌, ◌≤◌, ◌++◌, IfErr, IfOk, IfSome, IsOk, IsOkUnless, List, Option, Some, None, OnErr, OnOk, false, is_some, length, take, true, option_map, ℕ};
ghost use Rattle.assise_record.specs.Records.{all_effects};
ghost use Rattle.assise_inode_table.specs.Contents.{InodeMap};
ghost use Rattle.assise_inode_table.specs.Effects.{all_applied};
ghost use Rattle.assise_inode_table.specs.Whole.{CanBeMadeWhole};
ghost use Rattle.assise_names.specs.declared.refusal.Refusal.TheVariants.{LogFull, OutOfMemory};
ghost use Rattle.assise_record.specs.Groups.{AllHaveEffects};
ghost use Rattle.assise_private_log.specs.NumberedLog.{HasOpenGroup, IsNumberedLog, end, is_border, records_from};
ghost use Rattle.assise_digest.specs.Region.{AreWhole, IsBegun, IsNextGroup, ahead, ahead_below, digested_further, from_number, regrouped_from, next_effects, up_to_number, with_one};
ghost use Rattle.assise_record.specs.declared.effect.Effect.{Effect as EffectValue};
ghost use Rattle.assise_digest.specs.Pending.{HasAllNumbers, KeepsNoMore, Lays, forgotten, noted_from};
ghost use Rattle.assise_digest.specs.Invariant.{IsKeptFor, LogInvariant, seen_log};

use crate::pending::Pending;
use assise_area::area::Area;
use assise_names::refusal::Refusal;
use assise_private_log::log::Log;
use assise_record::effect::Effect;
use assise_record::record::Record;
use std::alloc::{AllocError, Global};

/// What a node received of a client's log.
#[derive(Debug, Drop)]
pub(crate) struct Received {
    pub(crate) log: Log,
    /// The number of the first record that isn't in the area.
    pub(crate) digested: u64,
    /// Where the client lives on this node, what its records make that aren't digested.
    pub(crate) pending: Option<Pending>,
}

impl Received {
    /// Takes the effects of the next record into what is kept for a client that lives here.
    fn keep(&mut self, alloc: Global, area: &Area, added: &Record) -> Result<(), Refusal>
        requires sound { LogInvariant area.now.inodes self.old }
        requires whole { CanBeMadeWhole added.now.effects }
        ensures log { self.new.log ≡ self.old.log }
        ensures digested { self.new.digested ≡ self.old.digested }
        ensures at_home { is_some self.new.pending ≡ is_some self.old.pending }
        ensures kept { OnOk result (IsKeptFor area.now.inodes
            (seen_log self.old) added.now self.new.pending) }
        ensures err { OnErr result (self.new ≡ self.old) }
        ensures only_memory { IfErr result (λ e. (e ≡ OutOfMemory) ×
            (is_some self.old.pending ≡ true)) }
    {
        let number = self.log.end();
        match &mut self.pending {
            Some(pending) => pending.take_in(alloc, area, number, added.effects()),
            None => Ok(()),
        }
    }

    /// Takes a record in, behind the last: it begins a group, or is one more of the last one. It is refused with
    /// [`Refusal::LogFull`] exactly where there is no room, and else with [`Refusal::OutOfMemory`], for a client that lives
    /// here alone. What is refused leaves all as it was, and comes back.
    pub(crate) fn append(
        &mut self,
        alloc: Global,
        area: &Area,
        added: Record,
        begins: bool,
    ) -> Result<(), (Refusal, Record)>
        requires sound { LogInvariant area.now.inodes self.old }
        requires open_group { begins ≡ false → HasOpenGroup self.old.log }
        requires number_fits { end self.old.log + 1 < 2 ^ 64 }
        requires whole { CanBeMadeWhole added.effects }
        ensures sound { LogInvariant area.now.inodes self.new }
        ensures ok { OnOk result (seen_log self.new ≡ with_one (seen_log self.old) added begins) }
        ensures err { OnErr result (self.new ≡ self.old) }
        ensures given_back { IfErr result (λ back. back.1 ≡ added) }
        ensures room { IsOk result → length self.old.log.records < self.old.log.limit }
        ensures refused { IfErr result (λ back.
            ((back.0 ≡ LogFull) × (length self.old.log.records ≡ self.old.log.limit)) ⊎
            ((back.0 ≡ OutOfMemory) × (length self.old.log.records < self.old.log.limit) ×
            (is_some self.old.pending ≡ true))) }
    {
        if self.log.spare() == 0 {
            return Err((Refusal::LogFull, added));
        }
        if let Err(refusal) = self.keep(alloc, area, &added) {
            return Err((refusal, added));
        }
        self.log.append_grouped(added, begins)
    }

    /// Lets go of what the next record is the last to touch.
    fn forget_next(&mut self)
        requires begun { IsBegun (seen_log self.old) }
        requires more { self.old.digested < end self.old.log }
        ensures log { self.new.log ≡ self.old.log }
        ensures digested { self.new.digested ≡ self.old.digested }
        ensures pending { self.new.pending ≡ option_map
            (λ p. forgotten p self.old.digested (next_effects (seen_log self.old)))
            self.old.pending }
    {
        let Some(next) = self.log.get(self.digested) else {
            return;
        };
        if let Some(pending) = &mut self.pending {
            pending.forget(self.digested, next.effects());
        }
    }

    /// Counts the next record as digested: what it is the last to touch is read from the area from now on.
    pub(crate) fn count_digested(&mut self)
        requires begun { IsBegun (seen_log self.old) }
        requires more { self.old.digested < end self.old.log }
        ensures seen { seen_log self.new ≡ digested_further (seen_log self.old) 1 }
        ensures sound { (m : InodeMap) → LogInvariant m self.old →
            LogInvariant (all_applied m (next_effects (seen_log self.old))) self.new }
    {
        prove!(self.digested < self.log.end());
        self.forget_next();
        self.digested += 1;
    }

    /// Counts the next `count` records as digested.
    pub(crate) fn count_all_digested(&mut self, count: usize)
        requires begun { IsBegun (seen_log self.old) }
        requires there { count ≤ length (ahead (seen_log self.old)) }
        ensures seen { seen_log self.new ≡ digested_further (seen_log self.old) count }
        ensures sound { (m : InodeMap) → LogInvariant m self.old →
            LogInvariant (all_applied m (all_effects (take count (ahead (seen_log self.old)))))
            self.new }
    {
        let mut done = 0;
        while done < count {
            self.count_digested();
            done += 1;
        }
    }

    /// Whether `count` records are all that aren't digested of a client that lives here, and there are some.
    pub(crate) fn are_all_ahead(&self, count: usize) -> bool
        requires begun { IsBegun (seen_log self.now) }
        ensures at_home { result ≡ true → is_some self.now.pending ≡ true }
        ensures some { result ≡ true → 0 < count }
        ensures all { result ≡ true → count ≡ length (ahead (seen_log self.now)) }
        ensures border { result ≡ true →
            is_border self.now.log (self.now.digested + count) ≡ true }
    {
        self.pending.is_some() && count > 0 && self.log.end() - self.digested == count as u64
    }

    /// Counts all records as digested, of a client that lives here: what they make moves into the area. Without memory it
    /// leaves all as it was.
    pub(crate) fn settle(&mut self, alloc: Global, area: &mut Area) -> Result<(), AllocError>
        requires at_home { is_some self.old.pending ≡ true }
        requires sound { LogInvariant area.old.inodes self.old }
        ensures moved { OnOk result (area.new.inodes ≡
            all_applied area.old.inodes (all_effects (ahead (seen_log self.old)))) }
        ensures capacity { area.new.capacity ≡ area.old.capacity }
        ensures seen { OnOk result (seen_log self.new ≡
            digested_further (seen_log self.old) (length (ahead (seen_log self.old)))) }
        ensures sound { OnOk result (LogInvariant area.new.inodes self.new) }
        ensures err { OnErr result (self.new ≡ self.old) }
        ensures err_area { OnErr result (area.new ≡ area.old) }
    {
        let Some(pending) = &mut self.pending else {
            unreachable!()
        };
        pending.settle(alloc, area)?;
        self.digested = self.log.end();
        Ok(())
    }

    /// Equal effects of the next `count` records. The bytes of writes are shared.
    pub(crate) fn effects_ahead(
        &self,
        alloc: Global,
        count: usize,
    ) -> Result<Vec<Effect>, AllocError>
        requires begun { IsBegun (seen_log self.now) }
        requires there { count ≤ length (ahead (seen_log self.now)) }
        ensures effects { IfOk result (λ effects. effects.items ≡
            all_effects (take count (ahead (seen_log self.now)))) }
    {
        let mut effects = Vec::new(alloc);
        for record in self.log.since(self.digested).take(count) {
            push_copies(&mut effects, record.effects())?;
        }
        Ok(effects)
    }

    /// How many records the next group has, or what is left of it.
    pub(crate) fn next_group(&self) -> usize
        requires begun { IsBegun (seen_log self.now) }
        requires more { self.now.digested < end self.now.log }
        ensures { IsNextGroup (seen_log self.now) result }
    {
        prove!(self.digested < self.log.end());
        (self.log.group_end(self.digested + 1) - self.digested) as usize
    }

    /// Lets the records below a number go, all of which are digested.
    pub(crate) fn drop_front(&mut self, to: u64)
        requires begun { IsBegun (seen_log self.old) }
        requires from_first { self.old.log.first ≤ to }
        requires digested { to ≤ self.old.digested }
        ensures seen { seen_log self.new ≡ from_number (seen_log self.old) to }
        ensures sound { (m : InodeMap) → LogInvariant m self.old → LogInvariant m self.new }
    {
        self.log.drop_front(to);
    }

    /// Lets the records from a number on go, none of which are digested, of a client that lives on another node.
    pub(crate) fn cut_tail(&mut self, from: u64)
        requires begun { IsBegun (seen_log self.old) }
        requires elsewhere { is_some self.old.pending ≡ false }
        requires digested { self.old.digested ≤ from }
        ensures seen { seen_log self.new ≡ up_to_number (seen_log self.old) from }
        ensures sound { (m : InodeMap) → LogInvariant m self.old → LogInvariant m self.new }
    {
        self.log.cut_tail(from);
    }

    /// Cuts the records from a number on into groups, and lets what is overridden in them go (see [`Log::regroup`]). What is
    /// kept for a client that lives here stays, with the new numbers. The one refusal is [`Refusal::OutOfMemory`], and it
    /// leaves all as it was.
    pub(crate) fn coalesce(&mut self, alloc: Global, from: u64) -> Result<(), Refusal>
        requires sound { (m : InodeMap) × LogInvariant m self.old }
        requires digested { self.old.digested ≤ from }
        requires to_end { from ≤ end self.old.log }
        ensures seen { OnOk result (seen_log self.new ≡ regrouped_from (seen_log self.old) from) }
        ensures effects { OnOk result (AllHaveEffects (records_from self.old.log from)) }
        ensures lawful { IsNumberedLog self.old.log }
        ensures sound { (m : InodeMap) → LogInvariant m self.old → LogInvariant m self.new }
        ensures err { OnErr result (self.new ≡ self.old) }
        ensures only_memory { IsOkUnless result OutOfMemory }
    {
        self.log.regroup(alloc, from)?;
        self.note_from(from);
        Ok(())
    }

    /// Notes the records from a number on as the last that touch their inodes, where the client lives here.
    fn note_from(&mut self, from: u64)
        requires there { IfSome self.old.pending
            (λ p. HasAllNumbers p.last (all_effects (records_from self.old.log from))) }
        ensures log { self.new.log ≡ self.old.log }
        ensures digested { self.new.digested ≡ self.old.digested }
        ensures pending { self.new.pending ≡ option_map
            (λ p. noted_from p from (records_from self.old.log from)) self.old.pending }
    {
        if let Some(pending) = &mut self.pending {
            pending.note_all(from, self.log.since(from));
        }
    }

    /// Takes in what the records make that aren't digested, of those numbered below what is replicated. Where memory
    /// runs out, some of it may be taken in.
    pub(crate) fn lay(
        &self,
        alloc: Global,
        area: &Area,
        acked: u64,
        pending: &mut Pending,
    ) -> Result<(), Refusal>
        requires begun { IsBegun (seen_log self.now) }
        requires whole { AreWhole self.now.log.records }
        requires no_more { KeepsNoMore pending.old }
        ensures no_more { OnOk result (KeepsNoMore pending.new) }
        ensures lays { (es : List EffectValue) → Lays pending.old area.now.inodes es →
            OnOk result (Lays pending.new area.now.inodes
            (es ++ all_effects (ahead_below (seen_log self.now) acked))) }
        ensures only_memory { IsOkUnless result OutOfMemory }
    {
        let to = acked.clamp(self.digested, self.log.end());
        for number in self.digested..to {
            let Some(record) = self.log.get(number) else {
                unreachable!()
            };
            pending.make(alloc, area, 0, record.effects())?;
        }
        Ok(())
    }
}

/// Adds equal effects. Where memory runs out, some of them may be added.
fn push_copies(effects: &mut Vec<Effect>, added: &[Effect]) -> Result<(), AllocError>
    ensures ok { OnOk result (effects.new.items ≡ effects.old.items ++ added.now) }
{
    for effect in added {
        effects.push(effect.copy()?)?;
    }
    Ok(())
}
