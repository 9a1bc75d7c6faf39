//! A log of numbered records.
ghost use Rattle.std.specs.Prelude.{◌≡◌, ◌+◌, ◌<◌, ◌≤◌, ◌==◌, ◌^◌, ◌↔◌, false, IfErr, IfOk, IsOk, IsOkUnless, OnErr, OnOk, length, option_copied};
ghost use Rattle.std.specs.Map.Iter.{ShowsInOrder, ShowsInReverse, deref};
ghost use Rattle.assise_names.specs.declared.refusal.Refusal.TheVariants.{LogFull, OutOfMemory};
ghost use Rattle.assise_record.specs.Groups.{AllHaveEffects};
ghost use Rattle.assise_private_log.specs.Borders.{group_end, whole_count};
ghost use Rattle.assise_private_log.specs.Groups.{groups_from, regrouped, with_group};
ghost use Rattle.assise_private_log.specs.NumberedLog.{HasOpenGroup, IsNumberedLog, empty_log, end, is_border, nearest, record_at, records_from, with_grouped, with_record, without_prefix, without_tail};
ghost use Rattle.assise_private_log.specs.Touches.{UntouchedFrom, touches_after};

use crate::group::{Group, MOST_GROUPED};
use crate::log_view::LogView;
use crate::records::Records;
use assise_names::refusal::Refusal;
use assise_record::record::Record;
use circular_buffer::HeapCircularBuffer;
use std::alloc::{AllocError, Global};
use std::marker::Model;

/// The fewest records that a log's limit may be.
pub const LEAST_LIMIT: usize = 8;

/// The most records that a log's limit may be.
pub const MOST_LIMIT: usize = 4096;

/// The records of one client, numbered without a gap, at most as many as a limit of 8 to 4,096. Their numbers are below
/// 2^64 - 1. Room for as many records as the limit is taken when the log is made, and never again. A contract sees the
/// first number, the limit and the list of records.
#[derive(Debug, Drop)]
pub struct Log {
    view: LogView,
}

impl Model for Log {
    ghost use Rattle.assise_private_log.specs.NumberedLog.{NumberedLog};

    ghost Value = { NumberedLog };

    ghost view = { λ l. l.view };
}

impl Log {
    /// A log without records, whose first number is 0, with room for `limit`. The one refusal is
    /// [`Refusal::OutOfMemory`].
    pub fn new(alloc: Global, limit: usize) -> Result<Log, Refusal>
        requires least { 8 ≤ limit }
        requires most { limit ≤ 4096 }
        ensures empty { IfOk result (λ log. log ≡ empty_log limit) }
        ensures only_memory { IsOkUnless result OutOfMemory }
    {
        let records = HeapCircularBuffer::with_capacity(alloc, limit)?;
        let begins = HeapCircularBuffer::with_capacity(alloc, limit)?;
        let view = LogView {
            first: 0,
            records,
            begins,
        };
        Ok(Log { view })
    }

    /// The number of the first record, or that of the next one where there are none.
    pub fn first(&self) -> u64
        ensures { result ≡ self.now.first }
    {
        self.view.first()
    }

    /// The number behind the last record, which the next one gets.
    pub fn end(&self) -> u64
        ensures end { result ≡ end self.now }
        ensures fits { end self.now < 2 ^ 64 }
        ensures lawful { IsNumberedLog self.now }
    {
        self.view.end()
    }

    /// How many records there are.
    pub fn len(&self) -> usize
        ensures len { result ≡ length self.now.records }
        ensures within { length self.now.records ≤ self.now.limit }
    {
        self.view.records.len()
    }

    /// Whether there are no records.
    pub fn is_empty(&self) -> bool
        ensures { result ≡ (length self.now.records == 0) }
    {
        self.view.records.is_empty()
    }

    /// The most records that there may be, which is what [`Log::new`] was given.
    pub fn limit(&self) -> usize
        ensures limit { result ≡ self.now.limit }
        ensures lawful { IsNumberedLog self.now }
    {
        self.view.records.capacity()
    }

    /// How many records more there is room for.
    pub fn spare(&self) -> usize
        ensures { result + length self.now.records ≡ self.now.limit }
    {
        self.limit() - self.len()
    }

    /// What a revoker sees of the log.
    pub fn view(&self) -> &LogView
        ensures { result.now ≡ self.now }
    {
        &self.view
    }

    /// The record of a number, if it is there.
    pub fn get(&self, number: u64) -> Option<&Record>
        ensures { option_copied result ≡ record_at self.now number }
    {
        self.view.get(number)
    }

    /// The records from a number on, in the order of their numbers: all, where the number lies before the first, and
    /// none, where it lies behind the last. They are lent, and those before the number are not looked at.
    pub fn since(&self, from: u64) -> Records<'_>
        ensures rest { result ≡ records_from self.now from }
        ensures runs { ShowsInOrder (deref {X = Record}) }
        ensures runs_back { ShowsInReverse (deref {X = Record}) }
        ensures lawful { IsNumberedLog self.now }
    {
        self.view.since(from)
    }

    /// Whether a record of this number or a greater one touches an inode.
    #[tactic(auto, using(crate::proofs::TouchedNumbers::untouched_exactly))]
    pub fn touches_after(&self, inode: u64, from: u64) -> bool
        ensures exact { result ≡ touches_after self.now inode from }
        ensures untouched { (result ≡ false) ↔ UntouchedFrom self.now inode from }
    {
        self.view.touches_after(inode, from)
    }

    /// Whether no group has records on both sides of a number: one begins there, or nothing is before it, or nothing
    /// behind.
    pub fn is_border(&self, number: u64) -> bool
        ensures border { result ≡ is_border self.now number }
        ensures lawful { IsNumberedLog self.now }
    {
        self.view.is_border(number)
    }

    /// The least border from a number on.
    pub fn group_end(&self, number: u64) -> u64
        ensures { result ≡ group_end self.now number }
    {
        self.view.group_end(number)
    }

    /// How many records from a number on, at most `most`, end with a group. Among 64 some do.
    pub fn whole_count(&self, from: u64, most: usize) -> usize
        requires fits { from + most < 2 ^ 64 }
        ensures count { result ≡ whole_count self.now from most }
        ensures within { result ≤ most }
        ensures some { 64 ≤ most → 0 < result }
    {
        self.view.whole_count(from, most)
    }

    /// Takes a record in, behind the last, as a group by itself. The one refusal is [`Refusal::LogFull`], where there are as
    /// many records as the limit: it leaves the log as it was, and gives the record back. It takes no memory.
    pub fn append(&mut self, added: Record) -> Result<(), (Refusal, Record)>
        requires number_fits { end self.old + 1 < 2 ^ 64 }
        ensures ok { OnOk result (self.new ≡ with_record self.old added) }
        ensures err { OnErr result (self.new ≡ self.old) }
        ensures given_back { IfErr result (λ back. back ≡ (LogFull, added)) }
        ensures room { IsOk result ↔ (length self.old.records < self.old.limit) }
    {
        self.append_grouped(added, true)
    }

    /// Takes a record in, behind the last: it begins a group, or is one more of the last one, which has fewer than 64
    /// records then. Refusals are those of [`Log::append`]. It takes no memory.
    pub fn append_grouped(&mut self, added: Record, begins: bool) -> Result<(), (Refusal, Record)>
        requires number_fits { end self.old + 1 < 2 ^ 64 }
        requires open_group { begins ≡ false → HasOpenGroup self.old }
        ensures ok { OnOk result (self.new ≡ with_grouped self.old added begins) }
        ensures err { OnErr result (self.new ≡ self.old) }
        ensures given_back { IfErr result (λ back. back ≡ (LogFull, added)) }
        ensures room { IsOk result ↔ (length self.old.records < self.old.limit) }
    {
        match self.view.records.try_push_back(added) {
            Ok(()) => {
                let Ok(()) = self.view.begins.try_push_back(begins) else {
                    unreachable!()
                };
                Ok(())
            }
            Err(added) => Err((Refusal::LogFull, added)),
        }
    }

    /// Lets the records below a number go: none, where it lies before the first, and all, where it lies behind the last. The
    /// number is the first one then, or as near to it as a number of the log is. What is left of a group is one.
    pub fn drop_front(&mut self, to: u64)
        ensures { self.new ≡ without_prefix self.old (nearest self.old to) }
    {
        let to = to.clamp(self.first(), self.end());
        let dropped = (to - self.view.first) as usize;
        let kept = self.len() - dropped;
        self.view.records.truncate_front(kept);
        self.view.begins.truncate_front(kept);
        self.view.first = to;
    }

    /// Lets the record of a number and all behind it go. Where there are none, nothing changes. What is left of a group is
    /// one.
    pub fn cut_tail(&mut self, from: u64)
        ensures { self.new ≡ without_tail self.old from }
    {
        let kept = from.saturating_sub(self.view.first) as usize;
        self.view.records.truncate_back(kept);
        self.view.begins.truncate_back(kept);
    }

    /// Cuts the records from a number on into groups of 64, the last with the rest, and lets the effects go that later ones
    /// of the same group override. Records without effects go with them, and the rest are numbered on from the number; the
    /// first of a group gets the call that the group began with. The one refusal is [`Refusal::OutOfMemory`], and it leaves
    /// the log as it was.
    pub fn regroup(&mut self, alloc: Global, from: u64) -> Result<(), Refusal>
        ensures ok { OnOk result (self.new ≡ regrouped self.old from) }
        ensures effects { OnOk result (AllHaveEffects (records_from self.old from)) }
        ensures lawful { IsNumberedLog self.old }
        ensures err { OnErr result (self.new ≡ self.old) }
        ensures only_memory { IsOkUnless result OutOfMemory }
    {
        let groups = self.groups_from(alloc, from)?;
        self.cut_tail(from);
        for group in groups {
            self.append_group(group);
        }
        Ok(())
    }

    /// The groups that the records from a number on are cut into, without what is overridden in them.
    fn groups_from(&self, alloc: Global, from: u64) -> Result<Vec<Group>, Refusal>
        ensures groups { IfOk result (λ groups. groups.items ≡ groups_from self.now from) }
        ensures effects { OnOk result (AllHaveEffects (records_from self.now from)) }
        ensures lawful { IsNumberedLog self.now }
        ensures only_memory { IsOkUnless result OutOfMemory }
    {
        let tail = self.copies_from(alloc, from)?;
        let mut groups = Vec::new(alloc);
        let mut rest = tail.as_slice();
        while !rest.is_empty() {
            let (group, behind) = rest.split_at(rest.len().min(MOST_GROUPED));
            groups.push(Group::coalesced(alloc, group)?)?;
            rest = behind;
        }
        Ok(groups)
    }

    /// Equal records, of those from a number on.
    fn copies_from(&self, alloc: Global, from: u64) -> Result<Vec<Record>, Refusal>
        ensures equal { IfOk result (λ copied. copied.items ≡ records_from self.now from) }
        ensures lawful { IsNumberedLog self.now }
        ensures only_memory { IsOkUnless result OutOfMemory }
    {
        let mut copied = Vec::new(alloc);
        for record in self.since(from) {
            copied.push(record.copy(alloc)?)?;
        }
        Ok(copied)
    }

    /// Takes a group in, behind the last. It takes no memory.
    fn append_group(&mut self, group: Group)
        requires numbers_fit { end self.old + length group < 2 ^ 64 }
        requires room { length self.old.records + length group ≤ self.old.limit }
        ensures { self.new ≡ with_group self.old group }
    {
        let first = self.end();
        for record in group.records {
            let begins = self.end() == first;
            let Ok(()) = self.append_grouped(record, begins) else {
                unreachable!()
            };
        }
    }

    /// An equal value with as much room and the same groups, or [`Refusal::OutOfMemory`]. The bytes of writes are shared.
    pub fn copy(&self, alloc: Global) -> Result<Log, Refusal>
        ensures equal { IfOk result (λ copied. copied ≡ self.now) }
        ensures only_memory { IsOkUnless result OutOfMemory }
    {
        let records = copies(alloc, &self.view.records)?;
        let begins = copied_marks(alloc, &self.view.begins)?;
        let view = LogView {
            first: self.view.first,
            records,
            begins,
        };
        Ok(Log { view })
    }
}

/// Equal records in a ring of the same capacity.
fn copies(
    alloc: Global,
    records: &HeapCircularBuffer<Record>,
) -> Result<HeapCircularBuffer<Record>, Refusal>
    ensures equal { IfOk result (λ copied. copied ≡ records.now) }
    ensures only_memory { IsOkUnless result OutOfMemory }
{
    let mut copied = HeapCircularBuffer::with_capacity(alloc, records.capacity())?;
    for record in records {
        let Ok(()) = copied.try_push_back(record.copy(alloc)?) else {
            unreachable!()
        };
    }
    Ok(copied)
}

/// Equal marks in a ring of the same capacity.
fn copied_marks(
    alloc: Global,
    marks: &HeapCircularBuffer<bool>,
) -> Result<HeapCircularBuffer<bool>, AllocError>
    ensures equal { IfOk result (λ copied. copied ≡ marks.now) }
{
    let mut copied = HeapCircularBuffer::with_capacity(alloc, marks.capacity())?;
    for mark in marks {
        let Ok(()) = copied.try_push_back(*mark) else {
            unreachable!()
        };
    }
    Ok(copied)
}
