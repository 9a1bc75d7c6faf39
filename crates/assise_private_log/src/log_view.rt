//! A log as it is lent: its numbers, and which records touch an inode.
ghost use Rattle.std.specs.Prelude.{◌≡◌, ◌+◌, ◌<◌, ◌≤◌, ◌^◌, false, true, IfSome, length, option_copied, ℕ};
ghost use Rattle.std.specs.List.{slice_index_or};
ghost use Rattle.std.specs.Map.Iter.{ShowsInOrder, ShowsInReverse, deref};
ghost use Rattle.assise_record.specs.LogRecord.{LogRecord};
ghost use Rattle.assise_private_log.specs.Borders.{group_end, whole_count};
ghost use Rattle.assise_private_log.specs.NumberedLog.{IsNumberedLog, end, is_border, record_at, records_from};
ghost use Rattle.assise_private_log.specs.Touches.{Covers, IsLastTouch, record_touches, touches, touches_after};

use crate::records::Records;
use assise_record::record::Record;
use circular_buffer::HeapCircularBuffer;
use std::marker::Model;

/// What a log shows to whom it is lent: the numbers of its records, and which of them touch an inode. A contract sees
/// the whole log.
#[derive(Debug)]
pub struct LogView {
    pub(crate) first: u64,
    pub(crate) records: HeapCircularBuffer<Record>,
    // of each record, whether a group begins with it
    pub(crate) begins: HeapCircularBuffer<bool>,
}

// One call lets go of it, wherever it is owned.
impl Drop for LogView {
    fn drop(self) {
        let LogView {
            first: _,
            records: _,
            begins: _,
        } = self;
    }
}

impl Model for LogView {
    ghost use Rattle.std.specs.Prelude.{◌≡◌};
    ghost use Rattle.assise_private_log.specs.NumberedLog.{NumberedLog, IsNumberedLog};

    ghost Value = { NumberedLog };

    ghost view = { λ v. record { first = v.first; limit = v.records.capacity; records = v.records.items; begins = v.begins.items } };

    ghost invariant = { λ v. IsNumberedLog (record { first = v.first; limit = v.records.capacity; records = v.records.items; begins = v.begins.items }) × (v.begins.capacity ≡ v.records.capacity) };
}

impl LogView {
    /// The number of the first record, or that of the next one where there are none.
    pub fn first(&self) -> u64
        ensures first { result ≡ self.now.first }
        ensures lawful { IsNumberedLog self.now }
    {
        self.first
    }

    /// The number behind the last record, which the next one gets.
    pub fn end(&self) -> u64
        ensures end { result ≡ end self.now }
        ensures fits { end self.now < 2 ^ 64 }
        ensures lawful { IsNumberedLog self.now }
    {
        self.first + self.records.len() as u64
    }

    /// Whether no group has records on both sides of a number: one begins there, or nothing is before it, or nothing
    /// behind.
    pub fn is_border(&self, number: u64) -> bool
        ensures border { result ≡ is_border self.now number }
        ensures lawful { IsNumberedLog self.now }
    {
        if number <= self.first {
            return true;
        }
        match self.begins.get((number - self.first) as usize) {
            Some(begins) => *begins,
            None => true,
        }
    }

    /// The least border from a number on. A cut that is raised to it is one too.
    pub fn group_end(&self, number: u64) -> u64
        ensures end { result ≡ group_end self.now number }
        ensures covers { (inode : ℕ) →
            Covers self.now inode number → Covers self.now inode (group_end self.now number) }
    {
        let end = self.end();
        for border in number..end {
            if self.is_border(border) {
                return border;
            }
        }
        number.max(end)
    }

    /// How many records from a number on, at most `most`, end with a group. Among 64 some do.
    pub fn whole_count(&self, from: u64, most: usize) -> usize
        requires fits { from + most < 2 ^ 64 }
        ensures count { result ≡ whole_count self.now from most }
        ensures within { result ≤ most }
        ensures some { 64 ≤ most → 0 < result }
    {
        let mut count = most;
        while 0 < count && !self.is_border(from + count as u64) {
            count -= 1;
        }
        count
    }

    /// Whether the record of a number touches an inode. Where there is none of that number, none does.
    pub fn touches(&self, number: u64, inode: u64) -> bool
        ensures touches { result ≡ touches self.now number inode }
        ensures within { result ≡ true → (self.now.first ≤ number) × (number < end self.now) }
    {
        match self.get(number) {
            Some(record) => record_touches(record, inode),
            None => false,
        }
    }

    /// The greatest number of a record that touches an inode, if one does. It looks from the last record on backwards,
    /// and no further than to that record.
    pub fn last_touch(&self, inode: u64) -> Option<u64>
        ensures last { IsLastTouch self.now inode result }
        ensures within { IfSome result (λ number. (self.now.first ≤ number) ×
            (number < end self.now)) }
        ensures lawful { IsNumberedLog self.now }
    {
        let place = self.last_place(inode)?;
        Some(self.first + place as u64)
    }

    /// How many records stand before the last that touches an inode, if one does.
    fn last_place(&self, inode: u64) -> Option<usize>
        ensures inside { IfSome result (λ place. place < length self.now.records) }
        ensures found { IfSome result (λ place. (r : LogRecord) →
            record_touches (slice_index_or self.now.records place r) inode ≡ true) }
        ensures none_behind { IfSome result (λ place. (k : ℕ) (r : LogRecord) → place < k →
            k < length self.now.records → record_touches
            (slice_index_or self.now.records k r) inode ≡ false) }
        ensures none { result ≡ None → (k : ℕ) (r : LogRecord) → k < length self.now.records →
            record_touches (slice_index_or self.now.records k r) inode ≡ false }
        ensures lawful { IsNumberedLog self.now }
    {
        let mut records = self.since(self.first);
        let place = records.rposition(|record| record_touches(record, inode))?;
        Some(place)
    }

    /// The record of a number, if it is there.
    pub(crate) fn get(&self, number: u64) -> Option<&Record>
        ensures { option_copied result ≡ record_at self.now number }
    {
        if number < self.first {
            return None;
        }
        self.records.get((number - self.first) as usize)
    }

    /// The records from a number on.
    pub(crate) fn since(&self, from: u64) -> Records<'_>
        ensures rest { result ≡ records_from self.now from }
        ensures runs { ShowsInOrder (deref {X = Record}) }
        ensures runs_back { ShowsInReverse (deref {X = Record}) }
        ensures lawful { IsNumberedLog self.now }
    {
        let passed = (from.saturating_sub(self.first) as usize).min(self.records.len());
        let (older, newer) = self.records.as_slices();
        Records::behind(older, newer, passed)
    }

    /// Whether a record of this number or a greater one touches an inode.
    pub(crate) fn touches_after(&self, inode: u64, from: u64) -> bool
        ensures { result ≡ touches_after self.now inode from }
    {
        self.since(from).any(|record| record_touches(record, inode))
    }
}

/// Whether an effect of a record touches an inode.
pub(crate) fn record_touches(of: &Record, inode: u64) -> bool
    ensures { result ≡ record_touches of.now inode }
{
    of.effects().iter().any(|effect| effect.touches() == inode)
}
