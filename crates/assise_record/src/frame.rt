//! Records as they are sent.
ghost use Rattle.std.specs.Prelude.{◌≡◌, ◌+◌, ◌-◌, ◌<◌, ◌≤◌, [], IfOk, IsOkUnless, get_or, length, true};
ghost use Rattle.assise_names.specs.declared.refusal.Refusal.TheVariants.{OutOfMemory};
ghost use Rattle.assise_record.specs.LogFrame.{HasRanges};

use crate::record::Record;
use assise_names::refusal::Refusal;
use std::alloc::Global;
use std::marker::Model;

/// The most records of a frame.
pub const MOST_RECORDS: usize = 64;

/// The version of frames without marks.
pub(crate) const PLAIN_VERSION: u8 = 1;

/// The version of frames whose records have marks. There is none newer.
pub const MARKED_VERSION: u8 = 2;

/// Records of one client, in order and without a gap: 1 to 64 of them. The number behind the last is below 2^64. In
/// version 2 each has a mark, whether it is the last of its group, and the last record is; in version 1 there are no marks.
#[derive(Debug)]
pub struct Frame {
    epoch: u64,
    client: u32,
    first: u64,
    records: Vec<Record>,
    marks: Option<Vec<bool>>,
}

// One call lets go of it, wherever it is owned.
impl Drop for Frame {
    fn drop(self) {
        let Frame {
            epoch: _,
            client: _,
            first: _,
            records: _,
            marks: _,
        } = self;
    }
}

impl Model for Frame {
    ghost use Rattle.assise_record.specs.LogFrame.{LogFrame, HasRanges, version_of, marks_of};

    ghost Value = { LogFrame };

    ghost view = { λ f. record { version = version_of f.marks; epoch = f.epoch; client = f.client; first = f.first; records = f.records.items; last = marks_of f.marks } };

    ghost invariant = { λ f. HasRanges (record { version = version_of f.marks; epoch = f.epoch; client = f.client; first = f.first; records = f.records.items; last = marks_of f.marks }) };
}

impl Frame {
    /// The records of a client from a number on, as they are sent in an epoch, without marks: a frame of version 1.
    pub fn new(epoch: u64, client: u32, first: u64, records: Vec<Record>) -> Frame
        requires a_client { 0 < client }
        requires some_records { 0 < length records.items }
        requires few_records { length records.items ≤ 64 }
        requires numbers_fit { first + length records.items ≤ 18446744073709551615 }
        ensures { result ≡ record {
          version = 1;
          epoch = epoch;
          client = client;
          first = first;
          records = records.items;
          last = [];
        } }
    {
        Frame {
            epoch,
            client,
            first,
            records,
            marks: None,
        }
    }

    /// The records with a mark for each, whether it is the last of its group: a frame of version 2.
    pub fn with_marks(
        epoch: u64,
        client: u32,
        first: u64,
        records: Vec<Record>,
        last: Vec<bool>,
    ) -> Frame
        requires a_client { 0 < client }
        requires some_records { 0 < length records.items }
        requires few_records { length records.items ≤ 64 }
        requires numbers_fit { first + length records.items ≤ 18446744073709551615 }
        requires one_each { length last.items ≡ length records.items }
        requires whole_groups { get_or last.items (length records.items - 1) true ≡ true }
        ensures { result ≡ record {
          version = 2;
          epoch = epoch;
          client = client;
          first = first;
          records = records.items;
          last = last.items;
        } }
    {
        Frame {
            epoch,
            client,
            first,
            records,
            marks: Some(last),
        }
    }

    /// The version: 2 where the records have marks, else 1.
    pub fn version(&self) -> u8
        ensures version { result ≡ self.now.version }
        ensures ranges { HasRanges self.now }
    {
        match &self.marks {
            Some(_) => MARKED_VERSION,
            None => PLAIN_VERSION,
        }
    }

    /// The epoch in which it is sent.
    pub fn epoch(&self) -> u64
        ensures { result ≡ self.now.epoch }
    {
        self.epoch
    }

    /// The client whose records they are, not 0.
    pub fn client(&self) -> u32
        ensures client { result ≡ self.now.client }
        ensures ranges { HasRanges self.now }
    {
        self.client
    }

    /// The number of the first record.
    pub fn first(&self) -> u64
        ensures first { result ≡ self.now.first }
        ensures ranges { HasRanges self.now }
    {
        self.first
    }

    /// The records, in order.
    pub fn records(&self) -> &[Record]
        ensures records { result.now ≡ self.now.records }
        ensures ranges { HasRanges self.now }
    {
        self.records.as_slice()
    }

    /// Of each record, whether it is the last of its group: nothing in version 1.
    pub fn last(&self) -> &[bool]
        ensures last { result.now ≡ self.now.last }
        ensures ranges { HasRanges self.now }
    {
        match &self.marks {
            Some(last) => last.as_slice(),
            None => &[],
        }
    }

    /// The records, in order, in place of the frame.
    pub fn into_records(self) -> Vec<Record>
        ensures records { result.items ≡ self.records }
        ensures ranges { HasRanges self }
    {
        let Frame {
            epoch: _,
            client: _,
            first: _,
            records,
            marks: _,
        } = self;
        records
    }

    /// An equal value, or [`Refusal::OutOfMemory`]. The bytes of writes are shared.
    pub fn copy(&self, alloc: Global) -> Result<Frame, Refusal>
        ensures equal { IfOk result (λ copied. copied ≡ self.now) }
        ensures only_memory { IsOkUnless result OutOfMemory }
    {
        let records = copies(alloc, &self.records)?;
        match &self.marks {
            Some(last) => {
                let last = last.clone()?;
                Ok(Frame::with_marks(self.epoch, self.client, self.first, records, last))
            }
            None => Ok(Frame::new(self.epoch, self.client, self.first, records)),
        }
    }
}

/// Equal records, in order.
fn copies(alloc: Global, records: &[Record]) -> Result<Vec<Record>, Refusal>
    ensures equal { IfOk result (λ copied. copied.items ≡ records.now) }
    ensures only_memory { IsOkUnless result OutOfMemory }
{
    let mut copied = Vec::with_capacity(alloc, records.len())?;
    for record in records {
        copied.push(record.copy(alloc)?)?;
    }
    Ok(copied)
}
