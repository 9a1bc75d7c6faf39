//! The records of a log, one after another.
ghost use Rattle.std.specs.Prelude.{◌≡◌, IfSome, length};
ghost use Rattle.std.specs.Iterator.{UpTo, at_most};
ghost use Rattle.std.specs.Iterator.SizeHint.{IsWithinCount};
ghost use Rattle.std.specs.Map.Iter.{TakesFirst, TakesLast, deref};

use assise_record::record::Record;
use std::iter::FusedIterator;
use std::marker::Model;

/// Records of a log in the order of their numbers, which it lends. It takes no memory. A contract sees the list of
/// those that are left.
#[derive(Drop)]
pub struct Records<'a> {
    older: &'a [Record],
    newer: &'a [Record],
}

impl<'a> Model for Records<'a> {
    ghost use Rattle.std.specs.Prelude.{◌+◌, ◌^◌, ◌<◌, List, ◌++◌, length};
    ghost use Rattle.assise_record.specs.LogRecord.{LogRecord};

    ghost Value = { List LogRecord };

    ghost view = { λ r. r.older.now ++ r.newer.now };

    ghost invariant = { λ r. length r.older.now + length r.newer.now < 2 ^ 63 };
}

impl<'a> Records<'a> {
    ghost use Rattle.std.specs.Prelude.{◌≡◌, ◌+◌, ◌<◌, ◌^◌, ◌++◌, drop, length};

    /// What is left of two runs of records, without the first ones.
    pub(crate) fn behind(older: &'a [Record], newer: &'a [Record], passed: usize) -> Records<'a>
        requires fits { length older.now + length newer.now < 2 ^ 63 }
        ensures { result ≡ drop passed (older.now ++ newer.now) }
    {
        let of_older = passed.min(older.len());
        let of_newer = (passed - of_older).min(newer.len());
        let (_, older) = older.split_at(of_older);
        let (_, newer) = newer.split_at(of_newer);
        Records { older, newer }
    }
}

impl<'a> Iterator for Records<'a> {
    type Item = &'a Record;

    ghost next_gives = { TakesFirst deref };

    ghost remaining = { λ s. at_most (length s) };

    fn next(&mut self) -> Option<&'a Record> {
        let older = self.older;
        if let Some((first, rest)) = older.split_first() {
            self.older = rest;
            return Some(first);
        }
        let (first, rest) = self.newer.split_first()?;
        self.newer = rest;
        Some(first)
    }

    fn size_hint(&self) -> (usize, Option<usize>)
        ensures lower { IsWithinCount result.0 (at_most (length self.now)) }
        ensures upper { IfSome result.1 (UpTo (at_most (length self.now))) }
        ensures exact { result ≡ (length self.now, Some (length self.now)) }
    {
        let len = self.len();
        (len, Some(len))
    }
}

impl<'a> DoubleEndedIterator for Records<'a> {
    ghost next_back_gives = { TakesLast deref };

    fn next_back(&mut self) -> Option<&'a Record> {
        let newer = self.newer;
        if let Some((last, rest)) = newer.split_last() {
            self.newer = rest;
            return Some(last);
        }
        let (last, rest) = self.older.split_last()?;
        self.older = rest;
        Some(last)
    }
}

impl<'a> ExactSizeIterator for Records<'a> {
    fn len(&self) -> usize {
        self.older.len() + self.newer.len()
    }
}

impl<'a> FusedIterator for Records<'a> {}
