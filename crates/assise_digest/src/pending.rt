//! What a client's own records make, before they are digested.
ghost use Rattle.std.specs.Prelude.{◌≡◌, ◌+◌, ◌<◌, ◌^◌, length, IfOk, IsOkUnless, OnErr, OnOk, None, cond, is_some, nat_eq, option_copied, ℕ};
ghost use Rattle.std.specs.List.{list_any};
ghost use Rattle.assise_record.specs.Records.{all_effects};
ghost use Rattle.std.specs.FinMap as map;
ghost use Rattle.assise_inode_table.specs.Effects.{all_applied, with_value};
ghost use Rattle.assise_inode_table.specs.Whole.{CanBeMadeWhole};
ghost use Rattle.assise_names.specs.declared.refusal.Refusal.TheVariants.{OutOfMemory};
ghost use Rattle.assise_digest.specs.Pending.{HasAllNumbers, IsNew, KeepsNoMore, all_held, forgotten, held, is_last, let_go, last_noted, noted_from, overlaid, pending_seen, taken_in};

use crate::numbers::Numbers;
use assise_area::area::Area;
use assise_inode_table::inode::Inode;
use assise_inode_table::table::InodeTable;
use assise_names::refusal::Refusal;
use assise_private_log::records::Records;
use assise_record::effect::Effect;
use std::alloc::{AllocError, Global};

/// The inodes that some records touch, as they are after them: one that is gone has a number and no value. Beside each
/// stands the number of the last record that touches it.
#[derive(Debug)]
pub(crate) struct Pending {
    pub(crate) inodes: InodeTable,
    pub(crate) last: Numbers,
}

// One call lets go of it, wherever it is owned.
impl Drop for Pending {
    fn drop(self) {
        let Pending { inodes: _, last: _ } = self;
    }
}

/// An equal value.
fn copy_of(alloc: Global, value: Option<&Inode>) -> Result<Option<Inode>, Refusal>
    ensures equal { IfOk result (λ copied. copied ≡ option_copied value.entry) }
    ensures only_memory { IsOkUnless result OutOfMemory }
{
    match value {
        Some(inode) => Ok(Some(inode.copy(alloc)?)),
        None => Ok(None),
    }
}

impl Pending {
    /// What no records make. It takes no memory.
    pub(crate) fn new(alloc: Global) -> Pending
        ensures inodes { result.inodes ≡ map.empty }
        ensures last { result.last ≡ map.empty }
    {
        Pending {
            inodes: InodeTable::new(alloc),
            last: Numbers::new(alloc),
        }
    }

    /// An inode after the records, where it was given as it is without them.
    pub(crate) fn value<'a>(&'a self, inode: u64, base: Option<&'a Inode>) -> Option<&'a Inode>
        ensures { option_copied result ≡ pending_seen self.now inode (option_copied base.entry) }
    {
        if self.has(inode) {
            self.inodes.get(inode)
        } else {
            base
        }
    }

    /// Whether the records touch an inode.
    pub(crate) fn has(&self, inode: u64) -> bool
        ensures { result ≡ is_some (map.get self.now.last inode) }
    {
        self.last.get(inode).is_some()
    }

    /// Whether the record of a number is the last that touches an inode.
    fn is_last(&self, number: u64, inode: u64) -> bool
        ensures { result ≡ is_last self.now number inode }
    {
        match self.last.get(inode) {
            Some(last) => last == number,
            None => false,
        }
    }

    /// Keeps an inode as it is in the area, unless it is kept already. The one refusal is [`Refusal::OutOfMemory`], and
    /// it leaves all as it was.
    fn hold(&mut self, alloc: Global, area: &Area, number: u64, inode: u64) -> Result<(), Refusal>
        requires no_more { KeepsNoMore self.old }
        ensures ok { OnOk result (self.new ≡ held self.old area.now.inodes number inode) }
        ensures err { OnErr result (self.new ≡ self.old) }
        ensures only_memory { IsOkUnless result OutOfMemory }
    {
        if self.last.get(inode).is_some() {
            return Ok(());
        }
        let value = copy_of(alloc, area.peek(inode))?;
        set_value(&mut self.inodes, inode, value)?;
        if let Err(error) = self.last.insert(inode, number) {
            discard(&mut self.inodes, inode);
            return Err(error.into());
        }
        Ok(())
    }

    /// Makes effects, on inodes that are kept then. Where memory runs out, what the record of this number is the last to
    /// touch is more than there was, if the number is a new one.
    pub(crate) fn make(
        &mut self,
        alloc: Global,
        area: &Area,
        number: u64,
        effects: &[Effect],
    ) -> Result<(), Refusal>
        requires whole { CanBeMadeWhole effects.now }
        requires no_more { KeepsNoMore self.old }
        ensures ok_inodes { OnOk result (self.new.inodes ≡ all_applied
            (all_held self.old area.now.inodes number effects.now).inodes effects.now) }
        ensures ok_last { OnOk result (self.new.last ≡
            (all_held self.old area.now.inodes number effects.now).last) }
        ensures err { IsNew self.old number →
            OnErr result (forgotten self.new number effects.now ≡ self.old) }
        ensures only_memory { IsOkUnless result OutOfMemory }
    {
        for effect in effects {
            self.hold(alloc, area, number, effect.touches())?;
        }
        Ok(self.inodes.apply_all(effects)?)
    }

    /// Takes the effects of one more record in: all of them in their order, or none. The one refusal is
    /// [`Refusal::OutOfMemory`], and it leaves all as it was.
    pub(crate) fn take_in(
        &mut self,
        alloc: Global,
        area: &Area,
        number: u64,
        effects: &[Effect],
    ) -> Result<(), Refusal>
        requires whole { CanBeMadeWhole effects.now }
        requires no_more { KeepsNoMore self.old }
        requires fresh { IsNew self.old number }
        ensures ok { OnOk result (self.new ≡ taken_in self.old area.now.inodes number effects.now) }
        ensures err { OnErr result (self.new ≡ self.old) }
        ensures only_memory { IsOkUnless result OutOfMemory }
    {
        if let Err(refusal) = self.make(alloc, area, number, effects) {
            self.forget(number, effects);
            return Err(refusal);
        }
        note(&mut self.last, number, effects);
        Ok(())
    }

    /// Notes records, numbered from a number on, as the last that touch their inodes, one after another. All of the inodes
    /// are kept.
    pub(crate) fn note_all(&mut self, first: u64, records: Records<'_>)
        requires numbers_fit { first + length records < 2 ^ 64 }
        requires there { HasAllNumbers self.old.last (all_effects records) }
        ensures { self.new ≡ noted_from self.old first records.entry }
    {
        let mut number = first;
        for record in records {
            note(&mut self.last, number, record.effects());
            number += 1;
        }
    }

    /// Moves all that is kept into the area, in place of what it has there: each inode with a value, or none. Without
    /// memory it leaves all as it was.
    pub(crate) fn settle(&mut self, alloc: Global, area: &mut Area) -> Result<(), AllocError>
        requires no_more { KeepsNoMore self.old }
        ensures moved { OnOk result (area.new.inodes ≡ overlaid area.old.inodes self.old) }
        ensures inodes { OnOk result (self.new.inodes ≡ map.empty) }
        ensures last { OnOk result (self.new.last ≡ map.empty) }
        ensures capacity { area.new.capacity ≡ area.old.capacity }
        ensures err { OnErr result (self.new ≡ self.old) }
        ensures err_area { OnErr result (area.new ≡ area.old) }
    {
        let gone = self.last.beyond(alloc, &self.inodes)?;
        area.put_all(&mut self.inodes)?;
        remove_all(area, gone.as_slice());
        self.last.clear();
        Ok(())
    }

    /// Lets the inode of an effect go, where the record of this number is the last that touches it.
    fn let_go(&mut self, number: u64, inode: u64)
        ensures { self.new ≡ let_go self.old number inode }
    {
        if self.is_last(number, inode) {
            discard(&mut self.inodes, inode);
            self.last.remove(inode);
        }
    }

    /// Lets the inodes go that the record of this number is the last to touch, by these effects.
    pub(crate) fn forget(&mut self, number: u64, effects: &[Effect])
        ensures { self.new ≡ forgotten self.old number effects.now }
    {
        for effect in effects {
            self.let_go(number, effect.touches());
        }
    }
}

/// Notes that the record of a number is the last that touches the inodes of its effects. All of them have a number.
fn note(last: &mut Numbers, number: u64, effects: &[Effect])
    requires there { HasAllNumbers last.old effects.now }
    ensures { last.new ≡ last_noted last.old number effects.now }
{
    for effect in effects {
        last.set(effect.touches(), number);
    }
}

/// Takes the inodes of these numbers out of the area.
fn remove_all(area: &mut Area, inodes: &[u64])
    ensures gone { (i : ℕ) → map.get area.new.inodes i ≡
        cond (list_any (nat_eq i) inodes.now) None (map.get area.old.inodes i) }
    ensures capacity { area.new.capacity ≡ area.old.capacity }
{
    for inode in inodes {
        area.remove(*inode);
    }
}

/// Gives a number that has no inode this one, if there is one.
fn set_value(inodes: &mut InodeTable, inode: u64, value: Option<Inode>) -> Result<(), AllocError>
    requires none { map.get inodes.old inode ≡ None }
    ensures ok { OnOk result (inodes.new ≡ with_value inodes.old inode value) }
    ensures err { OnErr result (inodes.new ≡ inodes.old) }
{
    match value {
        Some(content) => replace(inodes, inode, content),
        None => Ok(()),
    }
}

/// Gives a number an inode, and lets the one that it had go.
fn replace(inodes: &mut InodeTable, inode: u64, content: Inode) -> Result<(), AllocError>
    ensures ok { OnOk result (inodes.new ≡ map.insert inodes.old inode content) }
    ensures err { OnErr result (inodes.new ≡ inodes.old) }
{
    inodes.insert(inode, content)?;
    Ok(())
}

/// Takes the inode of a number out, if it is there, and lets it go.
fn discard(inodes: &mut InodeTable, inode: u64)
    ensures { inodes.new ≡ map.remove inodes.old inode }
{
    inodes.remove(inode);
}
