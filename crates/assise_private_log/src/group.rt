//! A group of records, without what is overridden in it.
ghost use Rattle.std.specs.Prelude.{◌≡◌, ◌≤◌, ◌++◌, true, IfOk, OnOk, length};
ghost use Rattle.std.specs.List.{list_any};
ghost use Rattle.assise_record.specs.Coalesced.{overridden};
ghost use Rattle.assise_record.specs.Groups.{AllHaveEffects, coalesced_group, left_of};
ghost use Rattle.assise_record.specs.Records.{all_effects, has_some};
ghost use Rattle.assise_private_log.specs.Groups.{with_left};

use assise_record::effect::Effect;
use assise_record::record::Record;
use std::alloc::{AllocError, Global};
use std::marker::Model;

/// The most records of a group.
pub(crate) const MOST_GROUPED: usize = 64;

/// Records that are replicated, digested and cut as a whole: at most 64 of them. A contract sees the list of records.
#[derive(Drop)]
pub(crate) struct Group {
    pub(crate) records: Vec<Record>,
}

impl Model for Group {
    ghost use Rattle.std.specs.Prelude.{List, ◌≤◌, length};
    ghost use Rattle.assise_record.specs.LogRecord.{LogRecord};

    ghost Value = { List LogRecord };

    ghost view = { λ g. g.records.items };

    ghost invariant = { λ g. length g.records.items ≤ 64 };
}

impl Group {
    /// What is left of a group when the effects go that later ones of the group override. The bytes of writes are shared.
    pub(crate) fn coalesced(alloc: Global, group: &[Record]) -> Result<Group, AllocError>
        requires few { length group.now ≤ 64 }
        ensures left { IfOk result (λ left. left ≡ coalesced_group group.now) }
        ensures effects { OnOk result (AllHaveEffects group.now) }
    {
        let mut records = Vec::new(alloc);
        let Some(begin) = group.first() else {
            return Ok(Group { records });
        };
        let mut rest = group;
        while let Some((record, later)) = rest.split_first() {
            push_left(alloc, begin.call(), &mut records, record, later)?;
            rest = later;
        }
        Ok(Group { records })
    }
}

/// Adds a record with what is left of its effects, if something is. The first record gets the call that the group begins
/// with.
fn push_left(
    alloc: Global,
    begin: u64,
    left: &mut Vec<Record>,
    added: &Record,
    later: &[Record],
) -> Result<(), AllocError>
    ensures ok { OnOk result (left.new.items ≡
        with_left begin left.old.items added.now (all_effects later.now)) }
    ensures some { OnOk result (has_some added.now.effects ≡ true) }
{
    let effects = left_of(alloc, added.effects(), later)?;
    if effects.is_empty() {
        return Ok(());
    }
    let call = if left.is_empty() { begin } else { added.call() };
    left.push(Record::new(call, effects))?;
    Ok(())
}

/// Equal effects, of those that neither a later one of them nor one of these records overrides.
fn left_of(alloc: Global, effects: &[Effect], later: &[Record]) -> Result<Vec<Effect>, AllocError>
    ensures left { IfOk result (λ left. left.items ≡ left_of effects.now (all_effects later.now)) }
    ensures few { IfOk result (λ left. length left.items ≤ length effects.now) }
{
    let mut left = Vec::new(alloc);
    let mut rest = effects;
    while let Some((effect, behind)) = rest.split_first() {
        if !is_overridden(effect, behind, later) {
            left.push(effect.copy()?)?;
        }
        rest = behind;
    }
    Ok(left)
}

/// Whether one of these effects, or of those of these records, overrides an earlier one.
fn is_overridden(effect: &Effect, behind: &[Effect], later: &[Record]) -> bool
    ensures { result ≡ overridden effect.now (behind.now ++ all_effects later.now) }
{
    is_overridden_by(effect, behind) || is_overridden_in(effect, later)
}

/// Whether one of these effects overrides an earlier one.
fn is_overridden_by(effect: &Effect, behind: &[Effect]) -> bool
    ensures { result ≡ overridden effect.now behind.now }
{
    behind.iter().any(|other| other.overrides(effect))
}

/// Whether an effect of one of these records overrides an earlier one.
fn is_overridden_in(effect: &Effect, later: &[Record]) -> bool
    ensures { result ≡ list_any (λ r. overridden effect.now r.effects) later.now }
{
    later
        .iter()
        .any(|other| is_overridden_by(effect, other.effects()))
}
