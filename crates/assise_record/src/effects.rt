//! The effects of a record, as they stand in the body of a frame.
ghost use Rattle.std.specs.Prelude.{◌≡◌, ◌-◌, IfOk, IsOkUnless, IsTrue, length};
ghost use Rattle.assise_record.specs.Reading.{Exactly, GivesFrame, IsRest, many_at, effect_at, fields_at, rest_of, write_at, set_len_at, link_at, unlink_at};
ghost use Rattle.assise_names.specs.Name.{is_name};
ghost use Rattle.assise_record.specs.Views.{EndsAt, IsLawfulEffect, effect_of};
ghost use Rattle.assise_record.specs.declared.fault.FrameFault.TheVariants.{Memory};

use crate::effect::{Effect, Extent, FileSize};
use crate::fault::FrameFault;
use crate::fields::{name_at, payload_at, size_at, u8_at, u64_at};
use assise_names::name::Name;
use bytes::Bytes;
use std::alloc::Global;

pub(crate) const NEW_FILE: u8 = 1;

pub(crate) const NEW_DIR: u8 = 2;

pub(crate) const WRITE: u8 = 3;

pub(crate) const SET_LEN: u8 = 4;

pub(crate) const LINK: u8 = 5;

pub(crate) const UNLINK: u8 = 6;

pub(crate) const FREE: u8 = 7;

/// An effect whose name and bytes lie in the body still.
#[derive(Clone, Copy)]
pub(crate) enum EffectView<'a> {
    NewFile {
        inode: u64,
    },
    NewDir {
        inode: u64,
    },
    Write {
        inode: u64,
        offset: u32,
        bytes: &'a [u8],
    },
    SetLen {
        inode: u64,
        size: u32,
    },
    Link {
        directory: u64,
        name: &'a str,
        inode: u64,
    },
    Unlink {
        directory: u64,
        name: &'a str,
    },
    Free {
        inode: u64,
    },
}

impl EffectView<'_> {
    /// The effect, with a copy of its name. The bytes of a write are those of the frame that end at a place, and are shared. The one
    /// fault is [`FrameFault::Memory`].
    fn to_effect(self, alloc: Global, frame: &Bytes, end: usize) -> Result<Effect, FrameFault>
        requires lawful { IsLawfulEffect self }
        requires inside { EndsAt self frame.now end }
        ensures equal { IfOk result (λ effect. effect ≡ effect_of self.entry) }
        ensures only_memory { IsOkUnless result Memory }
    {
        match self {
            EffectView::NewFile { inode } => Ok(Effect::NewFile { inode }),
            EffectView::NewDir { inode } => Ok(Effect::NewDir { inode }),
            EffectView::Write {
                inode,
                offset,
                bytes,
            } => {
                let bytes = frame.slice(end - bytes.len()..end)?;
                let extent = Extent::new(offset, bytes);
                Ok(Effect::Write { inode, extent })
            }
            EffectView::SetLen { inode, size } => {
                let size = FileSize::new(size);
                Ok(Effect::SetLen { inode, size })
            }
            EffectView::Link {
                directory,
                name,
                inode,
            } => {
                let name = name_of(alloc, name)?;
                Ok(Effect::Link {
                    directory,
                    name,
                    inode,
                })
            }
            EffectView::Unlink { directory, name } => {
                let name = name_of(alloc, name)?;
                Ok(Effect::Unlink { directory, name })
            }
            EffectView::Free { inode } => Ok(Effect::Free { inode }),
        }
    }
}

/// The name that a text is which is one.
fn name_of(alloc: Global, text: &str) -> Result<Name, FrameFault>
    requires { IsTrue (is_name text.now) }
    ensures name { IfOk result (λ name. name ≡ text.now) }
    ensures only_memory { IsOkUnless result Memory }
{
    match Name::of_text(alloc, text) {
        Ok(name) => Ok(name),
        Err(_) => Err(FrameFault::Memory),
    }
}

/// `count` effects. What stands behind them is left of the bytes, which the effects share.
pub(crate) fn effects_at(
    alloc: Global,
    count: u8,
    bytes: &mut Bytes,
) -> Result<Vec<Effect>, FrameFault>
    ensures read { GivesFrame (λ effects. (effects.items, bytes.new)) result
        (many_at effect_at count bytes.old) }
    ensures counted { IfOk result (λ effects. length effects.items ≡ count) }
{
    let mut effects = Vec::with_capacity(alloc, usize::from(count))?;
    for _ in 0..count {
        let effect = own_effect_at(alloc, bytes)?;
        effects.push(effect)?;
    }
    Ok(effects)
}

/// An effect, with a copy of its name and a share of the bytes. What stands behind it is left of them.
fn own_effect_at(alloc: Global, bytes: &mut Bytes) -> Result<Effect, FrameFault>
    ensures { GivesFrame (λ effect. (effect, bytes.new)) result (effect_at bytes.old) }
{
    let (view, rest) = effect_at(bytes.as_slice())?;
    let used = bytes.len() - rest.len();
    let effect = view.to_effect(alloc, bytes, used)?;
    bytes.advance(used);
    Ok(effect)
}

/// What stands behind `count` effects, of which none is copied.
pub(crate) fn skip_effects(count: u8, bytes: &[u8]) -> Result<&[u8], FrameFault>
    ensures { Exactly (λ rest. rest.now) result (rest_of (many_at effect_at count bytes.now)) }
{
    let mut rest = bytes;
    for _ in 0..count {
        let (_, after) = effect_at(rest)?;
        rest = after;
    }
    Ok(rest)
}

/// An effect, which begins with its tag.
#[tactic(auto, unfolding(crate::specs::Reading::effect_at))]
fn effect_at(bytes: &[u8]) -> Result<(EffectView<'_>, &[u8]), FrameFault>
    ensures read { Exactly (λ x. (effect_of x.0, x.1.now)) result (effect_at bytes.now) }
    ensures lawful { IfOk result (λ x. IsLawfulEffect x.0) }
    ensures rest { IfOk result (λ x. IsRest bytes.now x.1.now) }
    ensures ends { IfOk result (λ x.
        EndsAt x.0 bytes.now (length bytes.now - length x.1.now)) }
{
    let (tag, rest) = u8_at(bytes, FrameFault::BadLength)?;
    fields_at(tag, rest)
}

/// The effect whose fields stand behind a tag.
#[tactic(auto, unfolding(crate::specs::Reading::fields_at, crate::specs::Reading::new_file_at, crate::specs::Reading::new_dir_at, crate::specs::Reading::free_at))]
fn fields_at(tag: u8, bytes: &[u8]) -> Result<(EffectView<'_>, &[u8]), FrameFault>
    ensures read { Exactly (λ x. (effect_of x.0, x.1.now)) result (fields_at tag bytes.now) }
    ensures lawful { IfOk result (λ x. IsLawfulEffect x.0) }
{
    match tag {
        NEW_FILE => {
            let (inode, rest) = u64_at(bytes, FrameFault::BadLength)?;
            Ok((EffectView::NewFile { inode }, rest))
        }
        NEW_DIR => {
            let (inode, rest) = u64_at(bytes, FrameFault::BadLength)?;
            Ok((EffectView::NewDir { inode }, rest))
        }
        WRITE => write_at(bytes),
        SET_LEN => set_len_at(bytes),
        LINK => link_at(bytes),
        UNLINK => unlink_at(bytes),
        FREE => {
            let (inode, rest) = u64_at(bytes, FrameFault::BadLength)?;
            Ok((EffectView::Free { inode }, rest))
        }
        _ => Err(FrameFault::BadTag),
    }
}

#[tactic(auto, unfolding(crate::specs::Reading::write_at))]
fn write_at(bytes: &[u8]) -> Result<(EffectView<'_>, &[u8]), FrameFault>
    ensures read { Exactly (λ x. (effect_of x.0, x.1.now)) result (write_at bytes.now) }
    ensures lawful { IfOk result (λ x. IsLawfulEffect x.0) }
{
    let (inode, rest) = u64_at(bytes, FrameFault::BadLength)?;
    let ((offset, bytes), rest) = payload_at(rest)?;
    let view = EffectView::Write {
        inode,
        offset,
        bytes,
    };
    Ok((view, rest))
}

#[tactic(auto, unfolding(crate::specs::Reading::set_len_at))]
fn set_len_at(bytes: &[u8]) -> Result<(EffectView<'_>, &[u8]), FrameFault>
    ensures read { Exactly (λ x. (effect_of x.0, x.1.now)) result (set_len_at bytes.now) }
    ensures lawful { IfOk result (λ x. IsLawfulEffect x.0) }
{
    let (inode, rest) = u64_at(bytes, FrameFault::BadLength)?;
    let (size, rest) = size_at(rest)?;
    Ok((EffectView::SetLen { inode, size }, rest))
}

#[tactic(auto, unfolding(crate::specs::Reading::link_at))]
fn link_at(bytes: &[u8]) -> Result<(EffectView<'_>, &[u8]), FrameFault>
    ensures read { Exactly (λ x. (effect_of x.0, x.1.now)) result (link_at bytes.now) }
    ensures lawful { IfOk result (λ x. IsLawfulEffect x.0) }
{
    let (directory, rest) = u64_at(bytes, FrameFault::BadLength)?;
    let (name, rest) = name_at(rest)?;
    let (inode, rest) = u64_at(rest, FrameFault::BadLength)?;
    let view = EffectView::Link {
        directory,
        name,
        inode,
    };
    Ok((view, rest))
}

#[tactic(auto, unfolding(crate::specs::Reading::unlink_at))]
fn unlink_at(bytes: &[u8]) -> Result<(EffectView<'_>, &[u8]), FrameFault>
    ensures read { Exactly (λ x. (effect_of x.0, x.1.now)) result (unlink_at bytes.now) }
    ensures lawful { IfOk result (λ x. IsLawfulEffect x.0) }
{
    let (directory, rest) = u64_at(bytes, FrameFault::BadLength)?;
    let (name, rest) = name_at(rest)?;
    Ok((EffectView::Unlink { directory, name }, rest))
}
