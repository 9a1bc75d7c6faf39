//! How many bytes records have in a frame.
ghost use Rattle.std.specs.Prelude.{◌≡◌, ◌≤◌, None, length};
ghost use Rattle.std.specs.List.{flat_map};
ghost use Rattle.assise_record.specs.LogFrame.{HasRanges};
ghost use Rattle.assise_record.specs.Spelling.{body_of, effect_spelling, record_spelling};

use crate::effect::Effect;
use crate::frame::Frame;
use crate::record::Record;

/// A tag, and an inode behind it.
const TAG_AND_INODE: usize = 9;

/// The bytes of an effect.
fn effect_size(effect: &Effect) -> usize
    ensures size { result ≡ length (effect_spelling effect.now) }
    ensures few { result ≤ 65553 }
{
    match effect {
        Effect::NewFile { .. } | Effect::NewDir { .. } | Effect::Free { .. } => TAG_AND_INODE,
        Effect::Write { extent, .. } => TAG_AND_INODE + 8 + extent.bytes().len(),
        Effect::SetLen { .. } => TAG_AND_INODE + 4,
        Effect::Link { name, .. } => TAG_AND_INODE + 9 + name.as_str().len(),
        Effect::Unlink { name, .. } => TAG_AND_INODE + 1 + name.as_str().len(),
    }
}

/// The bytes of a record without a mark: its call, the count of its effects, and the effects.
fn record_size(logged: &Record) -> usize
    ensures size { result ≡ length (record_spelling None logged.now) }
    ensures few { result ≤ 262221 }
{
    9 + effects_size(logged.effects())
}

fn effects_size(effects: &[Effect]) -> usize
    requires { length effects.now ≤ 4 }
    ensures size { result ≡ length (flat_map effect_spelling effects.now) }
    ensures few { result ≤ 262212 }
{
    let mut size = 0;
    for effect in effects {
        size += effect_size(effect);
    }
    size
}

/// The bytes of records without marks.
fn records_size(records: &[Record]) -> usize
    requires { length records.now ≤ 64 }
    ensures size { result ≡ length (flat_map (record_spelling None) records.now) }
    ensures few { result ≤ 16782144 }
{
    let mut size = 0;
    for record in records {
        size += record_size(record);
    }
    size
}

/// The bytes of a frame's records, of which each mark has one.
pub(crate) fn body_size(frame: &Frame) -> usize
    ensures size { result ≡ length (body_of frame.now.records frame.now.last) }
    ensures few { result ≤ 16782208 }
    ensures ranges { HasRanges frame.now }
{
    records_size(frame.records()) + frame.last().len()
}
