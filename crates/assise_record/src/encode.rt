//! The bytes of frames.
ghost use Rattle.std.specs.Prelude.{◌≡◌, ℕ, ◌+◌, ◌≤◌, ◌++◌, ◌∷◌, [], IsOk, IsOkUnless, IsTrue, OnErr, OnOk, flat_map, vec_capacity};
ghost use Rattle.std.specs.List.{AllByRecursion};
ghost use Rattle.byteorder.specs.Endian.{big_bytes};
ghost use Rattle.assise_names.specs.declared.refusal.Refusal.TheVariants.{OutOfMemory};
ghost use Rattle.assise_record.specs.declared.effect.Effect.TheVariants.{Link, SetLen, Unlink, Write};
ghost use Rattle.assise_record.specs.Room.{BytesFit, Appends};
ghost use Rattle.assise_names.specs.Name.{is_name};
ghost use Rattle.assise_record.specs.Patch.{IsPatch};
ghost use Rattle.assise_record.specs.Spelling.{IsEffect, IsLogRecord, spelling, tag_of, name_spelling, patch_spelling, fields_of, effect_spelling, mark_spelling, record_spelling, body_of, header_of, SpellsFrame};

use crate::decode::{HEADER_BYTES, LAST, MAGIC, NOT_LAST};
use crate::effect::{Effect, Extent, FileSize};
use crate::effects::{FREE, LINK, NEW_DIR, NEW_FILE, SET_LEN, UNLINK, WRITE};
use crate::frame::Frame;
use crate::record::Record;
use crate::sizes::body_size;
use assise_names::name::Name;
use assise_names::refusal::Refusal;
use byteorder::{BigEndian, ByteOrder};

/// Appends the bytes of a frame of its version, or answers [`Refusal::OutOfMemory`] and leaves the vector as it was: there is one
/// growth, by as many bytes as the frame has, and none where they fit.
pub fn encode(frame: &Frame, out: &mut Vec<u8>) -> Result<(), Refusal>
    ensures ok { OnOk result (out.new.items ≡ out.old.items ++ spelling frame.now) }
    ensures spelled { (newest : ℕ) → frame.now.version ≤ newest →
        OnOk result (SpellsFrame newest (spelling frame.now) frame.now) }
    ensures known_version { frame.now.version ≤ 2 }
    ensures err { OnErr result (out.new.items ≡ out.old.items) }
    ensures room { OnErr result (vec_capacity out.new ≡ vec_capacity out.old) }
    ensures fits { BytesFit out.old (spelling frame.now) → IsOk result }
    ensures only_memory { IsOkUnless result OutOfMemory }
{
    let size = body_size(frame);
    out.reserve(HEADER_BYTES + size)?;
    put_header(out, frame, size as u32);
    put_records(out, frame.records(), frame.last());
    Ok(())
}

/// Appends bytes for which there is room.
fn put(out: &mut Vec<u8>, bytes: &[u8])
    requires { BytesFit out.old bytes.now }
    ensures { Appends out.old out.new bytes.now }
{
    if out.extend_from_slice(bytes).is_err() {
        unreachable!();
    }
}

/// Appends a byte for which there is room.
fn put_byte(out: &mut Vec<u8>, byte: u8)
    requires { BytesFit out.old (byte ∷ []) }
    ensures { Appends out.old out.new (byte ∷ []) }
{
    out.push_reserved(byte);
}

fn put_u16(out: &mut Vec<u8>, number: u16)
    requires { BytesFit out.old (big_bytes 2 number) }
    ensures { Appends out.old out.new (big_bytes 2 number) }
{
    let mut bytes = [0; 2];
    BigEndian::write_u16(&mut bytes, number);
    put(out, &bytes);
}

fn put_u32(out: &mut Vec<u8>, number: u32)
    requires { BytesFit out.old (big_bytes 4 number) }
    ensures { Appends out.old out.new (big_bytes 4 number) }
{
    let mut bytes = [0; 4];
    BigEndian::write_u32(&mut bytes, number);
    put(out, &bytes);
}

fn put_u64(out: &mut Vec<u8>, number: u64)
    requires { BytesFit out.old (big_bytes 8 number) }
    ensures { Appends out.old out.new (big_bytes 8 number) }
{
    let mut bytes = [0; 8];
    BigEndian::write_u64(&mut bytes, number);
    put(out, &bytes);
}

fn put_extent(out: &mut Vec<u8>, extent: &Extent)
    requires { BytesFit out.old (patch_spelling extent.now) }
    ensures appended { Appends out.old out.new (patch_spelling extent.now) }
    ensures lawful { IsPatch extent.now }
{
    let bytes = extent.bytes();
    put_u32(out, extent.offset());
    put_u32(out, bytes.len() as u32);
    put(out, bytes);
}

fn put_name(out: &mut Vec<u8>, name: &Name)
    requires { BytesFit out.old (name_spelling name.now) }
    ensures appended { Appends out.old out.new (name_spelling name.now) }
    ensures lawful { IsTrue (is_name name.now) }
{
    let bytes = name.as_str().as_bytes();
    put_byte(out, bytes.len() as u8);
    put(out, bytes);
}

fn tag_of(effect: &Effect) -> u8
    ensures { result ≡ tag_of effect.now }
{
    match effect {
        Effect::NewFile { .. } => NEW_FILE,
        Effect::NewDir { .. } => NEW_DIR,
        Effect::Write { .. } => WRITE,
        Effect::SetLen { .. } => SET_LEN,
        Effect::Link { .. } => LINK,
        Effect::Unlink { .. } => UNLINK,
        Effect::Free { .. } => FREE,
    }
}

fn put_write(out: &mut Vec<u8>, inode: u64, extent: &Extent)
    requires { BytesFit out.old (fields_of (Write inode extent.now)) }
    ensures appended { Appends out.old out.new (fields_of (Write inode extent.now)) }
    ensures lawful { IsEffect (Write inode extent.now) }
{
    put_u64(out, inode);
    put_extent(out, extent);
}

fn put_set_len(out: &mut Vec<u8>, inode: u64, size: FileSize)
    requires { BytesFit out.old (fields_of (SetLen inode size)) }
    ensures appended { Appends out.old out.new (fields_of (SetLen inode size)) }
    ensures lawful { IsEffect (SetLen inode size) }
{
    put_u64(out, inode);
    put_u32(out, size.get());
}

fn put_unlink(out: &mut Vec<u8>, directory: u64, name: &Name)
    requires { BytesFit out.old (fields_of (Unlink directory name.now)) }
    ensures appended { Appends out.old out.new (fields_of (Unlink directory name.now)) }
    ensures lawful { IsEffect (Unlink directory name.now) }
{
    put_u64(out, directory);
    put_name(out, name);
}

fn put_link(out: &mut Vec<u8>, directory: u64, name: &Name, inode: u64)
    requires { BytesFit out.old (fields_of (Link directory name.now inode)) }
    ensures appended { Appends out.old out.new (fields_of (Link directory name.now inode)) }
    ensures lawful { IsEffect (Link directory name.now inode) }
{
    put_u64(out, directory);
    put_name(out, name);
    put_u64(out, inode);
}

fn put_fields(out: &mut Vec<u8>, effect: &Effect)
    requires { BytesFit out.old (fields_of effect.now) }
    ensures appended { Appends out.old out.new (fields_of effect.now) }
    ensures lawful { IsEffect effect.now }
{
    match effect {
        Effect::NewFile { inode } => put_u64(out, *inode),
        Effect::NewDir { inode } => put_u64(out, *inode),
        Effect::Write { inode, extent } => put_write(out, *inode, extent),
        Effect::SetLen { inode, size } => put_set_len(out, *inode, *size),
        Effect::Link {
            directory,
            name,
            inode,
        } => put_link(out, *directory, name, *inode),
        Effect::Unlink { directory, name } => put_unlink(out, *directory, name),
        Effect::Free { inode } => put_u64(out, *inode),
    }
}

fn put_effect(out: &mut Vec<u8>, effect: &Effect)
    requires { BytesFit out.old (effect_spelling effect.now) }
    ensures appended { Appends out.old out.new (effect_spelling effect.now) }
    ensures lawful { IsEffect effect.now }
{
    put_byte(out, tag_of(effect));
    put_fields(out, effect);
}

fn put_effects(out: &mut Vec<u8>, effects: &[Effect])
    requires { BytesFit out.old (flat_map effect_spelling effects.now) }
    ensures appended { Appends out.old out.new (flat_map effect_spelling effects.now) }
    ensures lawful { AllByRecursion IsEffect effects.now }
{
    for effect in effects {
        put_effect(out, effect);
    }
}

fn put_mark(out: &mut Vec<u8>, mark: Option<bool>)
    requires { BytesFit out.old (mark_spelling mark) }
    ensures { Appends out.old out.new (mark_spelling mark) }
{
    match mark {
        Some(true) => put_byte(out, LAST),
        Some(false) => put_byte(out, NOT_LAST),
        None => (),
    }
}

fn put_record(out: &mut Vec<u8>, mark: Option<bool>, logged: &Record)
    requires { BytesFit out.old (record_spelling mark logged.now) }
    ensures appended { Appends out.old out.new (record_spelling mark logged.now) }
    ensures lawful { IsLogRecord logged.now }
{
    let effects = logged.effects();
    put_u64(out, logged.call());
    put_mark(out, mark);
    put_byte(out, effects.len() as u8);
    put_effects(out, effects);
}

fn put_records(out: &mut Vec<u8>, records: &[Record], last: &[bool])
    requires { BytesFit out.old (body_of records.now last.now) }
    ensures appended { Appends out.old out.new (body_of records.now last.now) }
    ensures lawful { AllByRecursion IsLogRecord records.now }
{
    for (place, record) in records.iter().enumerate() {
        put_record(out, last.get(place).copied(), record);
    }
}

fn put_header(out: &mut Vec<u8>, frame: &Frame, size: u32)
    requires { BytesFit out.old (65 ∷ 83 ∷ frame.now.version ∷ header_of frame.now size) }
    ensures { Appends out.old out.new (65 ∷ 83 ∷ frame.now.version ∷ header_of frame.now size) }
{
    put(out, &[MAGIC[0], MAGIC[1], frame.version()]);
    put_u64(out, frame.epoch());
    put_u32(out, frame.client());
    put_u64(out, frame.first());
    put_u16(out, frame.records().len() as u16);
    put_u32(out, size);
}
