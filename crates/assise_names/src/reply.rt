//! What calls answer.
ghost use Rattle.std.specs.Prelude.{◌≡◌, ◌≤◌, ◌<◌, ◌*◌, IfOk, IsOkUnless, OnErr, Some, length, slice_index};
ghost use Rattle.std.specs.Fmt.{WritesOnOk};
ghost use Rattle.hex.specs.Hex.{encode_lower, lower_digits};
ghost use Rattle.assise_names.specs.Reply.{HoldsWhatWasRead};
ghost use Rattle.assise_names.specs.Text.{error_text, hex, reply_text, spaced};
ghost use Rattle.assise_names.specs.declared.refusal.Refusal.TheVariants.{OutOfMemory};

use crate::byte_string::ByteString;
use crate::name::Name;
use crate::name_list::NameList;
use crate::refusal::Refusal;
use std::alloc::Global;
use std::error::Error;
use std::fmt;
use std::fmt::{Display, Formatter};

/// Why the tree doesn't do what a call asks. It is an answer: the call stands in the history.
#[derive(Clone, Copy, PartialEq, Eq, Debug)]
pub enum TreeError {
    /// A name on the way isn't there (`ENOENT`).
    NoEnt,
    /// Something is there already (`EEXIST`).
    Exists,
    /// Where a directory is wanted a file stands (`ENOTDIR`).
    NotDir,
    /// Where a file is wanted a directory stands (`EISDIR`).
    IsDir,
    /// The directory has entries (`ENOTEMPTY`).
    NotEmpty,
    /// The root can't be asked for this, nor a directory moved into itself (`EINVAL`).
    Invalid,
    /// The file would have more than 1,048,576 bytes (`EFBIG`).
    TooBig,
    /// The directory has 4,096 entries (`ENOSPC`).
    DirFull,
}

impl Display for TreeError {
    ghost output = { λ error. Some (error_text error) };

    fn fmt<W: fmt::Write>(&self, f: &mut Formatter<W>) -> fmt::Result {
        f.write_str(match self {
            TreeError::NoEnt => "E1 NoEnt",
            TreeError::Exists => "E2 Exists",
            TreeError::NotDir => "E3 NotDir",
            TreeError::IsDir => "E4 IsDir",
            TreeError::NotEmpty => "E5 NotEmpty",
            TreeError::Invalid => "E6 Invalid",
            TreeError::TooBig => "E7 TooBig",
            TreeError::DirFull => "E8 DirFull",
        })
    }
}

impl Error for TreeError {}

/// What a call answers.
#[derive(Debug, Drop, PartialEq, Eq)]
pub enum Reply {
    /// It is done.
    Done,
    /// The bytes that were read.
    Bytes(ByteString),
    /// The names of a directory's entries, ascending by their bytes.
    Names(NameList),
    /// A file, with its size in bytes.
    File(u64),
    /// A directory, with the count of its entries.
    Dir(u64),
    /// The tree doesn't do it.
    Error(TreeError),
}

impl Reply {
    /// An equal value, or [`Refusal::OutOfMemory`]. Only bytes and names take memory.
    pub fn copy(&self, alloc: Global) -> Result<Reply, Refusal>
        ensures equal { IfOk result (λ copied. copied ≡ self.now) }
        ensures only_memory { IsOkUnless result OutOfMemory }
        ensures only_what_was_read { OnErr result (HoldsWhatWasRead self.now) }
    {
        match self {
            Reply::Done => Ok(Reply::Done),
            Reply::Bytes(bytes) => Ok(Reply::Bytes(bytes.copy()?)),
            Reply::Names(names) => Ok(Reply::Names(names.copy(alloc)?)),
            Reply::File(size) => Ok(Reply::File(*size)),
            Reply::Dir(entries) => Ok(Reply::Dir(*entries)),
            Reply::Error(error) => Ok(Reply::Error(*error)),
        }
    }
}

impl Display for Reply {
    ghost output = { λ reply. Some (reply_text reply) };

    fn fmt<W: fmt::Write>(&self, f: &mut Formatter<W>) -> fmt::Result {
        match self {
            Reply::Done => f.write_str("done"),
            Reply::Bytes(bytes) => {
                let count = bytes.len();
                let hex = Hex(bytes.as_slice());
                write!(f, "bytes {count} x{hex}")
            }
            Reply::Names(names) => {
                let names = names.as_slice();
                let count = names.len();
                let spaced = Spaced(names);
                write!(f, "names {count}{spaced}")
            }
            Reply::File(size) => write!(f, "file {size}"),
            Reply::Dir(entries) => write!(f, "dir {entries}"),
            Reply::Error(error) => error.fmt(f),
        }
    }
}

/// The most bytes whose digits are written at once.
const PIECE: usize = 256;

/// Two lower-case hexadecimal digits for each byte.
#[derive(Drop)]
struct Hex<'a>(&'a [u8]);

impl Display for Hex<'_> {
    ghost output = { λ digits. Some (hex digits.0.now) };

    fn fmt<W: fmt::Write>(&self, f: &mut Formatter<W>) -> fmt::Result {
        for piece in self.0.chunks(PIECE) {
            write_digits(f, piece)?;
        }
        Ok(())
    }
}

/// Writes the digits of some bytes from a buffer, by one call of the writer.
fn write_digits<W: fmt::Write>(f: &mut Formatter<W>, bytes: &[u8]) -> fmt::Result
    requires { length bytes.now ≤ PIECE }
    ensures { WritesOnOk W.write_str_gives f.old result (hex bytes.now) f.new }
{
    let mut buffer = [0u8; 2 * PIECE];
    let digits = &mut buffer[..2 * bytes.len()];
    spell_bytes(bytes, digits);
    match simdutf8::compat::from_utf8(digits) {
        Ok(text) => f.write_str(text),
        Err(_) => unreachable!(),
    }
}

/// Spells bytes by arithmetic in one loop, which the compiler turns into one of vectors.
fn spell_bytes(bytes: &[u8], digits: &mut [u8])
    requires { length digits.old ≡ 2 * length bytes.now }
    ensures { digits.new ≡ encode_lower bytes.now }
{
    'bytes: for place in 0..bytes.len() {
        let byte = bytes[place];
        digits[2 * place] = digit(byte >> 4);
        digits[2 * place + 1] = digit(byte & 0x0f);
    }
}

/// The lower-case hexadecimal digit of four bits.
fn digit(value: u8) -> u8
    requires { value < 16 }
    ensures { result ≡ slice_index lower_digits value }
{
    if value < 10 {
        b'0' + value
    } else {
        b'a' - 10 + value
    }
}

/// Each name after a space.
#[derive(Drop)]
struct Spaced<'a>(&'a [Name]);

impl Display for Spaced<'_> {
    ghost output = { λ names. Some (spaced names.0.now) };

    fn fmt<W: fmt::Write>(&self, f: &mut Formatter<W>) -> fmt::Result {
        for name in self.0 {
            write!(f, " {name}")?;
        }
        Ok(())
    }
}
