//! The calls of the file system.
ghost use Rattle.std.specs.Prelude.{◌≡◌, ◌++◌, codes, IfOk, IsOk, IsOkUnless, Some};
ghost use Rattle.std.specs.Fmt.{WritesOnOk};
ghost use Rattle.assise_names.specs.Path.{path_spelling};
ghost use Rattle.assise_names.specs.Text.{op_text};
ghost use Rattle.assise_names.specs.declared.refusal.Refusal.TheVariants.{OutOfMemory};

use crate::byte_string::ByteString;
use crate::path::Path;
use crate::refusal::Refusal;
use std::fmt;
use std::fmt::{Display, Formatter};

/// A call. Offsets, lengths and sizes are counts of bytes.
#[derive(Debug)]
pub enum Op {
    /// Makes a file without bytes at a path where nothing is.
    Create(Path),
    /// Makes a directory without entries at a path where nothing is.
    Mkdir(Path),
    /// Reads from an offset on, up to a count of bytes.
    Read(Path, u64, u64),
    /// Writes bytes at an offset.
    Write(Path, u64, ByteString),
    /// Gives a file another size.
    Truncate(Path, u64),
    /// Moves what stands at a path to another.
    Rename(Path, Path),
    /// Removes a file.
    Unlink(Path),
    /// Removes a directory without entries.
    Rmdir(Path),
    /// Lists the names of a directory's entries.
    List(Path),
    /// Says what stands at a path.
    Stat(Path),
    /// Is answered once all calls before it are replicated, and at once to a client that was opened to be optimistic.
    Fsync,
    /// Is answered once all calls before it are replicated.
    Dsync,
}

// One call lets go of it, wherever it is owned.
impl Drop for Op {
    fn drop(self) {
        match self {
            Op::Create(_)
            | Op::Mkdir(_)
            | Op::Read(_, _, _)
            | Op::Write(_, _, _)
            | Op::Truncate(_, _)
            | Op::Rename(_, _)
            | Op::Unlink(_)
            | Op::Rmdir(_)
            | Op::List(_)
            | Op::Stat(_)
            | Op::Fsync
            | Op::Dsync => (),
        }
    }
}

impl Op {
    /// An equal value, which shares its names and bytes. It takes no memory: the one refusal, [`Refusal::OutOfMemory`], comes
    /// where a count of those that share them is full. `fsync` and `dsync` are never refused.
    pub fn copy(&self) -> Result<Op, Refusal>
        ensures equal { IfOk result (λ copied. copied ≡ self.now) }
        ensures fsync { self.now ≡ Op.Fsync → IsOk result }
        ensures dsync { self.now ≡ Op.Dsync → IsOk result }
        ensures only_memory { IsOkUnless result OutOfMemory }
    {
        match self {
            Op::Create(path) => Ok(Op::Create(path.copy()?)),
            Op::Mkdir(path) => Ok(Op::Mkdir(path.copy()?)),
            Op::Read(path, offset, length) => Ok(Op::Read(path.copy()?, *offset, *length)),
            Op::Write(path, offset, bytes) => {
                let path = path.copy()?;
                Ok(Op::Write(path, *offset, bytes.copy()?))
            }
            Op::Truncate(path, size) => Ok(Op::Truncate(path.copy()?, *size)),
            Op::Rename(from, to) => {
                let from = from.copy()?;
                Ok(Op::Rename(from, to.copy()?))
            }
            Op::Unlink(path) => Ok(Op::Unlink(path.copy()?)),
            Op::Rmdir(path) => Ok(Op::Rmdir(path.copy()?)),
            Op::List(path) => Ok(Op::List(path.copy()?)),
            Op::Stat(path) => Ok(Op::Stat(path.copy()?)),
            Op::Fsync => Ok(Op::Fsync),
            Op::Dsync => Ok(Op::Dsync),
        }
    }
}

/// The call's name and words as a script has them, but with the count of a write's bytes in place of the bytes.
impl Display for Op {
    ghost output = { λ op. Some (op_text op) };

    fn fmt<W: fmt::Write>(&self, f: &mut Formatter<W>) -> fmt::Result {
        match self {
            Op::Create(path) => write_call(f, "create", path),
            Op::Mkdir(path) => write_call(f, "mkdir", path),
            Op::Read(path, offset, length) => write!(f, "read {path} {offset} {length}"),
            Op::Write(path, offset, bytes) => {
                let count = bytes.len();
                write!(f, "write {path} {offset} {count}")
            }
            Op::Truncate(path, size) => write!(f, "truncate {path} {size}"),
            Op::Rename(from, to) => write!(f, "rename {from} {to}"),
            Op::Unlink(path) => write_call(f, "unlink", path),
            Op::Rmdir(path) => write_call(f, "rmdir", path),
            Op::List(path) => write_call(f, "list", path),
            Op::Stat(path) => write_call(f, "stat", path),
            Op::Fsync => f.write_str("fsync"),
            Op::Dsync => f.write_str("dsync"),
        }
    }
}

/// Writes a call whose one word is a path.
fn write_call<W: fmt::Write>(f: &mut Formatter<W>, name: &str, path: &Path) -> fmt::Result
    ensures { WritesOnOk W.write_str_gives f.old result
        (name.now ++ codes " " ++ path_spelling path.now) f.new }
{
    write!(f, "{name} {path}")
}
