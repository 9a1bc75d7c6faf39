//! What a caller asks for.
ghost use Rattle.std.specs.Prelude.{◌≡◌, IfErr, IfOk};
ghost use Rattle.assise_desk.specs.RequestedOps.{IsRequestedAt, MayAskForNone, MayFault, MayFaultPath, PathIs, RequestsOp};
ghost use Rattle.assise_desk.specs.FaultCodes.{no_memory};

use crate::desk_call::ClientCall;
use crate::desk_fault::DeskFault;
use assise_names::byte_string::ByteString;
use assise_names::call::Op;
use assise_names::path::{Path, PathFault};
use std::alloc::Global;
use std::str;

/// How many bytes a request or an answer may have.
pub const DESK_BYTES: usize = 12288;

/// The numbers of a request. What a call doesn't need is passed over.
#[repr(C)]
#[derive(Clone, Copy)]
pub struct DeskRequest {
    /// What is asked for: the number of a [`DeskCall`](crate::desk_call::DeskCall).
    pub call: u32,
    /// The client, from 1.
    pub client: u32,
    /// The node, from 1; of a new cluster the count of its nodes.
    pub node: u32,
    /// How many bytes of the desk are the path's.
    pub path_bytes: u32,
    /// How many bytes behind these are the other path's, or are to be written.
    pub other_bytes: u32,
    /// The revoker of a client that is opened, or of a renewed cluster's: 0 is least, 1 whole, 2 eights. The kind of a link: 0 is perfect,
    /// 1 loses, 2 repeats, 3 delays, 4 cuts, 5 faults. Of a redo the client whose changes a failure took.
    pub kind: u32,
    /// The offset in bytes of a read or write, the size of a truncation, how many names a listing passes over; of a new cluster the most
    /// records of a log, 8 to 4,096; how many inodes a node keeps hot, 1 to 4,096; how many bytes a cutting link lets through; of a redo
    /// the number of the first lost call; the place in a text from which on a page is shown.
    pub first: u64,
    /// The most bytes of a read; the place of a listing in the history, from 0; of a new cluster the most hot inodes of a node, 1 to 4,096; of a client that is opened its fsyncs: 0 is
    /// pessimistic, 1 optimistic.
    pub second: u64,
}

impl DeskRequest {
    /// The call of a client that is asked for, with its path and the bytes behind it at the front of a desk's.
    pub(crate) fn op_at(
        &self,
        alloc: Global,
        call: ClientCall,
        bytes: &[u8; DESK_BYTES],
    ) -> Result<Op, DeskFault>
        ensures ok { IfOk result (IsRequestedAt call self.now bytes.now) }
        ensures err { IfErr result (MayAskForNone call self.now bytes.now) }
    {
        let (path_bytes, other_bytes) = (self.path_bytes as usize, self.other_bytes as usize);
        if path_bytes > DESK_BYTES || other_bytes > DESK_BYTES - path_bytes {
            return Err(DeskFault::BadRequest);
        }
        let (path, rest) = bytes.split_at(path_bytes);
        let (other, _) = rest.split_at(other_bytes);
        self.op(alloc, call, path, other)
    }

    /// The call of a client that is asked for, with its path and the bytes behind it. A read asks for no more bytes than a desk has.
    pub fn op(
        &self,
        alloc: Global,
        call: ClientCall,
        path: &[u8],
        other: &[u8],
    ) -> Result<Op, DeskFault>
        ensures ok { IfOk result (RequestsOp call self.now path.now other.now) }
        ensures err { IfErr result (MayFault call path.now other.now) }
    {
        if call == ClientCall::Fsync {
            return Ok(Op::Fsync);
        }
        if call == ClientCall::Dsync {
            return Ok(Op::Dsync);
        }
        let path = path_at(alloc, path)?;
        match call {
            ClientCall::Create => Ok(Op::Create(path)),
            ClientCall::Mkdir => Ok(Op::Mkdir(path)),
            ClientCall::Read => Ok(Op::Read(path, self.first, self.second.min(DESK_BYTES as u64))),
            ClientCall::Write => Ok(Op::Write(path, self.first, data_at(alloc, other)?)),
            ClientCall::Truncate => Ok(Op::Truncate(path, self.first)),
            ClientCall::Rename => Ok(Op::Rename(path, path_at(alloc, other)?)),
            ClientCall::Unlink => Ok(Op::Unlink(path)),
            ClientCall::Rmdir => Ok(Op::Rmdir(path)),
            ClientCall::List => Ok(Op::List(path)),
            ClientCall::Stat => Ok(Op::Stat(path)),
            ClientCall::Fsync => Ok(Op::Fsync),
            ClientCall::Dsync => Ok(Op::Dsync),
        }
    }
}

/// The path that bytes spell. Bytes that are no text have a bad name.
fn path_at(alloc: Global, bytes: &[u8]) -> Result<Path, DeskFault>
    ensures ok { IfOk result (PathIs bytes.now) }
    ensures err { IfErr result (MayFaultPath bytes.now) }
{
    match str::from_utf8(bytes) {
        Ok(text) => Ok(Path::parse(alloc, text)?),
        Err(_) => Err(DeskFault::Path(PathFault::BadName)),
    }
}

/// The bytes, to be written. The one fault is that there is no memory.
fn data_at(alloc: Global, bytes: &[u8]) -> Result<ByteString, DeskFault>
    ensures ok { IfOk result (λ made. made ≡ bytes.now) }
    ensures err { IfErr result (λ fault. fault ≡ no_memory) }
{
    let mut data = Vec::new(alloc);
    data.extend_from_slice(bytes)?;
    Ok(ByteString::from_vec(data)?)
}
