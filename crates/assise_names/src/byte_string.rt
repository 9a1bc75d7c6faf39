//! A list of bytes as one value.
ghost use Rattle.std.specs.Prelude.{◌≡◌, ◌==◌, [], IfOk, IsOk, length};
ghost use Rattle.std.proofs.Common.{rules};
ghost use Rattle.std.specs.Cmp.Rules.{comparing};
ghost use Rattle.std.specs.Cmp.Lexicographic.{pointwise};
ghost use Rattle.std.specs.Ordering.{on};

use bytes::Bytes;
use std::alloc::{AllocError, Global};
use std::marker::Model;
use std::sync::Arc;

/// Bytes that a call writes or reads. Copies share them. A contract sees the list of the bytes, and nothing of where
/// they lie.
#[derive(Debug)]
pub struct ByteString {
    bytes: Option<Arc<Bytes>>,
}

// One call lets go of it, wherever it is owned.
impl Drop for ByteString {
    fn drop(self) {
        let ByteString { bytes: _ } = self;
    }
}

impl Model for ByteString {
    ghost use Rattle.std.specs.Prelude.{List, ℕ};
    ghost use Rattle.assise_names.specs.Held.{HasSomeBytes, bytes_held};

    ghost Value = { List ℕ };

    ghost view = { λ s. bytes_held s.bytes };

    ghost invariant = { λ s. HasSomeBytes s.bytes };
}

impl ByteString {
    /// No bytes. It takes no memory.
    pub fn new() -> ByteString
        ensures { result ≡ [] }
    {
        ByteString { bytes: None }
    }

    /// The bytes of a vector, without a copy. An error says that there is no memory for the count of their owners.
    pub fn from_vec(bytes: Vec<u8>) -> Result<ByteString, AllocError>
        ensures bytes { IfOk result (λ made. made ≡ bytes.items) }
        ensures none { length bytes.items ≡ 0 → IsOk result }
    {
        let alloc = *bytes.allocator();
        let bytes = Bytes::from_vec(bytes)?;
        ByteString::from_bytes(alloc, bytes)
    }

    /// Bytes that others may share. An error says that there is no memory for the count of their owners.
    pub fn from_bytes(alloc: Global, bytes: Bytes) -> Result<ByteString, AllocError>
        ensures bytes { IfOk result (λ made. made ≡ bytes) }
        ensures none { length bytes ≡ 0 → IsOk result }
    {
        if bytes.is_empty() {
            return Ok(ByteString { bytes: None });
        }
        Ok(ByteString {
            bytes: Some(Arc::new(alloc, bytes)?),
        })
    }

    /// The bytes, shared. An error says that there is no memory.
    pub fn share(&self) -> Result<Bytes, AllocError>
        ensures bytes { IfOk result (λ shared. shared ≡ self.now) }
        ensures none { length self.now ≡ 0 → IsOk result }
    {
        match &self.bytes {
            Some(bytes) => bytes.slice(0..bytes.len()),
            None => Ok(Bytes::new()),
        }
    }

    /// The bytes as a slice.
    pub fn as_slice(&self) -> &[u8]
        ensures { result.now ≡ self.now }
    {
        match &self.bytes {
            Some(bytes) => bytes.as_slice(),
            None => &[],
        }
    }

    /// How many bytes there are.
    pub fn len(&self) -> usize
        ensures { result ≡ length self.now }
    {
        self.as_slice().len()
    }

    /// Whether there are no bytes.
    pub fn is_empty(&self) -> bool
        ensures { result ≡ (length self.now == 0) }
    {
        self.as_slice().is_empty()
    }

    /// An equal value that shares the bytes. No bytes take no memory.
    pub fn copy(&self) -> Result<ByteString, AllocError>
        ensures equal { IfOk result (λ copied. copied ≡ self.now) }
        ensures none { length self.now ≡ 0 → IsOk result }
    {
        let Some(bytes) = &self.bytes else {
            return Ok(ByteString { bytes: None });
        };
        Ok(ByteString {
            bytes: Some(Arc::try_clone(bytes)?),
        })
    }
}

impl PartialEq for ByteString {
    ghost eq = { on (λ s. s) (pointwise ◌==◌) };

    ghost laws = { Prim.search (comparing, rules) };

    fn eq(&self, other: &ByteString) -> bool {
        self.as_slice() == other.as_slice()
    }
}

impl Eq for ByteString {
    ghost laws = { Prim.search (comparing, rules) };
}
