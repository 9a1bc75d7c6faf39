//! A text that lies in its value where it is short.
ghost use Rattle.std.specs.Prelude.{◌≡◌, IfOk, IsTrue, None, length};

use arrayvec::ArrayString;
use std::alloc::{AllocError, Global};
use std::fmt::{self, Debug, Formatter};
use std::marker::Model;
use std::sync::ArcStr;

/// The most bytes of a text that lies in its value.
const MOST_SHORT_BYTES: usize = 16;

/// A text that lies in its value where it is short, and else is shared by its copies.
pub(crate) enum Text {
    /// At most 16 bytes.
    Short(ArrayString<MOST_SHORT_BYTES>),
    /// More bytes.
    Shared(ArcStr),
}

// One call lets go of it, wherever it is owned.
impl Drop for Text {
    fn drop(self) {
        match self {
            Text::Short(_) | Text::Shared(_) => (),
        }
    }
}

impl Text {
    ghost use Rattle.assise_names.specs.Texts.{text_bytes};

    /// This text. A short one takes no memory.
    pub(crate) fn new(alloc: Global, text: &str) -> Result<Text, AllocError>
        ensures ok { IfOk result (λ t. text_bytes t ≡ text.now) }
    {
        if let Ok(short) = ArrayString::from(text) {
            return Ok(Text::Short(short));
        }
        Ok(Text::Shared(ArcStr::from_str(alloc, text)?))
    }

    /// The text.
    pub(crate) fn as_str(&self) -> &str
        ensures text { result.now ≡ text_bytes self.now }
    {
        match self {
            Text::Short(short) => short.as_str(),
            Text::Shared(shared) => shared.as_str(),
        }
    }

    /// An equal text. It takes no memory: it is refused only where the count of those that share it is full.
    pub(crate) fn copy(&self) -> Result<Text, AllocError>
        ensures equal { IfOk result (λ t. text_bytes t ≡ text_bytes self.now) }
    {
        match self {
            Text::Short(short) => Ok(Text::Short(*short)),
            Text::Shared(shared) => Ok(Text::Shared(shared.clone()?)),
        }
    }
}

/// Printed as the text is, wherever it lies.
impl Debug for Text {
    ghost debug_output = { λ _. None };

    fn fmt<W: fmt::Write>(&self, f: &mut Formatter<W>) -> fmt::Result {
        write!(f, "{:?}", self.as_str())
    }
}
