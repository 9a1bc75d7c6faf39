//! The name of an entry.
ghost use Rattle.std.specs.Prelude.{◌≡◌, ◌==◌, IfOk, IsOk, IsTrue, MatchResult, Some, length};
ghost use Rattle.std.specs.List.{list_any};
ghost use Rattle.std.proofs.Common.{rules};
ghost use Rattle.std.specs.Cmp.{partial_order_from_own_ties};
ghost use Rattle.std.specs.Cmp.Rules.{comparing};
ghost use Rattle.std.specs.Cmp.Lexicographic.{slice_cmp, pointwise};
ghost use Rattle.std.specs.Ordering.{nat_cmp, on, as_partial_cmp};
ghost use Rattle.assise_names.specs.Name.{is_name, name_of, is_barred, is_dots};
ghost use Rattle.assise_names.specs.Path.{GivesPath};
ghost use Rattle.assise_names.specs.declared.path.PathFault.{PathFault};

use crate::path::PathFault;
use crate::text::Text;
use std::alloc::{AllocError, Global};
use std::cmp::Ordering;
use std::fmt;
use std::fmt::{Display, Formatter};
use std::marker::Model;

/// The most bytes of a name.
pub const MOST_NAME_BYTES: usize = 255;

/// The name of an entry of a directory: 1 to 255 bytes of UTF-8 without a slash or a NUL, and neither `.` nor
/// `..` (POSIX.1-2017, base definitions, chapter 3: Filename). Names are ordered by their bytes. At most 16 bytes lie in the
/// name itself, and copies of a longer name share them.
#[derive(Debug, Drop)]
pub struct Name {
    text: Text,
}

impl Model for Name {
    ghost use Rattle.std.specs.Prelude.{List, ℕ, IsTrue};
    ghost use Rattle.assise_names.specs.Texts.{text_bytes};

    ghost Value = { List ℕ };

    ghost use Rattle.assise_names.specs.Name.{is_name};

    ghost view = { λ n. text_bytes n.text };

    ghost invariant = { λ n. IsTrue (is_name (text_bytes n.text)) };
}

impl Name {
    /// The name that a text is. A text without bytes is [`PathFault::EmptyName`], one of more than 255 bytes
    /// [`PathFault::NameTooLong`], and any other that is no name [`PathFault::BadName`], where memory is wanting too.
    pub fn parse(alloc: Global, text: &str) -> Result<Name, PathFault>
        ensures first_fault { GivesPath result (name_of text.now) }
        ensures faults { (fault : PathFault) → name_of text.now ≡ Err fault → result ≡ Err fault }
        ensures lawful { IfOk result (λ name. IsTrue (is_name name)) }
    {
        check(text)?;
        let text = Text::new(alloc, text)?;
        Ok(Name { text })
    }

    /// The name that a text is which is one.
    pub fn of_text(alloc: Global, text: &str) -> Result<Name, AllocError>
        requires { IsTrue (is_name text.now) }
        ensures name { IfOk result (λ name. name ≡ text.now) }
    {
        Ok(Name {
            text: Text::new(alloc, text)?,
        })
    }

    /// The name's text.
    pub fn as_str(&self) -> &str
        ensures text { result.now ≡ self.now }
        ensures lawful { IsTrue (is_name self.now) }
    {
        self.text.as_str()
    }

    /// An equal value. It takes no memory, and fails only where the bytes are shared and the count of those that share them
    /// is full.
    pub fn copy(&self) -> Result<Name, AllocError>
        ensures equal { IfOk result (λ copied. copied ≡ self.now) }
    {
        Ok(self.clone()?)
    }
}

impl Clone for Name {
    ghost is_clone = { λ name cloned. cloned ≡ name };

    fn clone(&self) -> Result<Name, AllocError> {
        Ok(Name {
            text: self.text.copy()?,
        })
    }
}

/// Whether a text is a name.
pub fn is_name(text: &str) -> bool
    ensures { result ≡ is_name text.now }
{
    check(text).is_ok()
}

/// Equal names. None take no memory.
pub(crate) fn copy_names(alloc: Global, names: &[Name]) -> Result<Vec<Name>, AllocError>
    ensures equal { IfOk result (λ copied. copied.items ≡ names.now) }
    ensures none { length names.now ≡ 0 → IsOk result }
{
    let mut copied = Vec::with_capacity(alloc, names.len())?;
    for name in names {
        copied.push(name.copy()?)?;
    }
    Ok(copied)
}

/// What is wrong with a text as a name.
pub(crate) fn check(text: &str) -> Result<(), PathFault>
    ensures { MatchResult result (λ _. name_of text.now ≡ Ok text.now)
        (λ fault. name_of text.now ≡ Err fault) }
{
    if text.is_empty() {
        return Err(PathFault::EmptyName);
    }
    if text.len() > MOST_NAME_BYTES {
        return Err(PathFault::NameTooLong);
    }
    if has_barred(text.as_bytes()) || is_dots(text.as_bytes()) {
        return Err(PathFault::BadName);
    }
    Ok(())
}

/// Whether a slash or a NUL is among the bytes.
fn has_barred(bytes: &[u8]) -> bool
    ensures { result ≡ list_any is_barred bytes.now }
{
    bytes.iter().any(|b| *b == b'/' || *b == 0)
}

/// Whether a text is `.` or `..`.
fn is_dots(bytes: &[u8]) -> bool
    ensures { result ≡ is_dots bytes.now }
{
    match bytes {
        [one] => *one == b'.',
        [one, two] => *one == b'.' && *two == b'.',
        _ => false,
    }
}

impl Display for Name {
    ghost output = { λ name. Some name };

    fn fmt<W: fmt::Write>(&self, f: &mut Formatter<W>) -> fmt::Result {
        let text = self.text.as_str();
        write!(f, "{text}")
    }
}

impl PartialEq for Name {
    ghost eq = { on (λ n. n) (pointwise ◌==◌) };

    ghost laws = { Prim.search (comparing, rules) };

    fn eq(&self, other: &Name) -> bool {
        self.text.as_str() == other.text.as_str()
    }
}

impl Eq for Name {
    ghost laws = { Prim.search (comparing, rules) };
}

impl Ord for Name {
    ghost cmp = { on (λ n. n) (slice_cmp nat_cmp) };

    ghost total = { Prim.search (comparing, rules) };

    ghost matches_partial_cmp = { Prim.search (comparing, rules) };

    ghost matches_eq = { Prim.search (comparing, rules) };

    fn cmp(&self, other: &Name) -> Ordering {
        self.text.as_str().cmp(&other.text.as_str())
    }
}

impl PartialOrd for Name {
    ghost partial_cmp = { as_partial_cmp (on (λ n. n) (slice_cmp nat_cmp)) };

    ghost laws = { partial_order_from_own_ties (Prim.search (comparing, rules)) (Prim.search (comparing, rules)) };

    fn partial_cmp(&self, other: &Name) -> Option<Ordering> {
        Some(self.cmp(other))
    }
}
