//! A list of names as one value.
ghost use Rattle.std.specs.Prelude.{◌≡◌, ◌==◌, ◌↔◌, IfOk, IsOk, IsTrue, length};
ghost use Rattle.std.proofs.Common.{rules};
ghost use Rattle.std.specs.Cmp.Rules.{comparing};
ghost use Rattle.std.specs.Cmp.Lexicographic.{pointwise, slice_cmp};
ghost use Rattle.std.specs.List.Sorted.{IsStrictlySortedBy};
ghost use Rattle.std.specs.Map.{keys_of};
ghost use Rattle.std.specs.Ordering.{nat_cmp, on};

use crate::name::{Name, copy_names};
use std::alloc::{AllocError, Global};
use std::collections::BTreeMap;
use std::marker::Model;

/// Names that a call lists, ascending strictly by their bytes. A contract sees the list of them, and nothing of where
/// they lie.
#[derive(Debug, Drop)]
pub struct NameList {
    names: Option<Box<Vec<Name>>>,
}

impl Model for NameList {
    ghost use Rattle.std.specs.Prelude.{List, ℕ};
    ghost use Rattle.assise_names.specs.Held.{HasSomeNames, names_held};

    ghost Value = { List (List ℕ) };

    ghost view = { λ l. names_held l.names };

    ghost use Rattle.std.specs.Cmp.Lexicographic.{slice_cmp};
    ghost use Rattle.std.specs.List.Sorted.{IsStrictlySortedBy};
    ghost use Rattle.std.specs.Ordering.{nat_cmp};

    ghost invariant = { λ l. IsStrictlySortedBy (slice_cmp nat_cmp) (names_held l.names) × HasSomeNames l.names };
}

impl NameList {
    /// Whether names ascend strictly by their bytes, as those of a list do.
    pub fn ascend(names: &[Name]) -> bool
        ensures { IsTrue result ↔ IsStrictlySortedBy (slice_cmp nat_cmp) names.now }
    {
        for i in 1..names.len() {
            if names[i - 1] >= names[i] {
                return false;
            }
        }
        true
    }

    /// The names of a vector, which ascend, without a copy of them.
    pub fn from_vec(alloc: Global, names: Vec<Name>) -> Result<NameList, AllocError>
        requires ascending { IsStrictlySortedBy (slice_cmp nat_cmp) names.items }
        ensures names { IfOk result (λ list. list ≡ names.items) }
    {
        if names.is_empty() {
            return Ok(NameList { names: None });
        }
        Ok(NameList {
            names: Some(Box::new(alloc, names)?),
        })
    }

    /// The keys of an ordered map, which ascend by their bytes.
    pub fn of_keys<V: Drop>(alloc: Global, map: &BTreeMap<Name, V>) -> Result<NameList, AllocError>
        ensures keys { IfOk result (λ names. names ≡ keys_of map.now.entries) }
        ensures ascending { IfOk result (λ names. IsStrictlySortedBy (slice_cmp nat_cmp) names) }
    {
        let mut names = Vec::with_capacity(alloc, map.len())?;
        for name in map.keys() {
            names.push(name.copy()?)?;
        }
        NameList::from_vec(alloc, names)
    }

    /// The names as a slice.
    pub fn as_slice(&self) -> &[Name]
        ensures names { result.now ≡ self.now }
        ensures ascending { IsStrictlySortedBy (slice_cmp nat_cmp) self.now }
    {
        match &self.names {
            Some(names) => names.as_slice(),
            None => &[],
        }
    }

    /// An equal value. No names take no memory.
    pub fn copy(&self, alloc: Global) -> Result<NameList, AllocError>
        ensures equal { IfOk result (λ copied. copied ≡ self.now) }
        ensures none { length self.now ≡ 0 → IsOk result }
    {
        let Some(names) = &self.names else {
            return Ok(NameList { names: None });
        };
        let copied = copy_names(alloc, names.as_slice())?;
        Ok(NameList {
            names: Some(Box::new(alloc, copied)?),
        })
    }
}

impl PartialEq for NameList {
    ghost eq = { on (λ l. l) (pointwise (pointwise ◌==◌)) };

    ghost laws = { Prim.search (comparing, rules) };

    fn eq(&self, other: &NameList) -> bool {
        self.as_slice() == other.as_slice()
    }
}

impl Eq for NameList {
    ghost laws = { Prim.search (comparing, rules) };
}
