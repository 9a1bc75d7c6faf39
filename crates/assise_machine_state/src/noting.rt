//! Answers of those who were asked for leases.
ghost use Rattle.std.specs.Prelude.{◌≡◌, ◌+◌, ◌≤◌, ◌++◌, length, vec_capacity};

use assise_lease_table::lease::Asked;
use std::vec::IntoIter;

/// Notes answers, for which there is room.
pub fn note_all(cuts: &mut Vec<Asked>, asked: IntoIter<Asked>)
    requires room { length cuts.old.items + length asked.rest.items ≤ vec_capacity cuts.old }
    ensures { cuts.new.items ≡ cuts.old.items ++ asked.rest.items }
{
    for answer in asked {
        cuts.push_reserved(answer);
    }
}
