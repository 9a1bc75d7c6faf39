//! Laws of what is kept beside an area. Each function does nothing: its contract is the law.
ghost use Rattle.std.specs.Prelude.{◌≡◌, ◌++◌, ◌+◌, List, length, ℕ};
ghost use Rattle.assise_record.specs.LogRecord.{LogRecord};
ghost use Rattle.assise_record.specs.Records.{all_effects};
ghost use Rattle.assise_inode_table.specs.Contents.{InodeMap};
ghost use Rattle.assise_inode_table.specs.Effects.{SameNetEffect, contains, touched};
ghost use Rattle.assise_digest.specs.Pending.{StandsFor, all_noted};
ghost use Rattle.assise_digest.specs.declared.pending.Pending.{Pending};

/// What is kept stands for records that give way to others with the same net effect on the same inodes too, once their numbers
/// are noted: no value changes.
pub fn what_is_kept_stands_for_what_is_left()
    ensures { (p : Pending) (m : InodeMap) (n : ℕ) (fs old new : List LogRecord) →
        StandsFor p m n (fs ++ old) → SameNetEffect (all_effects new) (all_effects old) →
        ((i : ℕ) → contains (touched (all_effects new)) i ≡ contains (touched (all_effects old)) i)
        → StandsFor (record { inodes = p.inodes; last = all_noted p.last (n + length fs) new }) m n
        (fs ++ new) }
{}
