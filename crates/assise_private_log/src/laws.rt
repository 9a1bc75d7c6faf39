//! Laws of logs. Each function does nothing: its contract is the law.
ghost use Rattle.std.specs.Prelude.{◌≡◌, ◌≢◌, ◌+◌, ◌-◌, ◌<◌, ◌≤◌, ◌⊎◌, ◌++◌, length, take, None, Option, Some, true, false, ℕ};
ghost use Rattle.assise_record.specs.Groups.{AllHaveEffects, all_coalesced, are_whole, groups_of};
ghost use Rattle.assise_record.specs.LogRecord.{LogRecord};
ghost use Rattle.assise_private_log.specs.Borders.{IsNextBorder, IsWholeCount, group_end, whole_count};
ghost use Rattle.assise_private_log.specs.Groups.{regrouped};
ghost use Rattle.assise_private_log.specs.NumberedLog.{HasOpenGroup, IsNumberedLog, NumberedLog, end, is_border, record_at, records_from, with_record, without_prefix, without_tail};
ghost use Rattle.assise_private_log.specs.Touches.{Covers, IsLastTouch, touches};

/// The next record gets the number behind the last, and each other number is that of the record that it was.
pub fn an_appended_record_has_the_next_number()
    ensures appended { (l : NumberedLog) (r : LogRecord) →
        record_at (with_record l r) (end l) ≡ Some r }
    ensures others { (l : NumberedLog) (r : LogRecord) (number : ℕ) → number ≢ end l →
        record_at (with_record l r) number ≡ record_at l number }
{}

/// When records go from the front, those that stay keep their numbers, and so does the next one.
pub fn what_is_not_dropped_keeps_its_number()
    ensures dropped { (l : NumberedLog) (to number : ℕ) → number < to →
        record_at (without_prefix l to) number ≡ None }
    ensures others { (l : NumberedLog) (to number : ℕ) → l.first ≤ to → to ≤ number →
        record_at (without_prefix l to) number ≡ record_at l number }
    ensures next { (l : NumberedLog) (to : ℕ) → l.first ≤ to → to ≤ end l →
        end (without_prefix l to) ≡ end l }
{}

/// When records go from the end, those that stay keep their numbers, and the next one gets the number of the cut.
pub fn what_is_not_cut_keeps_its_number()
    ensures cut { (l : NumberedLog) (from number : ℕ) → from ≤ number →
        record_at (without_tail l from) number ≡ None }
    ensures others { (l : NumberedLog) (from number : ℕ) → number < from →
        record_at (without_tail l from) number ≡ record_at l number }
    ensures next { (l : NumberedLog) (from : ℕ) → l.first ≤ from → from ≤ end l →
        end (without_tail l from) ≡ from }
{}

/// What touches an inode is a record of the log.
pub fn what_touches_is_in_the_log()
    ensures first { (l : NumberedLog) (number inode : ℕ) → touches l number inode ≡ true →
        l.first ≤ number }
    ensures end { (l : NumberedLog) (number inode : ℕ) → touches l number inode ≡ true →
        number < end l }
{}

/// A log and an inode have one last record that touches it, or none.
pub fn the_last_touch_is_one()
    ensures { (l : NumberedLog) (inode : ℕ) (a b : Option ℕ) → IsLastTouch l inode a →
        IsLastTouch l inode b → a ≡ b }
{}

/// A group ends at the next border, and whole groups at one.
pub fn groups_end_at_borders()
    ensures next { (l : NumberedLog) (number : ℕ) → IsNextBorder l number (group_end l number) }
    ensures whole { (l : NumberedLog) (from most : ℕ) →
        IsWholeCount l from most (whole_count l from most) }
{}

/// A group has at most 64 records: among as many, or among all that there are from a number on, are whole groups.
pub fn a_group_has_at_most_64_records()
    ensures { (l : NumberedLog) (from most : ℕ) → IsNumberedLog l → 0 < most →
        (64 ≤ most) ⊎ (end l ≤ from + most) → 0 < whole_count l from most }
{}

/// Borders stay where records go from the front or from the end, and where one comes as a group by itself.
pub fn borders_stay()
    ensures prefix { (l : NumberedLog) (to number : ℕ) → l.first ≤ to →
        is_border l number ≡ true → is_border (without_prefix l to) number ≡ true }
    ensures tail { (l : NumberedLog) (from number : ℕ) →
        is_border l number ≡ true → is_border (without_tail l from) number ≡ true }
    ensures appended { (l : NumberedLog) (r : LogRecord) (number : ℕ) → IsNumberedLog l →
        is_border (with_record l r) number ≡ is_border l number }
{}

/// A log whose borders are those of another, and whose end lies inside a group of the other, can take one more record of it
/// in.
pub fn a_group_is_taken_in_record_by_record()
    ensures { (other l : NumberedLog) → IsNumberedLog other → is_border other (end l) ≡ false →
        ((number : ℕ) → number < end l → is_border other number ≡ true →
        is_border l number ≡ true) →
        HasOpenGroup l }
{}

/// A cut that is raised to the end of its group is one.
pub fn a_raised_cut_covers()
    ensures { (l : NumberedLog) (inode cut : ℕ) → IsNumberedLog l →
        Covers l inode cut → Covers l inode (group_end l cut) }
{}

/// Groups in place of the last records: they are those that the records are cut into, coalesced, and no more records. Before
/// them borders stay, and among them a border is where records are whole groups.
pub fn the_last_records_give_way_to_groups()
    ensures records { (l : NumberedLog) (from n : ℕ) → length (records_from l from) ≤ n →
        (regrouped l from).records ≡
        take (from - l.first) l.records ++ all_coalesced (groups_of n (records_from l from)) }
    ensures shorter { (l : NumberedLog) (from : ℕ) →
        length (regrouped l from).records ≤ length l.records }
    ensures before { (l : NumberedLog) (from number : ℕ) → IsNumberedLog l → from ≤ end l →
        number < from → is_border (regrouped l from) number ≡ is_border l number }
    ensures among { (l : NumberedLog) (from n k : ℕ) → IsNumberedLog l → l.first ≤ from →
        from ≤ end l →
        AllHaveEffects (records_from l from) → length (records_from l from) ≤ n →
        from + k ≤ end (regrouped l from) →
        is_border (regrouped l from) (from + k) ≡ are_whole (groups_of n (records_from l from)) k }
{}
