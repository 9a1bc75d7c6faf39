//! Laws of frames and of groups of records. Each function does nothing: its contract is the law.
ghost use Rattle.std.specs.Prelude.{◌≡◌, ◌↔◌, ◌<◌, ◌≤◌, ◌++◌, ◌∷◌, [], All, Err, IsTrue, List, None, Ok, flat_map, length, map, true, ℕ};
ghost use Rattle.std.specs.List.{slice_index_or};
ghost use Rattle.assise_record.specs.Groups.{AllHaveEffects, AreGroups, all_coalesced, all_marks, all_records, are_whole, coalesced_group, groups_of, were};
ghost use Rattle.assise_record.specs.LogFrame.{LogFrame};
ghost use Rattle.assise_record.specs.Reading.{frame_at};
ghost use Rattle.assise_record.specs.Spelling.{BeginsWith, SpellsFrame, header_of, record_spelling};
ghost use Rattle.assise_record.specs.Unfinished.{IsUnfinished};
ghost use Rattle.assise_record.specs.declared.effect.Effect.{Effect};
ghost use Rattle.assise_record.specs.contracts.effect.EffectPartialEq.TheImpl.{eq-value as effects_equal};
ghost use Rattle.assise_record.specs.contracts.record.RecordPartialEq.TheImpl.{eq-value as records_equal};
ghost use Rattle.assise_record.specs.LogRecord.{LogRecord};
ghost use Rattle.assise_record.specs.Records.{call_of};
ghost use Rattle.assise_record.specs.declared.fault.FrameFault.TheVariants.{BadVersion, Short};

/// The spelling of a frame is read as this frame again, whatever follows it.
pub fn reads_again()
    ensures { (newest : ℕ) (f : LogFrame) (text rest : List ℕ) → SpellsFrame newest text f →
        frame_at newest (text ++ rest) ≡ Ok (f, length text) }
{}

/// Where bytes are read as a frame, they begin with its spelling.
pub fn what_is_read_is_spelled()
    ensures { (newest : ℕ) (bytes : List ℕ) (f : LogFrame) (n : ℕ) → newest ≤ 2 →
        All (λ b. b < 256) bytes → frame_at newest bytes ≡ Ok (f, n) → BeginsWith newest bytes f n }
{}

/// A frame has one spelling, and bytes spell one frame at most.
pub fn one_spelling()
    ensures spelling { (newest : ℕ) (f : LogFrame) (s t : List ℕ) → SpellsFrame newest s f →
        SpellsFrame newest t f → s ≡ t }
    ensures frame { (newest : ℕ) (f g : LogFrame) (text : List ℕ) → SpellsFrame newest text f →
        SpellsFrame newest text g → f ≡ g }
{}

/// No spelling goes on from another.
pub fn no_spelling_begins_another()
    ensures { (newest : ℕ) (f g : LogFrame) (text rest : List ℕ) → SpellsFrame newest text f →
        SpellsFrame newest (text ++ rest) g → rest ≡ [] }
{}

/// Which version is the newest changes nothing but what is refused as newer: a version above it is
/// [`FrameFault::BadVersion`](crate::fault::FrameFault::BadVersion), whatever follows, and what isn't that is read the same
/// by all that know newer ones.
pub fn a_newer_version_reads_more()
    ensures above { (newest version : ℕ) (rest : List ℕ) → newest < version →
        frame_at newest (65 ∷ 83 ∷ version ∷ rest) ≡ Err BadVersion }
    ensures read { (newest later : ℕ) (bytes : List ℕ) → newest ≤ later →
        ¬ (frame_at newest bytes ≡ Err BadVersion) → frame_at later bytes ≡ frame_at newest bytes }
    ensures spelled { (newest later : ℕ) (f : LogFrame) (text : List ℕ) → newest ≤ later →
        SpellsFrame newest text f → SpellsFrame later text f }
{}

/// In version 1 there are no marks: behind the header stand the records alone.
pub fn version_1_has_no_marks()
    ensures marks { (f : LogFrame) (text : List ℕ) → SpellsFrame 1 text f → f.last ≡ [] }
    ensures spelling { (f : LogFrame) (text : List ℕ) → SpellsFrame 1 text f →
        text ≡ 65 ∷ 83 ∷ 1 ∷ (header_of f (length (flat_map (record_spelling None) f.records)) ++
        flat_map (record_spelling None) f.records) }
{}

/// More bytes change nothing behind a frame or a fault, but only what is Short. A fault isn't found at the first byte
/// with which no frame can begin any more: a field is looked at once all its bytes are there, and a body once it is whole.
pub fn only_what_is_short_changes()
    ensures { (newest : ℕ) (bytes more : List ℕ) → ¬ (frame_at newest bytes ≡ Err Short) →
        frame_at newest (bytes ++ more) ≡ frame_at newest bytes }
{}

/// Short are exactly the bytes that end inside a header whose whole fields are lawful, or behind a lawful header before
/// the end of the body that it announces, whatever stands in that.
pub fn what_is_short_is_unfinished()
    ensures { (newest : ℕ) (bytes : List ℕ) →
        (frame_at newest bytes ≡ Err Short) ↔ IsUnfinished newest bytes }
{}

/// A frame that is cut is Short, wherever it is cut.
pub fn a_cut_frame_is_short()
    ensures { (newest : ℕ) (f : LogFrame) (prefix rest : List ℕ) → newest ≤ 2 →
        All (λ b. b < 256) prefix → 0 < length rest → SpellsFrame newest (prefix ++ rest) f →
        frame_at newest prefix ≡ Err Short }
{}

/// Effects compare equal exactly where they are the same, and so do records.
pub fn equal_is_the_same()
    ensures effects { (a b : Effect) → IsTrue (effects_equal.it a b) ↔ (a ≡ b) }
    ensures records { (r s : LogRecord) → IsTrue (records_equal.it r s) ↔ (r ≡ s) }
{}

/// Records in groups of at most 64 are all of them, in groups. The marks of what is left say where whole groups end: where the
/// next begins, or nothing comes. There the call that comes next is the one that came next.
pub fn records_are_cut_into_groups()
    ensures all { (n : ℕ) (rs : List LogRecord) → length rs ≤ n →
        all_records (groups_of n rs) ≡ rs }
    ensures groups { (n : ℕ) (rs : List LogRecord) → AllHaveEffects rs →
        AreGroups (groups_of n rs) }
    ensures marks { (gs : List (List LogRecord)) (k : ℕ) → AreGroups gs →
        k ≤ length (all_coalesced gs) → slice_index_or (all_marks (map coalesced_group gs)) k true ≡
        are_whole gs k }
    ensures calls { (gs : List (List LogRecord)) (k next : ℕ) → AreGroups gs → are_whole gs k ≡ true
        → call_of (all_coalesced gs) k next ≡ call_of (all_records gs) (were gs k) next }
{}
