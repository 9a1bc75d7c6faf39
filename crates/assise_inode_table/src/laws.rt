//! Laws of inodes, of what effects make of them, and of calls over them. Each function does nothing: its contract is
//! the law.
ghost use Rattle.std.specs.Prelude.{◌≡◌, ◌++◌, ◌∷◌, ◌≤◌, ◌<◌, ◌^◌, ◌≢◌, ◌||◌, Bool, List, None, Ok, Option, Some, [], false, filter, length, true, ℕ};
ghost use Rattle.std.specs.List.{list_any};
ghost use Rattle.std.specs.FinMap as map;
ghost use Rattle.assise_names.specs.declared.call.Op.{Op};
ghost use Rattle.assise_record.specs.declared.effect.Effect.{Effect};
ghost use Rattle.assise_record.specs.Coalesced.{coalesced};
ghost use Rattle.assise_record.specs.Groups.{AllHaveEffects, coalesced_group, left_of};
ghost use Rattle.assise_record.specs.LogRecord.{LogRecord};
ghost use Rattle.assise_record.specs.Records.{Ascending, all_effects, call_of};
ghost use Rattle.assise_seq_tree.specs.Answer.{answer};
ghost use Rattle.assise_seq_tree.specs.Runs.{AreAnswered, tree_after_calls};
ghost use Rattle.assise_seq_tree.specs.Tree.{IsOrdered, Tree, at, dir, file, no_entries, opening as opening_tree, put, without};
ghost use Rattle.assise_inode_table.specs.Calls.{step};
ghost use Rattle.assise_inode_table.specs.Contents.{Content, InodeMap, Links, Values, directory, regular, values};
ghost use Rattle.assise_inode_table.specs.Effects.{SameNetEffect, after, applied, contains, makes, touched, value_after};
ghost use Rattle.assise_inode_table.specs.Interaction.{AgreeOn, Step};
ghost use Rattle.assise_inode_table.specs.Late.{NoneBetween, raised_at, late_value};
ghost use Rattle.assise_inode_table.specs.Numbers.{AnsweredCall, inode_number, inodes_made, makes_inode, numbered, numbered_call};
ghost use Rattle.assise_inode_table.specs.Opening.{opening_inodes};
ghost use Rattle.assise_inode_table.specs.Reach.{children, reach};
ghost use Rattle.assise_inode_table.specs.Spelled.{AddsLink, AgreeBut, RemovesLink, ShareNone, Spells, SpellsFrom};
ghost use Rattle.assise_inode_table.specs.Traces.{AllMakeNew, Each, NumberedCall, NumbersAscend, below, exchanges, ops, trace, values_after_calls, window};
ghost use Rattle.assise_inode_table.specs.Unseen.{Unseen};
ghost use Rattle.assise_inode_table.specs.Whole.{CanBeMadeWhole};
ghost use Rattle.assise_inode_table.specs.WrongRule.{wrongly_coalesced};

/// A map spells at most one tree. The names in each of its directories ascend.
pub fn a_map_spells_one_tree()
    ensures one { (v : Values) (t u : Tree) → Spells v t → Spells v u → t ≡ u }
    ensures ordered { (v : Values) (t : Tree) → Spells v t → IsOrdered t }
{}

/// What no path reaches may change.
pub fn what_is_not_reached_may_change()
    ensures { (v w : Values) (r : ℕ) (t : Tree) → SpellsFrom v r t →
        ((p : List (List ℕ)) (j : ℕ) → reach (children v) r p ≡ Ok j → w j ≡ v j) →
        SpellsFrom w r t }
{}

/// Where the bytes of a file change, the tree changes at the path of that file, and nowhere else.
pub fn a_changed_file_changes_the_tree()
    ensures { (v w : Values) (t : Tree) (p : List (List ℕ)) (i : ℕ) (bytes new : List ℕ) →
        Spells v t → reach (children v) 0 p ≡ Ok i → v i ≡ Some (regular bytes) →
        w i ≡ Some (regular new) → AgreeBut i v w → Spells w (put t p (file new)) }
{}

/// A tree that shares no inode with another may be linked into a directory of that one, under a name that is not
/// there. The tree then stands at the path of the new entry.
pub fn a_tree_apart_may_be_linked()
    ensures { (v w : Values) (r d i : ℕ) (t u : Tree) (p : List (List ℕ)) (name : List ℕ)
        (links : Links) → SpellsFrom v r t → SpellsFrom v i u → ShareNone (children v) r i →
        reach (children v) r p ≡ Ok d → AddsLink v w d name i links →
        SpellsFrom w r (put t (p ++ name ∷ []) u) }
{}

/// A new entry for a new inode: an empty file, or an empty directory, stands at its path.
pub fn a_new_inode_stands_at_its_entry()
    ensures new_file { (v w u : Values) (d i : ℕ) (t : Tree) (p : List (List ℕ)) (name : List ℕ)
        (links : Links) → Spells v t → v i ≡ None → u i ≡ Some (regular []) → AgreeBut i v u →
        reach (children v) 0 p ≡ Ok d → AddsLink u w d name i links →
        Spells w (put t (p ++ name ∷ []) (file [])) }
    ensures new_directory { (v w u : Values) (d i : ℕ) (t : Tree) (p : List (List ℕ))
        (name : List ℕ) (links : Links) → Spells v t → v i ≡ None →
        u i ≡ Some (directory map.empty) → AgreeBut i v u → reach (children v) 0 p ≡ Ok d →
        AddsLink u w d name i links → Spells w (put t (p ++ name ∷ []) (dir no_entries)) }
{}

/// An entry that is taken out leaves two trees that share no inode: the rest, and what the entry held. Where that
/// was a file, or a directory without entries, and its inode goes too, the rest is all that is spelled.
pub fn an_entry_taken_out_leaves_two_trees()
    ensures rest { (v w : Values) (r d i : ℕ) (t : Tree) (p : List (List ℕ)) (name : List ℕ)
        (links : Links) → SpellsFrom v r t → reach (children v) r p ≡ Ok d →
        RemovesLink v w d name i links → SpellsFrom w r (without t (p ++ name ∷ [])) }
    ensures held { (v w : Values) (r d i : ℕ) (t u : Tree) (p : List (List ℕ)) (name : List ℕ)
        (links : Links) → SpellsFrom v r t → reach (children v) r p ≡ Ok d →
        RemovesLink v w d name i links → at t (p ++ name ∷ []) ≡ Ok u → SpellsFrom w i u }
    ensures disjoint { (v w : Values) (r d i : ℕ) (t : Tree) (p : List (List ℕ)) (name : List ℕ)
        (links : Links) → SpellsFrom v r t → reach (children v) r p ≡ Ok d →
        RemovesLink v w d name i links → ShareNone (children w) r i }
    ensures freed { (v w u : Values) (d i : ℕ) (t : Tree) (p : List (List ℕ)) (name : List ℕ)
        (links : Links) → Spells v t → reach (children v) 0 p ≡ Ok d →
        RemovesLink v u d name i links → ((next : List ℕ) (j : ℕ) →
        reach (children v) i (next ∷ []) ≡ Ok j → ⊥) → w i ≡ None → AgreeBut i u w →
        Spells w (without t (p ++ name ∷ [])) }
{}

/// Effects are made one after another. An inode that none of them touches keeps its value. What is made of a map is
/// what is made of each of its inodes.
pub fn effects_are_made_one_after_another()
    ensures lists { (i : ℕ) (old : Option Content) (es fs : List Effect) →
        value_after i old (es ++ fs) ≡ value_after i (value_after i old es) fs }
    ensures untouched { (i : ℕ) (old : Option Content) (es : List Effect) →
        contains (touched es) i ≡ false → value_after i old es ≡ old }
    ensures maps { (m : InodeMap) (e : Effect) (i : ℕ) →
        map.get (applied m e) i ≡ value_after i (map.get m i) (e ∷ []) }
    ensures net { (v : Values) (es fs : List Effect) (i : ℕ) → SameNetEffect es fs →
        after v es i ≡ after v fs i }
{}

/// What a call answers, visits and changes depends on the inodes alone that it visits.
pub fn a_step_depends_on_what_it_visits()
    ensures { (v w : Values) (op : Op) (fresh : ℕ) → AgreeOn (step v op fresh).visits v w →
        step v op fresh ≡ step w op fresh }
{}

/// A call has at most four effects. It makes no inode but its own, and that only as a create or a mkdir that is done.
pub fn a_call_has_few_effects()
    ensures few { (v : Values) (op : Op) (fresh : ℕ) → length (step v op fresh).effects ≤ 4 }
    ensures own { (v : Values) (op : Op) (fresh i : ℕ) →
        list_any (makes i) (step v op fresh).effects ≡ true →
        (i ≡ fresh) × (makes_inode op (step v op fresh).reply ≡ true) }
{}

/// Over inodes that spell a tree a call answers what the tree answers, and after its effects they spell the tree
/// after the call, if the inode that it makes was not there.
pub fn a_step_is_the_call_on_the_tree()
    ensures reply { (v : Values) (t : Tree) (op : Op) (fresh : ℕ) → Spells v t →
        (step v op fresh).reply ≡ (answer t op).0 }
    ensures spelled { (v : Values) (t : Tree) (op : Op) (fresh : ℕ) → Spells v t →
        (list_any (makes fresh) (step v op fresh).effects ≡ true → v fresh ≡ None) →
        Spells (after v (step v op fresh).effects) (answer t op).1 }
{}

/// Calls that no other client saw may be taken out of a run: from each client a tail of its calls, none of them below
/// a threshold from which on no other client visits or changes what a call changed. The rest is a run, with the same
/// steps, and its inodes spell its tree. The numbers of each client have to ascend along the run, the calls carry the
/// numbers of the inodes that they make, and no inode is there when it is made.
pub fn tails()
    ensures run { (v : Values) (t : Tree) (a b : ℕ → ℕ) (xs : List NumberedCall) → Spells v t →
        AreAnswered t (exchanges xs) → NumbersAscend xs → AllMakeNew v xs → Unseen a (trace v xs) →
        ((c : ℕ) → a c ≤ b c) → AreAnswered t (exchanges (filter (below b) xs)) }
    ensures made { (v : Values) (t : Tree) (a b : ℕ → ℕ) (xs : List NumberedCall) → Spells v t →
        AreAnswered t (exchanges xs) → NumbersAscend xs → AllMakeNew v xs → Unseen a (trace v xs) →
        ((c : ℕ) → a c ≤ b c) → AllMakeNew v (filter (below b) xs) }
    ensures steps { (v : Values) (a b : ℕ → ℕ) (xs : List NumberedCall) → NumbersAscend xs →
        Unseen a (trace v xs) → ((c : ℕ) → a c ≤ b c) →
        trace v (filter (below b) xs) ≡ filter (λ x. below b x.0) (trace v xs) }
    ensures spelled { (v : Values) (t : Tree) (a b : ℕ → ℕ) (xs : List NumberedCall) → Spells v t →
        AreAnswered t (exchanges xs) → NumbersAscend xs → AllMakeNew v xs → Unseen a (trace v xs) →
        ((c : ℕ) → a c ≤ b c) → Spells (values_after_calls v (filter (below b) xs))
        (tree_after_calls t (ops (filter (below b) xs))) }
{}

/// Changes may come late where nobody touched the same inodes in between: those of late calls after all those of
/// early ones give the value that they give in the order of the calls. So the next calls of a client, which no other
/// client saw, may come after all others.
pub fn unseen_changes_may_come_late()
    ensures any { (early late : NumberedCall → Bool) (i : ℕ) (old : Option Content)
        (xs : List (NumberedCall × Step)) → NoneBetween early late i xs →
        late_value (λ x. early x || late x) i old xs ≡ late_value late i
        (late_value early i old xs) xs }
    ensures client { (v : Values) (a b : ℕ → ℕ) (c k i : ℕ) (old : Option Content)
        (xs : List NumberedCall) → Unseen a (trace v xs) → NumbersAscend xs → a c ≤ b c → b c ≤ k →
        late_value (below (raised_at b c k)) i old (trace v xs) ≡ late_value (window c (b c) k) i
        (late_value (below b) i old (trace v xs)) (trace v xs) }
{}

/// The inodes at the opening spell the opening tree.
pub fn the_opening_spells_the_opening_tree()
    ensures { Spells (values opening_inodes) opening_tree }
{}

/// Two inodes have two numbers: those of different clients, and of one client those that it made one after another.
/// None has the root's.
pub fn each_inode_has_a_number_of_its_own()
    ensures own { (c d j k : ℕ) → j < 2 ^ 32 → k < 2 ^ 32 → inode_number c j ≡ inode_number d k →
        (c ≡ d) × (j ≡ k) }
    ensures root { (c k : ℕ) → 0 < c → inode_number c k ≢ 0 }
{}

/// A call more has the number that follows from the calls before it. In a run from the opening each call that makes an
/// inode makes a new one.
pub fn numbered_calls_make_new_inodes()
    ensures more { (xs : List AnsweredCall) (x : AnsweredCall) →
        numbered (xs ++ x ∷ []) ≡ numbered xs ++ numbered_call xs x ∷ [] }
    ensures new { (xs : List AnsweredCall) → Each (λ x. 0 < x.client) xs →
        ((c : ℕ) → inodes_made c xs < 2 ^ 32) → AreAnswered opening_tree (exchanges (numbered xs)) →
        AllMakeNew (values opening_inodes) (numbered xs) }
{}

/// Effects that a later one overrides may be left out: every inode gets the same value from every old one, and the same inodes
/// are touched.
pub fn what_is_overridden_counts_for_nothing()
    ensures net { (es : List Effect) → SameNetEffect (coalesced es) es }
    ensures touch { (es : List Effect) (i : ℕ) →
        contains (touched (coalesced es)) i ≡ contains (touched es) i }
{}

/// It isn't so where an unlink makes the link of another name of no account.
pub fn an_unlink_counts_for_its_own_name()
    ensures { ((es : List Effect) → SameNetEffect (wrongly_coalesced es) es) → ⊥ }
{}

/// A coalesced group keeps the group's net effect and what it touches, begins with the same call, has no more records, and
/// their calls ascend.
pub fn a_coalesced_group_stands_for_the_group()
    ensures effects { (rs : List LogRecord) →
        all_effects (coalesced_group rs) ≡ coalesced (all_effects rs) }
    ensures net { (rs : List LogRecord) → SameNetEffect (all_effects (coalesced_group rs))
        (all_effects rs) }
    ensures touch { (rs : List LogRecord) (i : ℕ) →
        contains (touched (all_effects (coalesced_group rs))) i ≡ contains
        (touched (all_effects rs)) i }
    ensures begins { (rs : List LogRecord) (next : ℕ) → AllHaveEffects rs →
        call_of (coalesced_group rs) 0 next ≡ call_of rs 0 next }
    ensures ascending { (rs : List LogRecord) (next : ℕ) → Ascending rs next →
        Ascending (coalesced_group rs) next }
    ensures shorter { (rs : List LogRecord) → length (coalesced_group rs) ≤ length rs }
{}

/// What is left of a record's effects can be made all or none, as those could.
pub fn what_is_left_can_be_made_whole()
    ensures { (es later : List Effect) → CanBeMadeWhole es → CanBeMadeWhole (left_of es later) }
{}
