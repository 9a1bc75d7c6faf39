//! Laws of the tree and of its calls. Each function does nothing: its contract is the law.
ghost use Rattle.std.specs.Prelude.{◌≡◌, ◌+◌, ◌-◌, ◌<◌, ◌≤◌, [], Contains, Err, List, Ok, false, length, max, replicate, ℕ};
ghost use Rattle.std.specs.Cmp.Lexicographic.{slice_cmp};
ghost use Rattle.std.specs.List.Sorted.{IsStrictlySortedBy};
ghost use Rattle.std.specs.Ordering.{nat_cmp, on};
ghost use Rattle.assise_names.specs.Path.{same_path};
ghost use Rattle.assise_names.specs.declared.call.Op.{Op};
ghost use Rattle.assise_names.specs.declared.call.Op.TheVariants.{List as ListCall, Read, Rename, Rmdir, Stat, Truncate, Unlink, Write};
ghost use Rattle.assise_names.specs.declared.reply.Reply.{Reply};
ghost use Rattle.assise_names.specs.declared.reply.Reply.TheVariants.{Bytes, Done, Error, File, Names};
ghost use Rattle.assise_names.specs.declared.reply.TreeError.{TreeError};
ghost use Rattle.assise_names.specs.declared.reply.TreeError.TheVariants.{NoEnt};
ghost use Rattle.assise_seq_tree.specs.Answer.{IsDisjointFrom, answer, parent_of};
ghost use Rattle.assise_seq_tree.specs.Lines.{places_below};
ghost use Rattle.assise_seq_tree.specs.Runs.{tree_after_calls};
ghost use Rattle.assise_seq_tree.specs.Tree.{Entries, IsOrdered, IsWithinLimits, AreDisjointPaths, Tree, at, dir, opening, put, without};

/// What is put at a path stands there, where its parent is a directory, and the last that is put there stays.
pub fn what_is_put_stands()
    ensures found { (t x : Tree) (p : List (List ℕ)) (es : Entries) →
        at t (parent_of p) ≡ Ok (dir es) → at (put t p x) p ≡ Ok x }
    ensures last { (t x y : Tree) (p : List (List ℕ)) → IsOrdered t → IsOrdered x → IsOrdered y →
        put (put t p x) p y ≡ put t p y }
{}

/// What is put at a path leaves each path that is disjoint from it as it was.
pub fn what_is_put_leaves_the_rest()
    ensures { (t x : Tree) (p q : List (List ℕ)) → AreDisjointPaths p q →
        at (put t p x) q ≡ at t q }
{}

/// What is taken out is not there any more, and each path that is disjoint from it is as it was. What is put at
/// such a path may be put there before or after.
pub fn what_is_taken_out_is_gone()
    ensures gone { (t x : Tree) (p : List (List ℕ)) → IsOrdered t → 0 < length p → at t p ≡ Ok x →
        at (without t p) p ≡ Err NoEnt }
    ensures rest { (t : Tree) (p q : List (List ℕ)) → AreDisjointPaths p q →
        at (without t p) q ≡ at t q }
    ensures either_first { (t x : Tree) (p q : List (List ℕ)) → IsOrdered t → IsOrdered x →
        AreDisjointPaths p q → without (put t q x) p ≡ put (without t p) q x }
{}

/// A read of the bytes that were just written, at their offset, gives them back.
pub fn what_is_written_is_read()
    ensures { (t u : Tree) (p : List (List ℕ)) (offset : ℕ) (new : List ℕ) →
        answer t (Write p offset new) ≡ (Done, u) →
        answer u (Read p offset (length new)) ≡ (Bytes new, u) }
{}

/// The bytes that a file had before the written ones, and behind them, are read as before.
pub fn a_write_keeps_what_is_around_it()
    ensures before { (t u : Tree) (p : List (List ℕ)) (offset from most : ℕ) (new old : List ℕ) →
        answer t (Write p offset new) ≡ (Done, u) → answer t (Read p from most) ≡ (Bytes old, t) →
        from + length old ≤ offset → answer u (Read p from (length old)) ≡ (Bytes old, u) }
    ensures behind { (t u : Tree) (p : List (List ℕ)) (offset from most : ℕ) (new old : List ℕ) →
        answer t (Write p offset new) ≡ (Done, u) → answer t (Read p from most) ≡ (Bytes old, t) →
        offset + length new ≤ from → answer u (Read p from most) ≡ (Bytes old, u) }
{}

/// A gap between the old end of a file and the written bytes reads as zeros, and the file ends where it ended or
/// where the written bytes end. Without bytes to write nothing changes.
pub fn a_gap_reads_as_zeros()
    ensures gap { (t u : Tree) (p : List (List ℕ)) (offset size : ℕ) (new : List ℕ) →
        answer t (Write p offset new) ≡ (Done, u) → answer t (Stat p) ≡ (File size, t) →
        0 < length new → size ≤ offset → answer u (Read p size (offset - size)) ≡
        (Bytes (replicate (offset - size) 0), u) }
    ensures size { (t u : Tree) (p : List (List ℕ)) (offset size : ℕ) (new : List ℕ) →
        answer t (Write p offset new) ≡ (Done, u) → answer t (Stat p) ≡ (File size, t) →
        0 < length new → answer u (Stat p) ≡ (File (max size (offset + length new)), u) }
    ensures nothing { (t u : Tree) (p : List (List ℕ)) (offset : ℕ) (new : List ℕ) →
        answer t (Write p offset new) ≡ (Done, u) → length new ≡ 0 → u ≡ t }
{}

/// A file that is given another size has that size. Up to its old end it reads as before, and from there on as zeros.
pub fn a_file_grows_by_zeros()
    ensures size { (t u : Tree) (p : List (List ℕ)) (size : ℕ) →
        answer t (Truncate p size) ≡ (Done, u) → answer u (Stat p) ≡ (File size, u) }
    ensures prefix { (t u : Tree) (p : List (List ℕ)) (from most size : ℕ) (old : List ℕ) →
        answer t (Truncate p size) ≡ (Done, u) → answer t (Read p from most) ≡ (Bytes old, t) →
        from + length old ≤ size → answer u (Read p from (length old)) ≡ (Bytes old, u) }
    ensures zeros { (t u : Tree) (p : List (List ℕ)) (before size : ℕ) →
        answer t (Truncate p size) ≡ (Done, u) → answer t (Stat p) ≡ (File before, t) →
        before ≤ size → answer u (Read p before (size - before)) ≡
        (Bytes (replicate (size - before) 0), u) }
{}

/// What is moved to another path stands there, and not at its own any more.
pub fn what_is_renamed_stands_at_its_new_path()
    ensures stands { (t u moved : Tree) (p q : List (List ℕ)) → answer t (Rename p q) ≡ (Done, u) →
        same_path p q ≡ false → at t p ≡ Ok moved → at u q ≡ Ok moved }
    ensures gone { (t u moved : Tree) (p q : List (List ℕ)) → IsOrdered t →
        answer t (Rename p q) ≡ (Done, u) → same_path p q ≡ false → at t p ≡ Ok moved →
        at u p ≡ Err NoEnt }
{}

/// What is unlinked or removed is not there any more.
pub fn what_is_removed_is_gone()
    ensures unlinked { (t u : Tree) (p : List (List ℕ)) → IsOrdered t →
        answer t (Unlink p) ≡ (Done, u) → answer u (Stat p) ≡ (Error NoEnt, u) }
    ensures removed { (t u : Tree) (p : List (List ℕ)) → IsOrdered t →
        answer t (Rmdir p) ≡ (Done, u) → answer u (Stat p) ≡ (Error NoEnt, u) }
{}

/// The names of a list ascend by their bytes.
pub fn a_list_ascends()
    ensures { (t u : Tree) (p names : List (List ℕ)) → IsOrdered t →
        answer t (ListCall p) ≡ (Names names, u) → IsStrictlySortedBy (slice_cmp nat_cmp) names }
{}

/// A call that answers an error leaves the tree as it was, and any call leaves each path that is disjoint from
/// its own.
pub fn a_call_changes_no_more_than_it_names()
    ensures error { (t u : Tree) (op : Op) (error : TreeError) → answer t op ≡ (Error error, u) →
        u ≡ t }
    ensures rest { (t u : Tree) (op : Op) (reply : Reply) (q : List (List ℕ)) →
        answer t op ≡ (reply, u) → IsDisjointFrom op q → at u q ≡ at t q }
{}

/// The opening tree is within the limits, and no call leads out of them.
pub fn limits_hold()
    ensures first { IsWithinLimits opening }
    ensures kept { (t u : Tree) (op : Op) (reply : Reply) → answer t op ≡ (reply, u) →
        IsWithinLimits t → IsWithinLimits u }
{}

/// The names of each directory of the opening tree ascend, each call leaves them so, and so they do after any calls. What
/// is said of ordered trees is said of each tree that calls make.
pub fn names_ascend_in_each_directory()
    ensures first { IsOrdered opening }
    ensures kept { (t : Tree) (op : Op) → IsOrdered t → IsOrdered (answer t op).1 }
    ensures after_calls { (ops : List Op) → IsOrdered (tree_after_calls opening ops) }
{}

/// A tree prints the paths below its root with what stands there, each once. The paths ascend by their names, so those of a
/// directory stand together, behind its own.
pub fn each_path_is_printed()
    ensures stands { (t u : Tree) (p : List (List ℕ)) → IsOrdered t →
        Contains (places_below [] t) (p, u) → (at t p ≡ Ok u) × (0 < length p) }
    ensures printed { (t u : Tree) (p : List (List ℕ)) → at t p ≡ Ok u → 0 < length p →
        Contains (places_below [] t) (p, u) }
    ensures ascends { (t : Tree) → IsOrdered t →
        IsStrictlySortedBy (on (λ place. place.0) (slice_cmp (slice_cmp nat_cmp)))
        (places_below [] t) }
{}
