//! Laws of plans. Each function does nothing: its contract is the law.
ghost use Rattle.std.specs.Prelude.{◌≡◌, ◌++◌, ◌∷◌, List, false, true, ℕ};
ghost use Rattle.assise_inode_plan.specs.Leased.{AreLeased, LeaseView, wants};
ghost use Rattle.assise_inode_plan.specs.Planning.{missing, plan_of, ready, visited_plan_of};
ghost use Rattle.assise_inode_table.specs.Calls.{step};
ghost use Rattle.assise_inode_table.specs.Contents.{Values};
ghost use Rattle.assise_inode_table.specs.Interaction.{AgreeOn, Step};
ghost use Rattle.assise_names.specs.declared.call.Op.{Op};
ghost use Rattle.assise_names.specs.declared.mode.Mode.{Mode};
ghost use Rattle.assise_names.specs.declared.mode.Mode.TheVariants.{Read};

/// A plan that misses a lease misses the first one that the call wants and that isn't there. A plan that is ready
/// has all that it wants, and is the whole step.
pub fn a_missing_lease_is_wanted_first()
    ensures missing { (leased : LeaseView) (s : Step) (i : ℕ) (mode : Mode) →
        plan_of leased s ≡ missing i mode → (before : List (ℕ × Mode)) × (after : List (ℕ × Mode)) ×
        (wants s ≡ before ++ (i, mode) ∷ after) × AreLeased leased before ×
        (leased i mode ≡ false) }
    ensures ready { (leased : LeaseView) (s u : Step) → plan_of leased s ≡ ready u →
        (u ≡ s) × AreLeased leased (wants s) }
{}

/// What isn't leased for reading isn't looked at: the plan is the same over all inodes that agree on what is.
pub fn a_plan_looks_at_leased_inodes_alone()
    ensures whole { (leased : LeaseView) (v w : Values) (op : Op) (fresh : ℕ) →
        ((i : ℕ) → leased i Read ≡ true → v i ≡ w i) →
        plan_of leased (step v op fresh) ≡ plan_of leased (step w op fresh) }
    ensures by_visits { (leased : LeaseView) (v w : Values) (op : Op) (fresh : ℕ) →
        ((i : ℕ) → leased i Read ≡ true → v i ≡ w i) →
        visited_plan_of leased (step v op fresh) ≡ visited_plan_of leased (step w op fresh) }
{}

/// Inodes that agree on those that a call visits give the same plan.
pub fn agreeing_inodes_give_one_plan()
    ensures { (leased : LeaseView) (v w : Values) (op : Op) (fresh : ℕ) →
        AgreeOn (step v op fresh).visits v w →
        plan_of leased (step v op fresh) ≡ plan_of leased (step w op fresh) }
{}
