//! What the laws observe of a change of clients.
ghost use Rattle.std.specs.Prelude.{◌≡◌, ◌≤◌, ◌==◌, List, false, true, suc, length, ℕ};
ghost use Rattle.assise_record.specs.Groups.{AllHaveEffects};
ghost use Rattle.assise_inode_table.specs.Traces.{NumberedCall};
ghost use Rattle.assise_private_log.specs.NumberedLog.{IsNumberedLog, records_from};
ghost use Rattle.assise_lease_table.specs.declared.lease.Asked.{Asked};
ghost use Rattle.assise_lease_tree.specs.TwoLevels.{EnrolsAt, IsAskedFor, IsRevoked, TwoLevels, is_free_for};
ghost use Rattle.assise_names.specs.declared.durability.Durability.{Durability};
ghost use Rattle.assise_names.specs.declared.mode.Mode.{Mode};
ghost use Rattle.assise_model_world.specs.Chances.{MayMakeCall};
ghost use Rattle.assise_model_world.specs.ClientSteps.{MakesCall, RaisesGoals};
ghost use Rattle.assise_model_world.specs.Regrouped.{Regroups};
ghost use Rattle.assise_model_world.specs.Invariant.{WorldInvariant};
ghost use Rattle.assise_model_world.specs.World.{Full, end_of_log};
ghost use Rattle.assise_model_leases.specs.Handing.{Asks, CrashesWith, HoldsAsLeased, OpensAt};
ghost use Rattle.assise_model_leases.specs.Leases.{AreLeases};
ghost use Rattle.assise_model_members.specs.Returns.{OtherAreasStay};
ghost use Rattle.assise_model_history.specs.State.{IsRecorded};
ghost use Rattle.assise_model_events.specs.Dsyncs.{coalesced_from, new_groups};
ghost use Rattle.assise_model_events.specs.Machine.{state_of};
ghost use Rattle.assise_machine_state.specs.Changes.{after_asking, after_call, after_coalescing, after_crash, after_goal, after_leases, after_open, goal_of};
ghost use Rattle.assise_machine_state.specs.Observed.{observed, own_seen, world_of};
ghost use Rattle.assise_machine_state.specs.Places.{IsNumber};
ghost use Rattle.assise_machine_state.specs.Invariant.{AreAnswers, AreLeft, CutsInvariant, ShapeInvariant, SameRevoked};
ghost use Rattle.assise_machine_state.specs.StateValues.{StateValue, leases_of};

/// A client that is opened on a full node.
pub fn an_open_is_observed()
    ensures opens { (s : StateValue) (n : ℕ) (u : Durability) (levels : TwoLevels) →
        ShapeInvariant s → CutsInvariant s → Full (world_of s) n →
        EnrolsAt s.levels levels (suc (length s.clients)) n →
        OpensAt (world_of s) (leases_of s) n (world_of (after_open s n u levels))
        (leases_of (after_open s n u levels)) }
    ensures others { (s : StateValue) (n : ℕ) (u : Durability) (levels : TwoLevels) →
        OtherAreasStay (world_of s) (world_of (after_open s n u levels)) }
    ensures shape { (s : StateValue) (n : ℕ) (u : Durability) (levels : TwoLevels) →
        ShapeInvariant s → Full (world_of s) n → ShapeInvariant (after_open s n u levels) }
    ensures noted { (s : StateValue) (n : ℕ) (u : Durability) (levels : TwoLevels) →
        CutsInvariant s → EnrolsAt s.levels levels (suc (length s.clients)) n →
        CutsInvariant (after_open s n u levels) }
{}

/// A call that is answered.
pub fn a_call_is_observed()
    ensures call { (s : StateValue) (x : NumberedCall) → ShapeInvariant s →
        WorldInvariant (world_of s) → IsRecorded (state_of (observed s)) →
        MayMakeCall (world_of s) x → MakesCall (world_of s) x (world_of (after_call s x)) }
    ensures others { (s : StateValue) (x : NumberedCall) →
        OtherAreasStay (world_of s) (world_of (after_call s x)) }
    ensures shape { (s : StateValue) (x : NumberedCall) → ShapeInvariant s →
        (world_of s).lives x.client ≡ true → ShapeInvariant (after_call s x) }
    ensures noted { (s : StateValue) (x : NumberedCall) → CutsInvariant s →
        CutsInvariant (after_call s x) }
{}

/// A client's goal that is raised, within its log.
pub fn a_raised_goal_is_observed()
    ensures raises { (s : StateValue) (c to : ℕ) → IsNumber s.clients c →
        to ≤ end_of_log (world_of s) c → RaisesGoals (world_of s) (goal_of c to)
        (world_of (after_goal s c to)) }
    ensures others { (s : StateValue) (c to : ℕ) →
        OtherAreasStay (world_of s) (world_of (after_goal s c to)) }
    ensures shape { (s : StateValue) (c to : ℕ) → ShapeInvariant s → IsNumber s.clients c →
        ShapeInvariant (after_goal s c to) }
    ensures noted { (s : StateValue) (c to : ℕ) → CutsInvariant s →
        CutsInvariant (after_goal s c to) }
{}

/// A client's records that become groups at its home, each coalesced, from where its dsync begins.
pub fn a_coalescing_is_observed()
    ensures regroups { (s : StateValue) (c : ℕ) → ShapeInvariant s →
        ∥ WorldInvariant (world_of s) ∥₁ → (world_of s).lives c ≡ true →
        IsNumberedLog (own_seen s c).log → AllHaveEffects
        (records_from (own_seen s c).log (coalesced_from (world_of s) c)) →
        Regroups (world_of s) c (coalesced_from (world_of s) c) (new_groups (world_of s) c)
        (world_of (after_coalescing s c (coalesced_from (world_of s) c))) }
    ensures others { (s : StateValue) (c from : ℕ) →
        OtherAreasStay (world_of s) (world_of (after_coalescing s c from)) }
    ensures shape { (s : StateValue) (c : ℕ) → ShapeInvariant s → ∥ WorldInvariant (world_of s) ∥₁ →
        (world_of s).lives c ≡ true → IsNumberedLog (own_seen s c).log →
        ShapeInvariant (after_coalescing s c (coalesced_from (world_of s) c)) }
    ensures noted { (s : StateValue) (c from : ℕ) → CutsInvariant s →
        CutsInvariant (after_coalescing s c from) }
{}

/// Those who stand in a call's way are asked for their leases.
pub fn an_asking_is_observed()
    ensures asks { (s : StateValue) (c i : ℕ) (mode : Mode) (levels : TwoLevels)
        (asked : List Asked) → ShapeInvariant s → CutsInvariant s →
        AreLeases (world_of s) (leases_of s) → (world_of s).lives c ≡ true →
        (world_of s).crashed c ≡ false → is_free_for s.levels c ((world_of s).home c) i mode ≡
        false → IsAskedFor s.levels levels c ((world_of s).home c) i mode →
        AreAnswers s c i mode asked → Asks (world_of s) (leases_of s) c i mode
        (world_of (after_asking s levels asked)) (leases_of (after_asking s levels asked)) }
    ensures others { (s : StateValue) (levels : TwoLevels) (asked : List Asked) →
        OtherAreasStay (world_of s) (world_of (after_asking s levels asked)) }
    ensures shape { (s : StateValue) (levels : TwoLevels) (asked : List Asked) → ShapeInvariant s →
        ShapeInvariant (after_asking s levels asked) }
    ensures noted { (s : StateValue) (c i : ℕ) (mode : Mode) (levels : TwoLevels)
        (asked : List Asked) → CutsInvariant s → AreLeases (world_of s) (leases_of s) →
        IsAskedFor s.levels levels c ((world_of s).home c) i mode → AreAnswers s c i mode asked →
        CutsInvariant (after_asking s levels asked) }
{}

/// Leases that change: clients hold what their leases say.
pub fn leases_are_observed()
    ensures held { (s : StateValue) (levels : TwoLevels) →
        HoldsAsLeased (world_of s) (world_of (after_leases s levels))
        (leases_of (after_leases s levels)) }
    ensures others { (s : StateValue) (levels : TwoLevels) →
        OtherAreasStay (world_of s) (world_of (after_leases s levels)) }
    ensures shape { (s : StateValue) (levels : TwoLevels) → ShapeInvariant s →
        ShapeInvariant (after_leases s levels) }
    ensures noted { (s : StateValue) (levels : TwoLevels) → CutsInvariant s → SameRevoked s levels →
        CutsInvariant (after_leases s levels) }
{}

/// A client that crashes.
pub fn a_crash_is_observed()
    ensures crashes { (s : StateValue) (c : ℕ) (levels : TwoLevels) (asked : List Asked) →
        (world_of s).lives c ≡ true → (world_of s).crashed c ≡ false → IsRevoked s.levels levels c →
        AreLeft s (λ d. d == c) asked → CrashesWith (world_of s) (leases_of s) c
        (world_of (after_crash s c levels asked)) (leases_of (after_crash s c levels asked)) }
    ensures others { (s : StateValue) (c : ℕ) (levels : TwoLevels) (asked : List Asked) →
        OtherAreasStay (world_of s) (world_of (after_crash s c levels asked)) }
    ensures shape { (s : StateValue) (c : ℕ) (levels : TwoLevels) (asked : List Asked) →
        ShapeInvariant s → IsNumber s.clients c → ShapeInvariant (after_crash s c levels asked) }
    ensures noted { (s : StateValue) (c : ℕ) (levels : TwoLevels) (asked : List Asked) →
        CutsInvariant s → AreLeases (world_of s) (leases_of s) → IsRevoked s.levels levels c →
        AreLeft s (λ d. d == c) asked → CutsInvariant (after_crash s c levels asked) }
{}
