//! Laws of leases. Each function does nothing: its contract is the law.
ghost use Rattle.std.specs.Prelude.{List};
ghost use Rattle.assise_lease_tree.specs.LeaseCalls.{LeaseCall, LeaseCallDoes, AllLeaseCalls};
ghost use Rattle.assise_lease_tree.specs.TwoLevels.{TwoLevels, nobody, LevelsInvariant};

/// After any list of lease calls, holders are compatible on both levels, each client's lease lies under one of its node
/// that is as strong, and below a node's lease that was asked for each is revoked.
pub fn leases_stay_lawful()
    ensures call { (old new : TwoLevels) (call : LeaseCall) → LevelsInvariant old →
        LeaseCallDoes old call new → LevelsInvariant new }
    ensures calls { (calls : List LeaseCall) (new : TwoLevels) → AllLeaseCalls nobody calls new →
        LevelsInvariant new }
{}
