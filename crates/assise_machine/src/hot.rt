//! How many inodes may be hot at a node.
ghost use Rattle.std.specs.Prelude.{◌≡◌, ◌<◌, ◌≤◌, ◌↔◌, Err, IfSome, IsSome, OnErr, OnOk};
ghost use Rattle.assise_names.specs.declared.refusal.Refusal.TheVariants.{OutOfMemory};
ghost use Rattle.assise_lease_tree.specs.Trees.{KeepsRevokers};
ghost use Rattle.assise_model_events.specs.NodeEvents.{SettingHot};
ghost use Rattle.assise_machine_state.specs.NodeValues.{region_in, with_hot_in};
ghost use Rattle.assise_machine_state.specs.Whole.{machine_of};
ghost use Rattle.assise_machine.specs.Answers.{setting_answer};

use crate::faults::node_refusal;
use assise_lease_table::revoker::Revokes;
use assise_machine_state::sound::SoundOf;
use assise_names::refusal::Refusal;

/// The most inodes that may be hot at a node.
const MOST_HOT: usize = 4096;

/// How many inodes may be hot at a node: 1 to 4,096.
#[derive(Clone, Copy, PartialEq, Eq, Debug)]
pub struct HotCapacity {
    inodes: usize,
    ghost least: { 1 ≤ inodes },
    ghost most: { inodes ≤ 4096 },
}

impl HotCapacity {
    /// A capacity of `inodes`, if that is 1 to 4,096.
    pub fn new(inodes: usize) -> Option<HotCapacity>
        ensures value { IfSome result (λ capacity. capacity.inodes ≡ inodes) }
        ensures within { IsSome result ↔ ((1 ≤ inodes) × (inodes ≤ 4096)) }
    {
        if inodes == 0 || inodes > MOST_HOT {
            return None;
        }
        Some(HotCapacity { inodes })
    }

    /// How many.
    pub fn get(self) -> usize
        ensures value { result ≡ self.inodes }
        ensures least { 1 ≤ result }
        ensures most { result ≤ 4096 }
    {
        self.inodes
    }
}

/// Sets how many inodes may be hot at a node: of more than that the longest unused ones are cold then. Refused as
/// [`node_refusal`] says, and with [`Refusal::OutOfMemory`] where fewer may be hot than before and some have to cool; what is refused
/// leaves all as it was, and as many hot.
pub(crate) fn set_hot<C: Revokes + Drop>(
    sound: &mut SoundOf<C>,
    node: u32,
    capacity: usize,
) -> Result<(), Refusal>
    requires least { 1 ≤ capacity }
    requires most { capacity ≤ 4096 }
    ensures happens { SettingHot (machine_of sound.old.state) node capacity
        (setting_answer result) (machine_of sound.new.state) }
    ensures set { OnOk result
        (sound.new.state.nodes ≡ with_hot_in sound.old.state.nodes node capacity) }
    ensures kept { OnErr result (sound.new.state.nodes ≡ sound.old.state.nodes) }
    ensures asked { result ≡ Err OutOfMemory →
        capacity < (region_in sound.old.state.nodes node).capacity }
    ensures revokers { KeepsRevokers sound.old.state.leases sound.new.state.leases }
{
    let state = &mut sound.state;
    if let Some(refusal) = node_refusal(state, node) {
        return Err(refusal);
    }
    Ok(state.nodes.set_hot_capacity(node, capacity)?)
}
