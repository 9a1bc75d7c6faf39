//! The inodes that records of a log touch.
ghost use Rattle.std.specs.Prelude.{◌≡◌, ◌++◌, OnOk, take};
ghost use Rattle.assise_record.specs.Records.{all_effects};
ghost use Rattle.assise_inode_table.specs.Effects.{touched};
ghost use Rattle.assise_private_log.specs.NumberedLog.{records_from};

use assise_private_log::log::Log;
use assise_record::effect::Effect;
use std::alloc::AllocError;

/// Adds the inodes that `count` records of a log touch, from a number on.
pub fn push_touched_from(
    inodes: &mut Vec<u64>,
    log: &Log,
    from: u64,
    count: usize,
) -> Result<(), AllocError>
    ensures added { OnOk result (inodes.new.items ≡ inodes.old.items ++ touched
        (all_effects (take count (records_from log.now from)))) }
{
    for record in log.since(from).take(count) {
        push_touched(inodes, record.effects())?;
    }
    Ok(())
}

/// Adds the inodes that effects touch.
fn push_touched(inodes: &mut Vec<u64>, effects: &[Effect]) -> Result<(), AllocError>
    ensures added { OnOk result (inodes.new.items ≡ inodes.old.items ++ touched effects.now) }
{
    for effect in effects {
        inodes.push(effect.touches())?;
    }
    Ok(())
}
