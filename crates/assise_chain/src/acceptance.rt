//! What a node takes in of a message.
ghost use Rattle.std.specs.Prelude.{◌≡◌, ◌+◌, ◌≤◌, ◌↔◌, IfErr, IfOk, IsOk, OnErr, OnOk, length, max, true};
ghost use Rattle.assise_names.specs.declared.refusal.Refusal.TheVariants.{StaleMessage};
ghost use Rattle.assise_private_log.specs.NumberedLog.{end};
ghost use Rattle.assise_chain.specs.Acceptance.{IsTimely, accepted};

use assise_names::refusal::Refusal;
use assise_private_log::log::Log;
use assise_record::frame::Frame;

/// Whether a frame may be taken in by whoever received a client's records below a number: it is of the epoch, and leaves no
/// gap behind that number.
pub fn is_timely(frame: &Frame, received: u64, epoch: u64) -> bool
    ensures { (result ≡ true) ↔ IsTimely received frame.now epoch }
{
    frame.epoch() == epoch && frame.first() <= received
}

/// Takes the records of a frame in that lie past a log's end, each as a group by itself, and passes over those that the log
/// has. It answers the number behind the log's last record. A frame that isn't timely behind the log's end ([`is_timely`]) is
/// refused with [`Refusal::StaleMessage`], and leaves the log as it was. It takes no memory.
pub fn accept(log: &mut Log, frame: Frame, epoch: u64) -> Result<u64, Refusal>
    requires room { IsTimely (end log.old) frame epoch →
        frame.first + length frame.records ≤ log.old.first + log.old.limit }
    ensures timely { IsOk result ↔ IsTimely (end log.old) frame epoch }
    ensures accepted { OnOk result (log.new ≡ accepted log.old frame) }
    ensures refused { OnErr result (log.new ≡ log.old) }
    ensures stale { IfErr result (λ refusal. refusal ≡ StaleMessage) }
    ensures received { IfOk result (λ received. received ≡ end log.new) }
    ensures greater { IfOk result (λ received. received ≡ max (end log.old)
        (frame.first + length frame.records)) }
{
    if !is_timely(&frame, log.end(), epoch) {
        return Err(Refusal::StaleMessage);
    }
    let had = (log.end() - frame.first()) as usize;
    for record in frame.into_records().into_iter().skip(had) {
        let Ok(()) = log.append(record) else {
            unreachable!()
        };
    }
    Ok(log.end())
}
