//! Lists of events.
ghost use Rattle.std.specs.Option.{option_to_list};
ghost use Rattle.std.specs.Prelude.{◌≡◌, ◌-◌, ◌≤◌, ◌++◌, ℕ, Contains, IfOk, IsOkUnless, OnErr, OnOk, length, take};
ghost use Rattle.assise_names.specs.declared.call.Op.{Op};
ghost use Rattle.assise_names.specs.declared.refusal.Refusal.TheVariants.{OutOfMemory};
ghost use Rattle.assise_lease_table.specs.Tables.{SameRevokers};
ghost use Rattle.assise_machine_calls.specs.Asked.{CutsAreAnswers};
ghost use Rattle.assise_model_events.specs.Events.{all_entries, open_client, opened, try_call};
ghost use Rattle.assise_machine.specs.Clusters.{machine, revokers};
ghost use Rattle.assise_machine.specs.Headline.{history_after, history_of, kept_below, regions_of, replicated_calls, replicated_to};
ghost use Rattle.assise_machine.specs.Running.{AllApplied, AllServed, IsServed, all_opened, answer_seen, event_seen, last_first, opened_answer, stock_after, stock_left, stocked, told};

use crate::answer::Answer;
use crate::cluster::ClusterOf;
use crate::event::Event;
use assise_lease_table::revoker::Revokes;
use assise_names::durability::Durability;
use assise_names::refusal::Refusal;
use std::alloc::Global;

/// One event after another, each with its answer. [`Event::Open`] takes the last revoker of the stock, and one that is refused goes
/// back there; where the stock is empty it is refused with [`Refusal::BadClient`], unless the node is at fault. The history gets
/// exactly the entries of the answers, in order. The one refusal, [`Refusal::OutOfMemory`], comes before the first event, and then
/// nothing happened.
pub fn run<C: Revokes + Drop>(
    alloc: Global,
    cluster: &mut ClusterOf<C>,
    events: &[Event],
    stock: &mut Vec<C>,
) -> Result<Vec<Answer>, Refusal>
    ensures served { IfOk result (λ answers. AllServed (length stock.old.items)
        (machine cluster.old) (told events.now answers.items) (machine cluster.new)) }
    ensures answered { IfOk result (λ answers. length answers.items ≡ length events.now) }

    // Whom each open gives the last revoker of the stock, and whose answer each cut of a lease is that a call revoked.
    ensures applied { IfOk result (λ answers. AllApplied C.answers
        (stocked cluster.old stock.old.items) (told events.now answers.items)
        (stocked cluster.new stock.new.items)) }

    ensures extends { IfOk result (λ answers. (machine cluster.new).history ≡
        (machine cluster.old).history ++ all_entries (machine cluster.old).history
        (told events.now answers.items)) }

    // The history gets exactly the entries of the answers, and no node goes or comes.
    ensures grows { IfOk result (λ answers. history_of cluster.new ≡ history_after
        (history_of cluster.old) events.now answers.items) }
    ensures nodes { length (regions_of cluster.new) ≡ length (regions_of cluster.old) }

    // No replicated call is lost again: no client's bound falls, and below the old bounds the kept calls are those of before.
    ensures never_falls { (c : ℕ) → replicated_to cluster.old c ≤ replicated_to cluster.new c }
    ensures lasting { kept_below (replicated_to cluster.old) (history_of cluster.new) ≡
        replicated_calls cluster.old }

    ensures stock { IfOk result (λ answers. length stock.new.items ≡ stock_left
        (length stock.old.items) (told events.now answers.items)) }
    ensures prefix { stock.new.items ≡ take (length stock.new.items) stock.old.items }

    // What went from the stock the opened clients store, the last revoker the first of them. All other clients store what they did.
    ensures gets { IfOk result (λ answers. stock.old.items ≡ stock.new.items ++ last_first
        (revokers cluster.new) (all_opened (told events.now answers.items))) }
    ensures others { IfOk result (λ answers.
        (c : ℕ) → (Contains (all_opened (told events.now answers.items)) c → ⊥) →
        revokers cluster.new c ≡ revokers cluster.old c) }
    ensures revokers { OnErr result (SameRevokers (revokers cluster.old) (revokers cluster.new)) }

    ensures err { OnErr result (machine cluster.new ≡ machine cluster.old) }
    ensures unused { OnErr result (stock.new.items ≡ stock.old.items) }
    ensures only_memory { IsOkUnless result OutOfMemory }
{
    let mut answers = Vec::with_capacity(alloc, events.len())?;
    for event in events {
        let answer = apply_event(alloc, cluster, event, stock);
        answers.push_reserved(answer);
    }
    Ok(answers)
}

/// One event with its answer. A client that is opened is asked by the last revoker of the stock, and all others as before. Where a
/// call revokes a lease, its cut is what the revoker that its holder stored answers.
pub fn apply_event<C: Revokes + Drop>(
    alloc: Global,
    cluster: &mut ClusterOf<C>,
    event: &Event,
    stock: &mut Vec<C>,
) -> Answer
    ensures served { IsServed (length stock.old.items) (machine cluster.old) (event_seen event.now)
        (answer_seen result) (machine cluster.new) }
    ensures stock { length stock.new.items ≡ stock_after (length stock.old.items)
        (answer_seen result) }
    ensures prefix { stock.new.items ≡ take (length stock.new.items) stock.old.items }
    ensures gets { (c : ℕ) → answer_seen result ≡ opened c →
        stock.old.items ≡ stock.new.items ++ option_to_list (revokers cluster.new c) }
    ensures others { (c : ℕ) → (answer_seen result ≡ opened c → ⊥) →
        revokers cluster.new c ≡ revokers cluster.old c }
    ensures cuts { (c : ℕ) (op : Op) → event_seen event.now ≡ try_call c op →
        CutsAreAnswers C.answers (revokers cluster.old) (machine cluster.old)
        (machine cluster.new) }
{
    match event {
        Event::Open(node, durability) => {
            Answer::Opened(open_next(alloc, cluster, *node, stock, *durability))
        }
        Event::Call(client, op) => Answer::Called(cluster.try_call(alloc, *client, op)),
        Event::Fsync(client) => Answer::Called(cluster.try_fsync(*client)),
        Event::Outgoing(node) => Answer::Sent(cluster.outgoing(alloc, *node)),
        Event::Deliver(frame, node) => Answer::Received(cluster.deliver_copy(alloc, frame, *node)),
        Event::Digest(node) => Answer::Digested(cluster.digest(alloc, *node)),
        Event::ReleaseReady => Answer::Released(cluster.release_ready()),
        Event::SetHot(node, capacity) => Answer::HotSet(cluster.set_hot(*node, capacity.get())),
        Event::Crash(client) => Answer::Crashed(cluster.crash(*client)),
        Event::Fail(node) => Answer::Failed(cluster.fail(alloc, *node)),
        Event::Back(node) => Answer::Began(cluster.back(*node)),
        Event::Refill(node) => Answer::Left(cluster.refill(alloc, *node)),
        Event::Join(node) => Answer::Joined(cluster.join(alloc, *node)),
        Event::Raise(node) => Answer::Raised(cluster.raise(*node)),
    }
}

/// Opens a client on a node with the last revoker of the stock, and answers its number. Refused as
/// [`ClusterOf::open`](crate::cluster::ClusterOf::open), and with [`Refusal::BadClient`] where the stock is empty and nothing else
/// stands against it. One that is refused leaves the stock as it was.
pub fn open_next<C: Revokes + Drop>(
    alloc: Global,
    cluster: &mut ClusterOf<C>,
    node: u32,
    stock: &mut Vec<C>,
    durability: Durability,
) -> Result<u32, Refusal>
    ensures served { IsServed (length stock.old.items) (machine cluster.old)
        (open_client node durability) (opened_answer result) (machine cluster.new) }
    ensures stock { length stock.new.items ≡ stock_after (length stock.old.items)
        (opened_answer result) }
    ensures refused { OnErr result (stock.new.items ≡ stock.old.items) }
    ensures opened { OnOk result (stock.new.items ≡ take
        (length stock.old.items - 1) stock.old.items) }
    ensures gets { (c : ℕ) → opened_answer result ≡ opened c →
        stock.old.items ≡ stock.new.items ++ option_to_list (revokers cluster.new c) }
    ensures others { (c : ℕ) → (opened_answer result ≡ opened c → ⊥) →
        revokers cluster.new c ≡ revokers cluster.old c }
{
    let Some(revoker) = stock.pop() else {
        return Err(cluster.open_refusal(node).unwrap_or(Refusal::BadClient));
    };
    match cluster.open(alloc, node, revoker, durability) {
        Ok(client) => Ok(client),
        Err((refusal, revoker)) => {
            stock.push_reserved(revoker);
            Err(refusal)
        }
    }
}
