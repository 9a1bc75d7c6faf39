//! The bytes of a frame, and when a node takes it.
use crate::tests::desk::{Asked, Cluster};
use assise_fault_script::command::RevokerKind;
use assise_names::call::Op;
use assise_names::durability::Durability;
use assise_names::path::Path;
use assise_record::decode::decode;
use assise_record::encode::encode;
use assise_record::frame::Frame;
use std::alloc::Global;
use std::test::Fail;

/// The frame in which client 1 makes the file `/f`, two hexadecimal digits a byte.
const SENT: &str =
    "415301000000000000000100000001000000000000000000010000002500000000000000000201000000010000000005000000000000000001660000000100000000";

/// The same with another name.
const CHANGED: &str =
    "415301000000000000000100000001000000000000000000010000002500000000000000000201000000010000000005000000000000000001670000000100000000";

/// On the first of three nodes a client makes a file, and syncs: it waits.
fn begin(alloc: Global, cluster: &mut Cluster, told: &mut String) -> Option<()> {
    let revoker = Asked {
        kind: RevokerKind::Least,
    };
    cluster
        .open(alloc, 1, revoker, Durability::Pessimistic)
        .ok()?;
    let create = Op::Create(Path::parse(alloc, "/f").ok()?);
    let called = cluster.try_call(alloc, 1, &create);
    let synced = cluster.try_fsync(1);
    writeln!(told, "{called:?} {synced:?}").ok()
}

/// Tells the node that a frame is for, and its bytes.
fn put_frame(alloc: Global, told: &mut String, frame: &Frame, node: u32) -> Option<()> {
    let mut bytes = Vec::new(alloc);
    encode(frame, &mut bytes).ok()?;
    let digits = hex::encode(alloc, bytes.as_slice()).ok()?;
    writeln!(told, "{node} {digits}").ok()
}

fn send(alloc: Global, cluster: &Cluster, told: &mut String) -> Option<()> {
    let sent = cluster.outgoing(alloc, 1).ok()?;
    for (frame, node) in sent.as_slice() {
        put_frame(alloc, told, frame, *node)?;
    }
    Some(())
}

/// A frame of these bytes comes to node 2.
fn deliver(alloc: Global, cluster: &mut Cluster, digits: &str, told: &mut String) -> Option<()> {
    let bytes = hex::decode(alloc, digits).ok()?;
    let (frame, _) = decode(alloc, bytes.as_slice()).ok()?;
    let taken = cluster.deliver(frame, 2);
    writeln!(told, "{taken:?}").ok()
}

fn make(alloc: Global, cluster: &mut Cluster, told: &mut String) -> Option<()> {
    begin(alloc, cluster, told)?;
    send(alloc, cluster, told)?;
    for digits in [CHANGED, SENT, SENT] {
        deliver(alloc, cluster, digits, told)?;
    }
    cluster.fail(alloc, 3).ok()?;
    deliver(alloc, cluster, SENT, told)
}

/// What is told of it, one thing a line: what the calls came to, what is sent, and what is answered to a changed frame, to the frame,
/// to the frame once more, and in the next epoch.
fn told(alloc: Global) -> Option<String> {
    let mut cluster = Cluster::new(alloc, 3, 8, 4).ok()?;
    let mut told = String::new(alloc);
    make(alloc, &mut cluster, &mut told)?;
    Some(told)
}

#[test]
fn a_frame_is_taken_as_it_was_sent(rt: HostRuntime) -> Result<(), Fail> {
    let told = told(rt.alloc()).expect(&rt, "no memory");
    let wanted = format!(in rt.alloc();
        "Ok(Answered(Done)) Ok(NotYet)\n2 {SENT}\nErr(StaleMessage)\nOk(1)\nOk(1)\nErr(StaleMessage)\n"
    )?;
    assert_eq!(rt; told.as_str(), wanted.as_str());
    Ok(())
}
