//! Steps on a cluster, as text.
use assise_fault_script::command::Command;
use assise_fault_script::parse::parse;
use assise_lease_table::revoker::Revokes;
use assise_machine_calls::calling::try_call;
use assise_machine_calls::opening::open;
use assise_machine_calls::release::release_ready;
use assise_machine_calls::sync::try_fsync;
use assise_machine_state::sound::SoundOf;
use assise_names::limits::MOST_NODES;
use assise_private_log::log_view::LogView;
use assise_revokers::kinds::least;
use std::alloc::Global;

/// A client that hands the least part of its log over where a lease is asked for.
#[derive(Clone, Copy)]
pub(crate) struct Least;

impl Revokes for Least {
    ghost use Rattle.assise_private_log.specs.Touches.{Covers};

    ghost answers = { λ _ view inode cut. Covers view inode cut };

    fn cut(&self, view: &LogView, inode: u64) -> u64 {
        least(view, inode)
    }
}

/// A cluster of such clients.
pub(crate) type Sound = SoundOf<Least>;

/// Makes a step, and appends what it comes to: `sync CLIENT`, or a line of a script. None where there is no such step, or no memory to
/// read it or to tell of it.
pub(crate) fn put_step(
    alloc: Global,
    sound: &mut Sound,
    step: &str,
    text: &mut String,
) -> Option<()> {
    match step.strip_prefix("sync ") {
        Some(client) => {
            let turn = try_fsync(sound, client.parse::<u32>().ok()?);
            write!(text, "{turn:?}").ok()
        }
        None => put_command(alloc, sound, command_of(alloc, step)?, text),
    }
}

fn put_command(
    alloc: Global,
    sound: &mut Sound,
    command: Command,
    text: &mut String,
) -> Option<()> {
    match command {
        Command::Open {
            node,
            durability,
            ..
        } => {
            let opened = open(alloc, sound, small(node), Least, durability);
            let client = opened.map_err(|refused| refused.0);
            write!(text, "{client:?}").ok()
        }
        Command::Call { client, op } => {
            let turn = try_call(alloc, sound, small(client), &op);
            write!(text, "{turn:?}").ok()
        }
        Command::Release => {
            let count = release_ready(sound);
            write!(text, "{count}").ok()
        }
        _ => None,
    }
}

/// A number of a line as that of a node or a client, of which there is none so great.
fn small(number: u64) -> u32 {
    u32::try_from(number).unwrap_or(u32::MAX)
}

/// The command of a line of a script behind a cluster.
fn command_of(alloc: Global, line: &str) -> Option<Command> {
    let script = format!(in alloc; "cluster 1 8 1\n{line}").ok()?;
    let mut commands = parse(alloc, script.as_bytes()).ok()?;
    let last = commands.pop()?;
    Some(last.command)
}

/// A cluster of `nodes` nodes, whose clients' logs have 8 records at most.
pub(crate) fn cluster_of(alloc: Global, nodes: u32) -> Option<Sound> {
    if nodes == 0 || nodes > MOST_NODES {
        return None;
    }
    Sound::new(alloc, nodes, 8, 1).ok()
}
