//! A row for each command that begins with a keyword.
ghost use Rattle.std.specs.Prelude.{◌≡◌, map};
ghost use Rattle.assise_fault_script.specs.Keywords.{cluster_of, cut_link_of, hot_capacity_of, hot_of, keyword_command, keyword_of, kind_of, link_kind_of, mode_of, node_link_of, open_in_mode_of, open_of, opening_of, uncut_link_of};

use crate::command::{Command, Keyword, LinkKind, RevokerKind};
use crate::fault::ScriptFault;
use crate::number::{number, within};
use assise_names::durability::Durability;
use assise_names::limits::MOST_NODES;

/// The keyword that a word is.
pub fn keyword(word: &str) -> Result<Keyword, ScriptFault>
    ensures { result ≡ keyword_of word.now }
{
    match word {
        "cluster" => Ok(Keyword::Cluster),
        "manual" => Ok(Keyword::Manual),
        "open" => Ok(Keyword::Open),
        "carry" => Ok(Keyword::Carry),
        "digest" => Ok(Keyword::Digest),
        "release" => Ok(Keyword::Release),
        "crash" => Ok(Keyword::Crash),
        "fail" => Ok(Keyword::Fail),
        "back" => Ok(Keyword::Back),
        "refill" => Ok(Keyword::Refill),
        "join" => Ok(Keyword::Join),
        "raise" => Ok(Keyword::Raise),
        "link" => Ok(Keyword::Link),
        "hot" => Ok(Keyword::Hot),
        "tree" => Ok(Keyword::Tree),
        "history" => Ok(Keyword::History),
        "check" => Ok(Keyword::Check),
        _ => Err(ScriptFault::UnknownCommand),
    }
}

/// The command that the words behind the keyword make.
pub fn keyword_command(keyword: Keyword, words: &[&str]) -> Result<Command, ScriptFault>
    ensures { result ≡ keyword_command keyword (map (λ w. w.now) words.now) }
{
    match (keyword, words) {
        (Keyword::Cluster, [nodes, log, hot]) => cluster(nodes, log, hot),
        (Keyword::Manual, []) => Ok(Command::Manual),
        (Keyword::Open, words) => opening(words),
        (Keyword::Carry, [node]) => number(node).map(|node| Command::Carry { node }),
        (Keyword::Digest, [node]) => number(node).map(|node| Command::Digest { node }),
        (Keyword::Release, []) => Ok(Command::Release),
        (Keyword::Crash, [client]) => number(client).map(|client| Command::Crash { client }),
        (Keyword::Fail, [node]) => number(node).map(|node| Command::Fail { node }),
        (Keyword::Back, [node]) => number(node).map(|node| Command::Back { node }),
        (Keyword::Refill, [node]) => number(node).map(|node| Command::Refill { node }),
        (Keyword::Join, [node]) => number(node).map(|node| Command::Join { node }),
        (Keyword::Raise, [node]) => number(node).map(|node| Command::Raise { node }),
        (Keyword::Link, words) => link(words),
        (Keyword::Hot, words) => hot(words),
        (Keyword::Tree, [node]) => number(node).map(|node| Command::Tree { node }),
        (Keyword::History, []) => Ok(Command::History),
        (Keyword::Check, []) => Ok(Command::Check),
        _ => Err(ScriptFault::WrongCount),
    }
}

fn cluster(nodes: &str, log: &str, hot: &str) -> Result<Command, ScriptFault>
    ensures { result ≡ cluster_of nodes.now log.now hot.now }
{
    let nodes = within(1, u64::from(MOST_NODES), nodes)?;
    let log = within(8, 4096, log)?;
    let hot = within(1, 4096, hot)?;
    Ok(Command::Cluster { nodes, log, hot })
}

/// A node, a revoker and, where a third word says so, how the client's fsyncs are served.
fn opening(words: &[&str]) -> Result<Command, ScriptFault>
    ensures { result ≡ opening_of (map (λ w. w.now) words.now) }
{
    match words {
        [node, name] => open(node, name),
        [node, name, mode] => open_in_mode(node, name, mode),
        _ => Err(ScriptFault::WrongCount),
    }
}

fn open(node: &str, name: &str) -> Result<Command, ScriptFault>
    ensures { result ≡ open_of node.now name.now }
{
    let node = number(node)?;
    let kind = kind(name)?;
    Ok(Command::Open {
        node,
        kind,
        durability: Durability::Pessimistic,
    })
}

fn open_in_mode(node: &str, name: &str, mode: &str) -> Result<Command, ScriptFault>
    ensures { result ≡ open_in_mode_of node.now name.now mode.now }
{
    let node = number(node)?;
    let kind = kind(name)?;
    let durability = durability(mode)?;
    Ok(Command::Open {
        node,
        kind,
        durability,
    })
}

/// The one mode that is named.
fn durability(mode: &str) -> Result<Durability, ScriptFault>
    ensures { result ≡ mode_of mode.now }
{
    match mode {
        "optimistic" => Ok(Durability::Optimistic),
        _ => Err(ScriptFault::BadMode),
    }
}

/// A node and its link: three words where the second is `cut`, else two.
fn link(words: &[&str]) -> Result<Command, ScriptFault>
    ensures { result ≡ node_link_of (map (λ w. w.now) words.now) }
{
    match words {
        [node, name] => uncut_link(node, name),
        [node, name, bytes] => cut_link(node, name, bytes),
        _ => Err(ScriptFault::WrongCount),
    }
}

/// A link of another kind than `cut`, which wants one word more.
fn uncut_link(node: &str, name: &str) -> Result<Command, ScriptFault>
    ensures { result ≡ uncut_link_of node.now name.now }
{
    if name == "cut" {
        return Err(ScriptFault::WrongCount);
    }
    let node = number(node)?;
    let kind = link_kind(name)?;
    Ok(Command::Link { node, kind })
}

/// A link that cuts: three words are right with this kind alone.
fn cut_link(node: &str, name: &str, bytes: &str) -> Result<Command, ScriptFault>
    ensures { result ≡ cut_link_of node.now name.now bytes.now }
{
    if name != "cut" {
        return Err(ScriptFault::WrongCount);
    }
    let node = number(node)?;
    let bytes = number(bytes)?;
    let kind = LinkKind::Cut(bytes);
    Ok(Command::Link { node, kind })
}

fn hot(words: &[&str]) -> Result<Command, ScriptFault>
    ensures { result ≡ hot_of (map (λ w. w.now) words.now) }
{
    match words {
        [node, capacity] => hot_capacity(node, capacity),
        _ => Err(ScriptFault::WrongCount),
    }
}

fn hot_capacity(node: &str, capacity: &str) -> Result<Command, ScriptFault>
    ensures { result ≡ hot_capacity_of node.now capacity.now }
{
    let node = number(node)?;
    let capacity = within(1, 4096, capacity)?;
    Ok(Command::Hot { node, capacity })
}

fn kind(word: &str) -> Result<RevokerKind, ScriptFault>
    ensures { result ≡ kind_of word.now }
{
    match word {
        "least" => Ok(RevokerKind::Least),
        "whole" => Ok(RevokerKind::Whole),
        "eights" => Ok(RevokerKind::Eights),
        _ => Err(ScriptFault::BadKind),
    }
}

/// The kind of link that a word names, but for `cut`.
fn link_kind(word: &str) -> Result<LinkKind, ScriptFault>
    ensures { result ≡ link_kind_of word.now }
{
    match word {
        "perfect" => Ok(LinkKind::Perfect),
        "lose" => Ok(LinkKind::Lose),
        "repeat" => Ok(LinkKind::Repeat),
        "delay" => Ok(LinkKind::Delay),
        "fault" => Ok(LinkKind::Fault),
        _ => Err(ScriptFault::BadLink),
    }
}
