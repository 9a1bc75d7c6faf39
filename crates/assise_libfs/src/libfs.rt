//! A client's file system.
ghost use Rattle.std.specs.Prelude.{◌≡◌, ◌≤◌, Some};
ghost use Rattle.assise_history.specs.Legal.{IsLegal, calls_made};
ghost use Rattle.assise_keeper.specs.Passes.{IsPassOf, client as client_of_pass, seen};
ghost use Rattle.assise_history.specs.Legal.{IsOpenedOn};

use crate::served::Served;
use crate::turns::{answered, open_turn, try_turn};
use crate::waited::{Waited, pause};
use assise_history::growing::Growing;
use assise_keeper::keeper::Keeper;
use assise_keeper::pass::Pass;
use assise_names::byte_string::ByteString;
use assise_names::call::Op;
use assise_names::durability::Durability;
use assise_names::path::Path;
use assise_names::refusal::Refusal;
use assise_names::reply::Reply;
use std::alloc::Global;
use std::sync::Wait;

/// The file system of one client, over a state that threads take in turn. Its type keeps that its client was opened on its node, and
/// that what it has seen is legal.
///
/// Each call is a few turns: a turn takes the state, tries the call once, and gives the state back. Where the try waits for a lease or
/// a replication, others go on before the next turn: after each of the first 16 turns of a call they only run first, after a later one
/// the client waits until a node's worker did something, for 100 microseconds at most. Or its thread does something else
/// ([`LibFs::call_meanwhile`]), as the turns of the nodes' workers.
///
/// A call that is refused makes no entry and changes no file:
///
/// - [`Refusal::OutOfMemory`]: a growth was refused. The call may be made again.
/// - [`Refusal::Busy`]: all turns are spent, and each only waited. The call may be made again.
/// - [`Refusal::NodeDown`]: the client's node has failed since the client was opened. The client is over; open one on another node.
/// - [`Refusal::ClientGone`]: the client has crashed. It is over.
/// - [`Refusal::InodesSpent`]: a create or mkdir, of a client that has made 1,048,576 inodes.
/// - [`Refusal::TooLarge`]: a write of more than 65,536 bytes.
/// - [`Refusal::LogFull`]: the call needs a record and the client's log is at its limit. A dsync, or a pessimistic fsync, and
///   digests make room.
#[derive(Drop)]
pub struct LibFs<'a, S: Growing> {
    keeper: &'a Keeper<S>,
    pass: Pass<S>,
    client: u32,
    node: u32,
    limit: u32,
    calls: u64,
    ghost ours: { IsPassOf keeper.now pass },
    ghost its: { client_of_pass pass ≡ Some client },
    ghost opened: { ∥ IsOpenedOn (seen pass) client node ∥₁ },
    ghost legal: { ∥ IsLegal (seen pass) ∥₁ },
    ghost counted: { calls ≡ calls_made client (seen pass) },
    ghost some_turns: { 1 ≤ limit },
}

impl<'a, S: Served> LibFs<'a, S> {
    ghost use Rattle.std.specs.Prelude.{◌≡◌, ◌≤◌, IfErr, IfOk, None};
    ghost use Rattle.assise_names.specs.declared.call.Op.TheVariants.{Create, Dsync, Fsync, List as Lists, Mkdir, Read, Rename, Rmdir, Stat, Truncate, Unlink, Write};
    ghost use Rattle.assise_history.specs.Legal.{IsLegal, calls_made};
    ghost use Rattle.assise_keeper.specs.declared.view.Opens.TheVariants.{Alone, Never};
    ghost use Rattle.assise_keeper.specs.Clients.{Extends, MayOpenClients, openings_of};
    ghost use Rattle.assise_keeper.specs.Passes.{AreOfOneKeeper, IsPassOf, client as client_of_pass, last, mine, opens, seen};
    ghost use Rattle.assise_libfs.specs.Calling.{MayRefuse, MayRefuseTry, SeesCall, SeesTry};
    ghost use Rattle.assise_libfs.specs.Clients.{IsSameClient, client_of, keeper_of, limit_of, node_of, opens_of, pass_of, seen_by};
    ghost use Rattle.assise_libfs.specs.Lives.{EndsWithOpening, IsOpenedAs, OpensNoOther};
    ghost use Rattle.assise_libfs.specs.Opening.{MayRefuseOpen};
    ghost use Rattle.assise_libfs.specs.InTurns.{IsPassTurn, TurnsOnce, TurnsTo};
    ghost use Rattle.assise_libfs.specs.MadeCalls.{MakesOwnCall};
    ghost use Rattle.assise_model_events.specs.Events.{open_client, opened, refused};

    /// Opens a client on a node, with this durability, for calls of 1 to 1,000,000 turns. The client is the pass's from
    /// then on, beside its right to open clients; what is stored with it serves the state, as a revoker does.
    ///
    /// Refused with [`Refusal::BadNode`] where there is no such node, [`Refusal::NodeDown`] where it is down or comes back,
    /// [`Refusal::BadClient`] where no client can be opened any more, and [`Refusal::OutOfMemory`]. Then the pass, which may have seen
    /// more, has no client and keeps its right, and what would have been stored come back.
    pub fn open<R: Wait>(
        rt: &R,
        alloc: Global,
        keeper: &'a Keeper<S>,
        pass: Pass<S>,
        node: u32,
        stored: S::Stored,
        durability: Durability,
        limit: u32,
    ) -> Result<LibFs<'a, S>, (Refusal, Pass<S>, S::Stored)>
        requires pass { IsPassOf keeper.now pass × (client_of_pass pass ≡ None) }
        requires right { MayOpenClients (opens pass) }
        requires some_turns { 1 ≤ limit }
        requires few_turns { limit ≤ 1000000 }
        ensures keeper { IfOk result (λ it. keeper_of it ≡ keeper.now) }
        ensures node { IfOk result (λ it. node_of it ≡ node) }
        ensures limit { IfOk result (λ it. limit_of it ≡ limit) }
        ensures seen { IfOk result (λ it. Extends (seen_by it) (seen pass)) }
        ensures opened { IfOk result
            (λ it. ∥ IsOpenedAs (client_of it) node durability (seen_by it) ∥₁) }
        ensures last { IfOk result
            (λ it. EndsWithOpening (client_of it) node durability (seen pass) (seen_by it)) }
        ensures alone { IfOk result (λ it. opens pass ≡ Alone →
            OpensNoOther (client_of it) node durability (seen pass) (seen_by it)) }
        ensures right { IfOk result (λ it. opens_of it ≡ opens pass) }
        ensures no_calls { IfOk result (λ it. calls_made (client_of it) (seen_by it) ≡ 0) }
        ensures refused { IfErr result (λ back. MayRefuseOpen node (seen back.1) back.0) }
        ensures pass_back { IfErr result (λ back.
            IsPassOf keeper.now back.1 × (client_of_pass back.1 ≡ None)) }
        ensures right_back { IfErr result (λ back. opens back.1 ≡ opens pass) }
        ensures seen_back { IfErr result (λ back. Extends (seen back.1) (seen pass)) }
        ensures alone_back { IfErr result (λ back. opens pass ≡ Alone →
            openings_of (seen back.1) ≡ openings_of (seen pass)) }
        ensures given_back { IfErr result (λ back. back.2 ≡ stored) }
        ensures turn { IfOk result (λ it. IsPassTurn S.Growing.history S.Growing.leads
            S.Growing.works S.acts (open_client node durability) (opened (client_of it))
            pass (pass_of it)) }
        ensures turn_back { IfErr result (λ back. IsPassTurn S.Growing.history
            S.Growing.leads S.Growing.works S.acts (open_client node durability)
            (refused back.0) pass back.1) }
    {
        let mut pass = pass;
        match open_turn(rt, alloc, keeper, &mut pass, node, stored, durability) {
            Ok(client) => Ok(LibFs {
                keeper,
                pass,
                client,
                node,
                limit,
                calls: 0,
            }),
            Err((refusal, stored)) => Err((refusal, pass, stored)),
        }
    }

    /// Makes a file without bytes at a path where nothing is.
    pub fn create<R: Wait>(&mut self, rt: &R, alloc: Global, path: Path) -> Result<Reply, Refusal>
        ensures makes { MakesOwnCall S.Growing.history S.acts self.old (Create path)
            result self.new }
    {
        self.call(rt, alloc, &Op::Create(path))
    }

    /// Makes a directory without entries at a path where nothing is.
    pub fn mkdir<R: Wait>(&mut self, rt: &R, alloc: Global, path: Path) -> Result<Reply, Refusal>
        ensures makes { MakesOwnCall S.Growing.history S.acts self.old (Mkdir path)
            result self.new }
    {
        self.call(rt, alloc, &Op::Mkdir(path))
    }

    /// Reads at most `most` bytes of a file, from an offset on.
    pub fn read<R: Wait>(
        &mut self,
        rt: &R,
        alloc: Global,
        path: Path,
        offset: u64,
        most: u64,
    ) -> Result<Reply, Refusal>
        ensures makes { MakesOwnCall S.Growing.history S.acts self.old (Read path offset most)
            result self.new }
    {
        self.call(rt, alloc, &Op::Read(path, offset, most))
    }

    /// Writes bytes into a file at an offset, 65,536 at most; a gap before them gets zeros.
    pub fn write<R: Wait>(
        &mut self,
        rt: &R,
        alloc: Global,
        path: Path,
        offset: u64,
        bytes: ByteString,
    ) -> Result<Reply, Refusal>
        ensures makes { MakesOwnCall S.Growing.history S.acts self.old (Write path offset bytes)
            result self.new }
    {
        self.call(rt, alloc, &Op::Write(path, offset, bytes))
    }

    /// Gives a file another size in bytes: what is behind it goes, what it lacks is zeros.
    pub fn truncate<R: Wait>(
        &mut self,
        rt: &R,
        alloc: Global,
        path: Path,
        size: u64,
    ) -> Result<Reply, Refusal>
        ensures makes { MakesOwnCall S.Growing.history S.acts self.old (Truncate path size)
            result self.new }
    {
        self.call(rt, alloc, &Op::Truncate(path, size))
    }

    /// Moves what stands at a path to another.
    pub fn rename<R: Wait>(
        &mut self,
        rt: &R,
        alloc: Global,
        from: Path,
        to: Path,
    ) -> Result<Reply, Refusal>
        ensures makes { MakesOwnCall S.Growing.history S.acts self.old (Rename from to)
            result self.new }
    {
        self.call(rt, alloc, &Op::Rename(from, to))
    }

    /// Removes a file.
    pub fn unlink<R: Wait>(&mut self, rt: &R, alloc: Global, path: Path) -> Result<Reply, Refusal>
        ensures makes { MakesOwnCall S.Growing.history S.acts self.old (Unlink path)
            result self.new }
    {
        self.call(rt, alloc, &Op::Unlink(path))
    }

    /// Removes a directory without entries.
    pub fn rmdir<R: Wait>(&mut self, rt: &R, alloc: Global, path: Path) -> Result<Reply, Refusal>
        ensures makes { MakesOwnCall S.Growing.history S.acts self.old (Rmdir path)
            result self.new }
    {
        self.call(rt, alloc, &Op::Rmdir(path))
    }

    /// Lists the names of a directory's entries, in ascending order of their bytes.
    pub fn list<R: Wait>(&mut self, rt: &R, alloc: Global, path: Path) -> Result<Reply, Refusal>
        ensures makes { MakesOwnCall S.Growing.history S.acts self.old (Lists path)
            result self.new }
    {
        self.call(rt, alloc, &Op::List(path))
    }

    /// Says what stands at a path, with its count of bytes or entries.
    pub fn stat<R: Wait>(&mut self, rt: &R, alloc: Global, path: Path) -> Result<Reply, Refusal>
        ensures makes { MakesOwnCall S.Growing.history S.acts self.old (Stat path) result self.new }
    {
        self.call(rt, alloc, &Op::Stat(path))
    }

    /// Where the client was opened pessimistic, as [`LibFs::dsync`]. Where it was opened optimistic it is answered at once, and
    /// promises nothing.
    pub fn fsync<R: Wait>(&mut self, rt: &R, alloc: Global) -> Result<Reply, Refusal>
        ensures makes { MakesOwnCall S.Growing.history S.acts self.old Fsync result self.new }
    {
        self.call(rt, alloc, &Op::Fsync)
    }

    /// Is answered once all full nodes have all that the client has written.
    pub fn dsync<R: Wait>(&mut self, rt: &R, alloc: Global) -> Result<Reply, Refusal>
        ensures makes { MakesOwnCall S.Growing.history S.acts self.old Dsync result self.new }
    {
        self.call(rt, alloc, &Op::Dsync)
    }

    /// Makes a call: it is tried in turns until a try is answered or refused, or all turns are spent. Between two turns the client waits.
    pub fn call<R: Wait>(&mut self, rt: &R, alloc: Global, op: &Op) -> Result<Reply, Refusal>
        ensures same { IsSameClient self.old self.new }
        ensures sees { SeesCall (client_of self.old) op.now
            (seen_by self.old) result (seen_by self.new) }
        ensures legal { ∥ IsLegal (seen_by self.new) ∥₁ }
        ensures refused { IfErr result (λ r. MayRefuse (client_of self.old) op.now
            (seen_by self.new) r) }
        ensures turns { TurnsTo S.Growing.history S.acts (client_of self.old) op.now
            (limit_of self.old) result (seen_by self.old) (seen_by self.new) }
    {
        let progress = self.keeper.progress();
        self.call_meanwhile(rt, alloc, op, |waited| pause(rt, progress, waited))
    }

    /// The same, where the client's thread does something else behind each try that waits.
    pub fn call_meanwhile<R: Wait, F: FnMut(Waited)>(
        &mut self,
        rt: &R,
        alloc: Global,
        op: &Op,
        mut meanwhile: F,
    ) -> Result<Reply, Refusal>
        requires callable { F.IsAlwaysCallable meanwhile }
        ensures same { IsSameClient self.old self.new }
        ensures sees { SeesCall (client_of self.old) op.now
            (seen_by self.old) result (seen_by self.new) }
        ensures legal { ∥ IsLegal (seen_by self.new) ∥₁ }
        ensures refused { IfErr result (λ r. MayRefuse (client_of self.old) op.now
            (seen_by self.new) r) }
        ensures turns { TurnsTo S.Growing.history S.acts (client_of self.old) op.now
            (limit_of self.old) result (seen_by self.old) (seen_by self.new) }
    {
        for turn in 0..self.limit {
            let read = self.keeper.progress().read();
            match self.turn(rt, alloc, op) {
                Ok(Some(reply)) => return Ok(reply),
                Ok(None) => meanwhile(Waited { turn, read }),
                Err(refusal) => return Err(refusal),
            }
        }
        Err(Refusal::Busy)
    }

    // One try of a call. No state has the memory for 2^64 calls.
    fn turn<R: Wait>(&mut self, rt: &R, alloc: Global, op: &Op) -> Result<Option<Reply>, Refusal>
        ensures same { IsSameClient self.old self.new }
        ensures sees { SeesTry (client_of self.old) op.now
            (seen_by self.old) result (seen_by self.new) }
        ensures refused { IfErr result (λ r. MayRefuseTry (client_of self.old) op.now
            (seen_by self.new) r) }
        ensures turn { TurnsOnce S.Growing.history S.acts (client_of self.old) op.now result
            (seen_by self.old) (seen_by self.new) }
    {
        if self.calls == u64::MAX {
            return Err(Refusal::OutOfMemory);
        }
        let tried = try_turn(rt, alloc, self.keeper, &mut self.pass, self.client, op);
        self.calls += answered(&tried);
        tried
    }

    /// Lets two clients of one keeper see the same: one history, which extends what each had seen. It waits until the state is there.
    pub fn meet<R: Wait>(
        rt: &R,
        first: LibFs<'a, S>,
        second: LibFs<'a, S>,
    ) -> (LibFs<'a, S>, LibFs<'a, S>)
        requires { AreOfOneKeeper (pass_of first) (pass_of second) }
        ensures same { IsSameClient first.entry result.0 × IsSameClient second.entry result.1 }
        ensures one { seen_by result.0 ≡ seen_by result.1 }
        ensures legal { ∥ IsLegal (seen_by result.0) ∥₁ }
        ensures first { Extends (seen_by result.0) (seen_by first.entry) }
        ensures second { Extends (seen_by result.1) (seen_by second.entry) }
        ensures calls_of_first { mine (pass_of result.0) ≡ mine (pass_of first.entry) }
        ensures calls_of_second { mine (pass_of result.1) ≡ mine (pass_of second.entry) }
    {
        let LibFs {
            keeper,
            pass,
            client,
            node,
            limit,
            calls,
        } = first;
        let LibFs {
            keeper: other_keeper,
            pass: other_pass,
            client: other_client,
            node: other_node,
            limit: other_limit,
            calls: other_calls,
        } = second;
        let (pass, other_pass) = keeper.meet(rt, pass, other_pass);
        let first = LibFs {
            keeper,
            pass,
            client,
            node,
            limit,
            calls,
        };
        let second = LibFs {
            keeper: other_keeper,
            pass: other_pass,
            client: other_client,
            node: other_node,
            limit: other_limit,
            calls: other_calls,
        };
        (first, second)
    }

    /// A pass that has seen the same, has no client and may not open any: for a worker of the client's thread.
    pub fn split(&mut self) -> Pass<S>
        ensures same { IsSameClient self.old self.new }
        ensures seen { seen_by self.new ≡ seen_by self.old }
        ensures pass { IsPassOf (keeper_of self.old) result }
        ensures nobody { client_of_pass result ≡ None }
        ensures as_seen { seen result ≡ seen_by self.old }
        ensures opens_none { opens result ≡ Never }
    {
        self.keeper.split(&mut self.pass)
    }

    /// The keeper of the state that the client's calls are made on.
    pub fn keeper(&self) -> &'a Keeper<S>
        ensures { result.now ≡ keeper_of self.now }
    {
        self.keeper
    }

    /// A pass that has seen the same, has no client, and has the right to open clients that the client's pass had. The client's has none
    /// from then on.
    pub fn split_opener(&mut self) -> Pass<S>
        ensures client { client_of self.new ≡ client_of self.old }
        ensures node { node_of self.new ≡ node_of self.old }
        ensures keeper { keeper_of self.new ≡ keeper_of self.old }
        ensures limit { limit_of self.new ≡ limit_of self.old }
        ensures seen { seen_by self.new ≡ seen_by self.old }
        ensures opens_none { opens_of self.new ≡ Never }
        ensures pass { IsPassOf (keeper_of self.old) result }
        ensures nobody { client_of_pass result ≡ None }
        ensures as_seen { seen result ≡ seen_by self.old }
        ensures right { opens result ≡ opens_of self.old }
        ensures last { last result ≡ last (pass_of self.old) }
    {
        self.keeper.split_opener(&mut self.pass)
    }

    /// The node that the client was opened on, from 1 on.
    pub fn node(&self) -> u32
        ensures { result ≡ node_of self.now }
    {
        self.node
    }

    /// The client's number, from 1 on.
    pub fn client(&self) -> u32
        ensures { result ≡ client_of self.now }
    {
        self.client
    }

    /// How many of the client's calls were answered: the number of its next call.
    pub fn calls_made(&self) -> u64
        ensures { result ≡ calls_made (client_of self.now) (seen_by self.now) }
    {
        self.calls
    }

    /// The client's pass, which knows all that the client has seen.
    pub fn into_pass(self) -> Pass<S>
        ensures pass { result ≡ pass_of self.entry }
        ensures free { IsPassOf (keeper_of self.entry) result }
    {
        let LibFs {
            keeper: _,
            pass,
            client: _,
            node: _,
            limit: _,
            calls: _,
        } = self;
        pass
    }
}
