//! One client.
ghost use Rattle.std.specs.Prelude.{◌≡◌};

use assise_names::durability::Durability;
use std::marker::Model;

/// What is known of a client, beside its logs and its leases.
#[derive(Debug, Drop)]
pub struct Client {
    /// The node on which it was opened.
    pub(crate) home: u32,
    /// How its fsyncs are served.
    pub(crate) durability: Durability,
    /// The place up to which its log is to be replicated.
    pub(crate) goal: u64,
    /// How many of its calls were answered, which is the number of its next one.
    pub(crate) next: u64,
    /// How many inodes it made, at most 1,048,576.
    pub(crate) made: u64,
    /// Whether it crashed.
    pub(crate) crashed: bool,
    /// Whether its node has failed since it was opened.
    pub(crate) failed: bool,
    /// The cut of all its leases, once it crashed or its node failed.
    pub(crate) last_cut: u64,
}

impl Model for Client {
    ghost use Rattle.assise_machine_state.specs.ClientValues.{ClientValue, coded_client};

    ghost Value = { ClientValue };

    ghost coded = { coded_client };

    ghost view = { λ c. record { home = c.home; durability = c.durability; goal = c.goal; next = c.next; made = c.made; crashed = c.crashed; failed = c.failed; last_cut = c.last_cut } };
}

impl Client {
    ghost use Rattle.assise_machine_state.specs.ClientValues.{cut_once_asked};

    /// The node on which it was opened.
    pub fn home(&self) -> u32
        ensures { result ≡ self.now.home }
    {
        self.home
    }

    /// How its fsyncs are served.
    pub fn durability(&self) -> Durability
        ensures { result ≡ self.now.durability }
    {
        self.durability
    }

    /// The place up to which its log is to be replicated.
    pub fn goal(&self) -> u64
        ensures { result ≡ self.now.goal }
    {
        self.goal
    }

    /// How many of its calls were answered, which is the number of its next one.
    pub fn next(&self) -> u64
        ensures { result ≡ self.now.next }
    {
        self.next
    }

    /// How many inodes it made.
    pub fn made(&self) -> u64
        ensures { result ≡ self.now.made }
    {
        self.made
    }

    /// Whether it crashed.
    pub fn has_crashed(&self) -> bool
        ensures { result ≡ self.now.crashed }
    {
        self.crashed
    }

    /// Whether its node has failed since it was opened.
    pub fn has_failed(&self) -> bool
        ensures { result ≡ self.now.failed }
    {
        self.failed
    }

    /// The cut of all its leases once it is over: the place in its log before which all full nodes have to have digested it
    /// before they go.
    pub fn last_cut(&self) -> u64
        ensures { result ≡ self.now.last_cut }
    {
        self.last_cut
    }

    /// The cut of a revoked lease of it for which it gave an answer: the answer, or its last cut once it is over.
    pub fn cut(&self, answered: u64) -> u64
        ensures { result ≡ cut_once_asked self.now answered }
    {
        if self.crashed || self.failed {
            self.last_cut
        } else {
            answered
        }
    }
}
