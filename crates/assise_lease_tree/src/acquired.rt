//! What an acquire answers.

use assise_lease_table::lease::Asked;

/// What an acquire answers.
#[derive(Debug, Drop)]
pub enum Acquired {
    /// The client holds the inode in the mode.
    Granted,
    /// These clients were asked for their leases just now, each with its cut. The list is empty where all were asked
    /// before.
    Asked(Vec<Asked>),
}
