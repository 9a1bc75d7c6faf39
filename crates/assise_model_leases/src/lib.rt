//! Laws of the machine's leases: they are granted where nobody stands against them, asked for where somebody does, and handed
//! over once what a client wrote is digested everywhere. Each function does nothing: its contract is the law.
#![tactic(auto)]

pub mod chances;
pub mod handing;
pub mod waiting;
