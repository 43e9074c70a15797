// A tiny kind from outside: a thread through each row of cells. It shows that the interface of kinds can be met by somebody else.
#![tactic(auto)]

pub mod bead;
pub mod thread;
