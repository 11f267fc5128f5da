//! The faults that lie neither in a file nor in a certificate: memory, a read, a write, the command line, a step that has no room.
//!
//! In: such a fault. Out: its number and its name, the line that a program prints for it, and the exit status. Proved against
//! `specs/Stops.antt`, which has a row for each. The crates above answer faults of their own, and take the lines and the statuses of
//! these six from here.
#![tactic(auto)]

pub use stop::Stop;

mod stop;
