//! The receiving half of a stream: what arrived is put in order, read once, and paid back as credit.
#![tactic(auto)]

mod assembly;
mod credit;
mod half;
pub mod laws;
mod live;
mod over;
mod pages;
mod rest;
mod ring;
mod ring_assembly;
mod window;

pub use assembly::{Assembly, Memory, Peeking, Skipping};
pub use credit::{Share, next_limit, step_of};
pub use half::{Highest, Judged, Peek, Read, RecvFault, RecvHalf, RecvState, Sizes, Standing};
pub use ring_assembly::RingAssembly;
