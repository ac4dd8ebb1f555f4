//! The streams of an endpoint: their halves, what these have to do, and sums over them.
#![tactic(auto)]

mod board;
mod boards;
mod places;
mod rows;

pub use board::Task;
pub use boards::Boards;
pub use places::{Place, index_from, index_of, least_stream, lesser, type_of};
