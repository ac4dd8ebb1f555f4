//! The sending half of a stream: what is written goes out in chunks, and again where a chunk was lost.
#![tactic(auto)]

mod ack_pass;
mod by_number;
mod carried;
mod edits;
mod fit;
mod gone;
mod half;
mod halves;
mod kept;
pub mod laws;
mod live_offsets;
mod lost_pass;
mod lost_record;
mod lost_records;
mod offsets;
mod parts;
mod piece;
mod records;
mod remaining;
mod view;

pub use ack_pass::AckPass;
pub use half::{MAX_VARINT, SendHalf};
pub use halves::SendHalves;
pub use lost_pass::LostPass;
pub use lost_records::LostRecords;
pub use offsets::{Memory, Offsets};
pub use parts::{Chunk, Reset, SendFault, SendState};
pub use piece::{Item, Piece};
pub use records::Records;
pub use view::SendView;
