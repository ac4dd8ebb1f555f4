//! Sums over the streams of an end.

/// What streams add to the connection's credit: the highest offsets, what was taken, and what is stored, in bytes (RFC 9000, section 4.1);
/// and how many runs the offsets make that came.
#[derive(Clone, Copy, Drop)]
pub struct Tally {
    pub spent: u64,
    pub taken: u64,
    pub stored: u64,
    pub noted: u64,
}
