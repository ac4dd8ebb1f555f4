//! The bytes that are sent: each is told by its place in the stream.

use std::alloc::{AllocError, Global};

/// The byte at that place.
fn byte_at(place: usize) -> u8 {
    (place % 251) as u8
}

/// The bytes that stand at `place` and behind it, so many.
pub fn bytes_at(alloc: Global, place: usize, count: usize) -> Result<Vec<u8>, AllocError> {
    let mut bytes = Vec::new(alloc);
    for at in 0..count {
        bytes.push(byte_at(place.saturating_add(at)))?;
    }
    Ok(bytes)
}

/// Whether these are the bytes that stand at `place` and behind it.
pub fn are_expected(place: usize, bytes: &[u8]) -> bool {
    bytes
        .iter()
        .enumerate()
        .all(|(at, byte)| *byte == byte_at(place.saturating_add(at)))
}
