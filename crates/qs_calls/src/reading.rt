//! What a reader gets that consumes bytes without a copy.

use qs_recv::Read;

#[derive(Clone, Copy, Debug, PartialEq, Eq, Drop)]
pub struct Consumed {
    /// What a read of so many bytes would return.
    pub read: Read,
    /// Whether the stream ends with these bytes. Then that counts as read (RFC 9000, section 3.2), so that no further call is needed.
    pub at_end: bool,
}
