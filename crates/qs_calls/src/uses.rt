//! Why a stream cannot be opened or used.

use thiserror::Error;

/// Why no stream was opened.
#[derive(Clone, Copy, Debug, PartialEq, Eq, Drop, Error)]
pub enum OpenFault {
    /// As many streams were opened as the peer permits.
    #[error("the peer allows {0} streams")]
    Blocked(u64),
    #[error("the connection is closed")]
    Closed,
    #[error("out of memory")]
    NoMemory,
}

/// Why a stream cannot be used so.
#[derive(Clone, Copy, Debug, PartialEq, Eq, Drop, Error)]
pub enum UseFault {
    #[error("the stream is not open")]
    NoSuchStream,
    #[error("the stream goes the other way")]
    WrongDirection,
    #[error("the stream was finished")]
    Finished,
    #[error("the stream was reset")]
    WasReset,
    #[error("the connection is closed")]
    Closed,
    #[error("out of memory")]
    NoMemory,
}
