ghost use Rattle.std.specs.Prelude.{◌≡◌};
ghost use Rattle.qs_wire.specs.Layout.{view};
ghost use Rattle.qs_c.specs.Frames.{of_kind, dir_number, with_counts, numbers_told, fault_of};
ghost use Rattle.qs_c.specs.Places.{fault_from};

use qs_wire::{Dir, EcnCounts, Frame, WireFault};

/// One struct for all kinds, since C has no enum with fields: what a frame of its kind doesn't have is 0. Its bytes and its token are given
/// by their places, so that nothing is lent.
#[repr(C)]
#[derive(Clone, Copy, Drop)]
pub struct GvFrame {
    pub kind: u32,
    pub dir: u32,
    pub fin: bool,
    pub has_ecn: bool,
    pub place: usize,
    pub frame_type: u64,
    pub stream: u64,
    pub offset: u64,
    pub code: u64,
    pub final_size: u64,
    pub limit: u64,
    pub largest: u64,
    pub delay: u64,
    pub ect0: u64,
    pub ect1: u64,
    pub ce: u64,
    pub sequence: u64,
    pub retire: u64,
    pub at_fault: u64,
    pub bytes_at: usize,
    pub len: usize,
    pub token_at: usize,
}

#[repr(C)]
#[derive(Clone, Copy, Drop)]
pub struct GvFault {
    pub kind: u64,
    pub code: u64,
    pub frame_type: u64,
    pub place: usize,
}

impl GvFrame {
    pub(crate) fn of(frame: &Frame) -> GvFrame
        ensures { result ≡ numbers_told (view frame.now) }
    {
        match *frame {
            Frame::Padding => of_kind(0),
            Frame::Ping => of_kind(1),
            Frame::Ack {
                largest,
                delay,
                ecn,
                ..
            } => with_counts(
                ecn,
                GvFrame {
                    largest,
                    delay,
                    ..of_kind(2)
                },
            ),
            Frame::ResetStream {
                stream,
                code,
                final_size,
            } => GvFrame {
                stream: stream.value(),
                code,
                final_size,
                ..of_kind(3)
            },
            Frame::StopSending { stream, code } => GvFrame {
                stream: stream.value(),
                code,
                ..of_kind(4)
            },
            Frame::Crypto { offset, .. } => GvFrame {
                offset,
                ..of_kind(5)
            },
            Frame::NewToken { .. } => of_kind(6),
            Frame::Stream {
                stream,
                offset,
                fin,
                ..
            } => GvFrame {
                stream: stream.value(),
                offset,
                fin,
                ..of_kind(7)
            },
            Frame::MaxData { maximum } => GvFrame {
                limit: maximum,
                ..of_kind(8)
            },
            Frame::MaxStreamData { stream, maximum } => GvFrame {
                stream: stream.value(),
                limit: maximum,
                ..of_kind(9)
            },
            Frame::MaxStreams { dir, count } => GvFrame {
                dir: dir_number(dir),
                limit: count,
                ..of_kind(10)
            },
            Frame::DataBlocked { limit } => GvFrame {
                limit,
                ..of_kind(11)
            },
            Frame::StreamDataBlocked { stream, limit } => GvFrame {
                stream: stream.value(),
                limit,
                ..of_kind(12)
            },
            Frame::StreamsBlocked { dir, count } => GvFrame {
                dir: dir_number(dir),
                limit: count,
                ..of_kind(13)
            },
            Frame::NewConnectionId {
                sequence,
                retire,
                ..
            } => GvFrame {
                sequence,
                retire,
                ..of_kind(14)
            },
            Frame::RetireConnectionId { sequence } => GvFrame {
                sequence,
                ..of_kind(15)
            },
            Frame::PathChallenge { .. } => of_kind(16),
            Frame::PathResponse { .. } => of_kind(17),
            Frame::ConnectionClose {
                code,
                frame_type,
                ..
            } => GvFrame {
                code,
                at_fault: frame_type,
                ..of_kind(18)
            },
            Frame::ApplicationClose { code, .. } => GvFrame {
                code,
                ..of_kind(19)
            },
            Frame::HandshakeDone => of_kind(20),
        }
    }
}

pub(crate) fn of_kind(kind: u32) -> GvFrame
    ensures { result ≡ of_kind kind }
{
    GvFrame {
        kind,
        dir: 0,
        fin: false,
        has_ecn: false,
        place: 0,
        frame_type: 0,
        stream: 0,
        offset: 0,
        code: 0,
        final_size: 0,
        limit: 0,
        largest: 0,
        delay: 0,
        ect0: 0,
        ect1: 0,
        ce: 0,
        sequence: 0,
        retire: 0,
        at_fault: 0,
        bytes_at: 0,
        len: 0,
        token_at: 0,
    }
}

fn dir_number(dir: Dir) -> u32
    ensures { result ≡ dir_number dir }
{
    match dir {
        Dir::Bidi => 0,
        Dir::Uni => 1,
    }
}

fn with_counts(ecn: Option<EcnCounts>, frame: GvFrame) -> GvFrame
    ensures { result ≡ with_counts ecn frame }
{
    match ecn {
        Some(counts) => GvFrame {
            has_ecn: true,
            ect0: counts.ect0,
            ect1: counts.ect1,
            ce: counts.ce,
            ..frame
        },
        None => frame,
    }
}

impl GvFault {
    /// It was read as if it stood at the front, so its place is added.
    pub(crate) fn of(fault: WireFault, place: usize) -> GvFault
        ensures { result ≡ fault_of (fault_from place fault) }
    {
        GvFault {
            kind: fault.kind.number(),
            code: fault.code,
            frame_type: fault.frame_type,
            place,
        }
    }
}
