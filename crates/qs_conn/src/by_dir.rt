//! What there is of each direction of streams.
ghost use Rattle.std.specs.Prelude.{◌≡◌, ◌+◌, ◌-◌, ◌≤◌, ◌^◌, true};
ghost use Rattle.qs_conn.specs.ByDir.{of_dir, with_dir};
ghost use Rattle.qs_conn.specs.Ended.{one_if, recounted, MayRecount};

use crate::endpoint::is_uni;
use qs_wire::{Dir, StreamId};

/// One of each direction of streams (RFC 9000, section 2.1): what is said of one direction is so written once.
#[derive(Clone, Copy, Drop)]
pub(crate) struct ByDir<T> {
    pub bidi: T,
    pub uni: T,
}

impl<T: Copy> ByDir<T> {
    pub(crate) fn new(bidi: T, uni: T) -> Self
        ensures { result ≡ record { bidi = bidi; uni = uni } }
    {
        ByDir { bidi, uni }
    }

    #[inline(always)]
    pub(crate) fn of(&self, dir: Dir) -> T
        ensures { result ≡ of_dir self.now dir }
    {
        match dir {
            Dir::Bidi => self.bidi,
            Dir::Uni => self.uni,
        }
    }

    pub(crate) fn set(&mut self, dir: Dir, value: T)
        ensures { self.new ≡ with_dir dir value self.old }
    {
        match dir {
            Dir::Bidi => self.bidi = value,
            Dir::Uni => self.uni = value,
        }
    }
}

// Counted as streams change, since counts of streams follow it at every call (RFC 9000, sections 3 and 4.6).
impl ByDir<u64> {
    pub(crate) fn is_same(&self, other: ByDir<u64>) -> bool
        ensures { result ≡ true → self.now ≡ other }
    {
        self.bidi == other.bidi && self.uni == other.uni
    }

    /// What the stream added before goes, so that it isn't counted twice. Modulo 2^64: whoever asks knows that the counts fit.
    pub(crate) fn recount(&mut self, stream: StreamId, was: bool, is: bool)
        ensures { MayRecount stream was self.old → self.new ≡ recounted stream was is self.old }
    {
        if is_uni(stream) {
            self.uni = moved(self.uni, was, is);
        } else {
            self.bidi = moved(self.bidi, was, is);
        }
    }
}

fn moved(count: u64, was: bool, is: bool) -> u64
    ensures { count ≤ 2 ^ 60 → one_if was ≤ count → result ≡ count + one_if is - one_if was }
{
    count
        .wrapping_add(u64::from(is))
        .wrapping_sub(u64::from(was))
}
