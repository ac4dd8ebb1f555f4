ghost use Rattle.std.specs.Prelude.{◌≡◌, ◌+◌, ◌<◌, ◌≤◌, ◌∷◌, ◌++◌, [], length, drop, Some, true, false, OnOk, OnErr, vec_len, vec_capacity};
ghost use Rattle.qs_send.specs.Records.{first_piece};

use crate::piece::Piece;
use qs_ranges::NoMemory;
use std::marker::Model;

// The memory for so many pieces goes from one record to the next; more is given back, so that one large packet doesn't make it stay.
const FEW: usize = 4;

/// The pieces of a packet in the order in which they were declared lost. The first `start` are gone, which costs no move.
#[derive(Drop)]
pub(crate) struct LostRecord {
    number: u64,
    start: usize,
    pieces: Vec<Piece>,
}

impl Model for LostRecord {
    ghost use Rattle.std.specs.Prelude.{◌-◌, ◌≤◌, length, drop, vec_len, vec_capacity};
    ghost use Rattle.qs_send.specs.ByNumber.{Numbered, numbered_code};

    ghost Value = { Numbered };

    ghost coded = { numbered_code };

    ghost view = { λ r. record { number = r.number; pieces = drop r.start r.pieces.items; spare = vec_capacity r.pieces - vec_len r.pieces } };

    ghost invariant = { λ r. r.start ≤ length r.pieces.items };
}

impl LostRecord {
    pub(crate) fn new(number: u64, pieces: Vec<Piece>) -> Self
        ensures number { result.number ≡ number }
        ensures pieces { result.pieces ≡ pieces.items }
    {
        LostRecord {
            number,
            start: 0,
            pieces,
        }
    }

    #[inline(always)]
    pub(crate) fn number(&self) -> u64
        ensures { result ≡ self.now.number }
    {
        self.number
    }

    pub(crate) fn first(&self) -> Option<Piece>
        ensures { result ≡ first_piece (Some self.now.pieces) }
    {
        match self.pieces.get(self.start) {
            Some(piece) => Some(*piece),
            None => None,
        }
    }

    pub(crate) fn is_last(&self) -> bool
        ensures one { result ≡ true → length self.now.pieces ≤ 1 }
        ensures more { result ≡ false → 1 < length self.now.pieces }
    {
        self.pieces.len() - self.start <= 1
    }

    pub(crate) fn reserve(&mut self) -> Result<(), NoMemory>
        ensures number { self.new.number ≡ self.old.number }
        ensures pieces { self.new.pieces ≡ self.old.pieces }
        ensures ok { OnOk result (0 < self.new.spare) }
        ensures more { self.old.spare ≤ self.new.spare }
        ensures stands { OnErr result (self.old.spare ≡ 0) }
    {
        self.pieces.reserve(1)?;
        Ok(())
    }

    pub(crate) fn push(&mut self, piece: Piece)
        requires { 0 < self.old.spare }
        ensures number { self.new.number ≡ self.old.number }
        ensures pieces { self.new.pieces ≡ self.old.pieces ++ piece ∷ [] }
    {
        hold(&mut self.pieces, piece);
    }

    /// Empty memory for the next record; none if it is for many, so that it doesn't stay for ever.
    pub(crate) fn emptied(self) -> Vec<Piece>
        ensures { result.items ≡ [] }
    {
        let mut pieces = self.pieces;
        if pieces.capacity() > FEW {
            return Vec::new(*pieces.allocator());
        }
        pieces.clear();
        pieces
    }

    pub(crate) fn drop_first(&mut self)
        requires { 1 < length self.old.pieces }
        ensures number { self.new.number ≡ self.old.number }
        ensures pieces { self.new.pieces ≡ drop 1 self.old.pieces }
    {
        self.start += 1;
    }
}

// One more piece, for which there is memory.
pub(crate) fn hold(pieces: &mut Vec<Piece>, piece: Piece)
    requires { vec_len pieces.old < vec_capacity pieces.old }
    ensures { pieces.new.items ≡ pieces.old.items ++ piece ∷ [] }
{
    let _ = match piece {
        Piece::Data { stream, chunk } => pieces.push(Piece::Data { stream, chunk }),
        Piece::Told(item) => pieces.push(Piece::Told(item)),
    };
}
