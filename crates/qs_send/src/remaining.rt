//! What is left of several pieces.
ghost use Rattle.std.specs.Prelude.{◌≡◌, ◌↔◌, ◌<◌, IsTrue, length, drop, Some};
ghost use Rattle.qs_send.specs.Records.{Among, first_piece};

use crate::piece::Piece;
use std::marker::Model;

/// The pieces of a vector without the first `start` ones: dropping the first costs no move.
#[derive(Drop)]
pub(crate) struct Remaining {
    start: usize,
    pieces: Vec<Piece>,
}

impl Model for Remaining {
    ghost use Rattle.std.specs.Prelude.{List, ◌≤◌, length, drop};
    ghost use Rattle.std.specs.Coded.{coded_list};
    ghost use Rattle.qs_send.specs.declared.piece.Piece.{Piece};
    ghost use Rattle.qs_send.specs.PieceCodes.{piece_code};

    ghost Value = { List Piece };

    ghost coded = { coded_list piece_code };

    ghost view = { λ r. drop r.start r.pieces.items };

    ghost invariant = { λ r. r.start ≤ length r.pieces.items };
}

impl Remaining {
    pub(crate) fn new(pieces: Vec<Piece>) -> Self
        ensures { result ≡ pieces.items }
    {
        Remaining { start: 0, pieces }
    }

    pub(crate) fn len(&self) -> usize
        ensures { result ≡ length self.now }
    {
        self.pieces.len() - self.start
    }

    pub(crate) fn first(&self) -> Option<Piece>
        ensures { result ≡ first_piece (Some self.now) }
    {
        match self.pieces.get(self.start) {
            Some(piece) => Some(*piece),
            None => None,
        }
    }

    pub(crate) fn drop_first(&mut self)
        requires { 0 < length self.old }
        ensures { self.new ≡ drop 1 self.old }
    {
        self.start += 1;
    }

    pub(crate) fn has(&self, piece: Piece) -> bool
        ensures { IsTrue result ↔ Among piece self.now }
    {
        self.pieces[self.start..].contains(&piece)
    }
}
