ghost use Rattle.std.specs.Prelude.{◌≡◌, ◌↔◌, IsTrue, IfSome, IfNone, [], ◌∷◌, length, drop, Some};
ghost use Rattle.qs_send.specs.Records.{Among, first_piece};

use crate::piece::Piece;
use crate::remaining::Remaining;
use std::marker::Model;

/// The pieces of a packet that are neither acknowledged nor lost yet.
#[derive(Drop)]
pub(crate) struct Carried {
    pieces: Pieces,
}

// Most packets carry one piece: it stands in the value itself, so that a steady flow takes no memory for it.
#[derive(Drop)]
enum Pieces {
    Empty,
    One(Piece),
    Several(Remaining),
}

impl Model for Carried {
    ghost use Rattle.std.specs.Prelude.{List};
    ghost use Rattle.std.specs.Coded.{coded_list};
    ghost use Rattle.qs_send.specs.declared.piece.Piece.{Piece};
    ghost use Rattle.qs_send.specs.PieceCodes.{piece_code};
    ghost use Rattle.qs_send.specs.Carried.{pieces_in};

    ghost Value = { List Piece };

    ghost coded = { coded_list piece_code };

    ghost view = { λ c. pieces_in c.pieces };
}

impl Carried {
    pub(crate) fn empty() -> Self
        ensures { result ≡ [] }
    {
        Carried {
            pieces: Pieces::Empty,
        }
    }

    pub(crate) fn one(piece: Piece) -> Self
        ensures { result ≡ piece ∷ [] }
    {
        Carried {
            pieces: Pieces::One(piece),
        }
    }

    /// With their memory, so that putting them into a record takes none.
    pub(crate) fn several(pieces: Vec<Piece>) -> Self
        ensures { result ≡ pieces.items }
    {
        Carried {
            pieces: Pieces::Several(Remaining::new(pieces)),
        }
    }

    pub(crate) fn len(&self) -> usize
        ensures { result ≡ length self.now }
    {
        match &self.pieces {
            Pieces::Empty => 0,
            Pieces::One(_) => 1,
            Pieces::Several(pieces) => pieces.len(),
        }
    }

    pub(crate) fn first(&self) -> Option<Piece>
        ensures { result ≡ first_piece (Some self.now) }
    {
        match &self.pieces {
            Pieces::Empty => None,
            Pieces::One(piece) => Some(*piece),
            Pieces::Several(pieces) => pieces.first(),
        }
    }

    /// The piece where there is one alone.
    pub(crate) fn only(&self) -> Option<Piece>
        ensures alone { IfSome result (λ piece. self.now ≡ piece ∷ []) }
        ensures none { IfNone result (length self.now ≡ 1 → ⊥) }
    {
        if self.len() != 1 {
            return None;
        }
        self.first()
    }

    pub(crate) fn drop_first(&mut self)
        ensures { self.new ≡ drop 1 self.old }
    {
        if self.len() <= 1 {
            self.pieces = Pieces::Empty;
            return;
        }
        if let Pieces::Several(pieces) = &mut self.pieces {
            pieces.drop_first();
        }
    }

    pub(crate) fn has(&self, piece: Piece) -> bool
        ensures { IsTrue result ↔ Among piece self.now }
    {
        match &self.pieces {
            Pieces::Empty => false,
            Pieces::One(one) => *one == piece,
            Pieces::Several(pieces) => pieces.has(piece),
        }
    }
}
