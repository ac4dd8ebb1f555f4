//! What the streams of an endpoint have to do, by their numbers.
ghost use Rattle.std.specs.Prelude.{◌≡◌, ◌*◌, ◌/◌, ◌<◌, ◌≤◌, ◌^◌, ℕ, length, false, true, IfSome, OnOk};
ghost use Rattle.qs_machine.specs.Tables.{no_streams, table, type_of, index_of};
ghost use Rattle.qs_machine.specs.Sums.{tables_of};
ghost use Rattle.qs_machine.specs.News.{IsLeast};
ghost use Rattle.qs_streams.specs.Flags.{HasMorePlaces, HasPlace, IsFlaggedAt, IsFlaggedOf, flag};
ghost use Rattle.qs_streams.specs.Rows.{on};
ghost use Rattle.qs_streams.specs.Tasks.{row};

use crate::board::{Board, Task, row_of};
use crate::places::{index_from, index_of, least_stream, type_of};
use qs_ranges::NoMemory;
use qs_wire::StreamId;
use std::alloc::Global;
use std::marker::Model;

/// A board for each type of stream.
#[derive(Drop)]
pub struct Boards {
    // In the order of the two lowest bits of a stream's number.
    types: [Board; 4],
}

impl Model for Boards {
    ghost use Rattle.std.specs.Prelude.{◌≡◌, ℕ, List, length};
    ghost use Rattle.std.specs.Coded.{coded_list, coded_ℕ};
    ghost use Rattle.qs_machine.specs.Tables.{Tables};
    ghost use Rattle.qs_machine.specs.EndCodes.{tables_code};
    ghost use Rattle.qs_machine.specs.Sums.{tables_of};

    ghost Value = { Tables (List ℕ) };

    ghost coded = { tables_code (coded_list coded_ℕ) };

    ghost view = { λ b. tables_of b.types };

    ghost invariant = { λ b. length b.types ≡ 4 };
}

impl Boards {
    pub fn new(alloc: Global) -> Self
        ensures { result ≡ no_streams }
    {
        Boards {
            types: [
                Board::new(alloc),
                Board::new(alloc),
                Board::new(alloc),
                Board::new(alloc),
            ],
        }
    }

    /// A bit for each task that some stream has.
    #[inline(always)]
    pub fn some(&self) -> u64
        ensures { (t : ℕ) → t < 22 → on result t ≡ false → (n : ℕ) → flag self.now t n ≡ false }
    {
        self.types[0].some() | self.types[1].some() | self.types[2].some() | self.types[3].some()
    }

    /// Whether some stream may have a task.
    #[inline(always)]
    pub fn may_have(&self, task: Task) -> bool
        ensures { result ≡ false → (n : ℕ) → flag self.now (row task) n ≡ false }
    {
        (self.some() >> row_of(task)) & 1 == 1
    }

    #[inline(always)]
    pub fn has(&self, task: Task, stream: StreamId) -> bool
        ensures { result ≡ flag self.now (row task) stream }
    {
        let board = &self.types[type_of(stream)];
        board.has(task, index_of(stream))
    }

    /// Room for a stream's flags, and for those of all lower ones of its type. A refusal may leave some room: that is no value.
    #[inline(always)]
    pub fn make_room(&mut self, stream: StreamId) -> Result<(), NoMemory>
        ensures more { HasMorePlaces self.old self.new }
        ensures ok { OnOk result ((n : ℕ) → type_of n ≡ type_of stream → n ≤ stream → HasPlace self.new n) }
    {
        let board = &mut self.types[type_of(stream)];
        board.make_room(index_of(stream))
    }

    /// Sets a flag or clears it, where there is a place for it.
    #[inline(always)]
    pub fn set(&mut self, task: Task, stream: StreamId, is_set: bool)
        ensures { IsFlaggedAt self.old (row task) stream is_set self.new }
    {
        let board = &mut self.types[type_of(stream)];
        board.set(task, index_of(stream), is_set);
    }

    /// The least number from one on of a stream that has a task.
    #[inline]
    pub fn next(&self, task: Task, from: u64) -> Option<StreamId>
        requires { from ≤ 2 ^ 62 }
        ensures { IsLeast (λ n. flag self.now (row task) n ≡ true) from result }
    {
        if !self.may_have(task) {
            return None;
        }
        self.least(task, from)
    }

    // Apart, so that a caller pays for one look where no stream has it.
    #[inline(never)]
    fn least(&self, task: Task, from: u64) -> Option<StreamId>
        requires { from ≤ 2 ^ 62 }
        ensures { IsLeast (λ n. flag self.now (row task) n ≡ true) from result }
    {
        least_stream(
            next_of(&self.types[0], task, 0, from),
            next_of(&self.types[1], task, 1, from),
            next_of(&self.types[2], task, 2, from),
            next_of(&self.types[3], task, 3, from),
        )
    }
}

// The same of a type.
#[inline(always)]
fn next_of(board: &Board, task: Task, stream_type: usize, from: u64) -> Option<u64>
    requires stream_type { stream_type < 4 }
    requires from { from ≤ 2 ^ 62 }
    ensures least { IsLeast (IsFlaggedOf board.now (row task) stream_type) from result }
    ensures small { IfSome result (λ n. n < 2 ^ 62) }
{
    let index = board.next(task, index_from(stream_type, from))?;
    Some((index * 4 + stream_type) as u64)
}
