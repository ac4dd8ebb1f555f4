//! Events drawn at random. The table is the specification's, so that a seed means the same script everywhere.

ghost use Rattle.std.specs.Prelude.{◌≡◌, ◌+◌, ◌^◌, ◌<◌, ◌≤◌, length, true, IfOk, OnOk};
ghost use Rattle.qs_calls.specs.Events.{act_fits};
ghost use Rattle.qs_world.specs.Draws.{draw, after, bytes_from, after_all, side_drawn, dir_drawn, kind_of, end_of_stream, IsChosen, IsDrawn};

use qs_calls::{Act, MIN_ROOM, Side};
use qs_wire::{Dir, StreamId};
use rand_core::utils::NextWord;
use rand_pcg::Lcg64Xsh32;
use std::alloc::{AllocError, Global};

#[derive(Clone, Copy)]
pub enum Kind {
    Open,
    Accept,
    Write,
    /// By a finish, a reset or a stop.
    End,
    Read,
    Make,
    Lose,
    Deliver,
}

impl Kind {
    fn of(draw: u64) -> Kind
        ensures { result ≡ kind_of draw }
    {
        match draw {
            0 => Kind::Open,
            1 => Kind::Accept,
            2..=4 => Kind::Write,
            5 => Kind::End,
            6..=8 => Kind::Read,
            9..=11 => Kind::Make,
            12 => Kind::Lose,
            _ => Kind::Deliver,
        }
    }
}

#[tactic(auto, unfolding(crate::specs::Draws::draw, crate::specs::Draws::after))]
pub(crate) fn draw(words: &mut Lcg64Xsh32, count: u64) -> u64
    requires { 0 < count }
    ensures value { result ≡ draw count words.old }
    ensures next { words.new ≡ after words.old }
    ensures below { result < count }
    ensures small { result < 2 ^ 32 }
{
    u64::from(words.next_word()) % count
}

pub fn draw_side(words: &mut Lcg64Xsh32) -> Side
    ensures value { result ≡ side_drawn words.old }
    ensures next { words.new ≡ after words.old }
{
    if draw(words, 2) == 0 {
        Side::A
    } else {
        Side::B
    }
}

fn draw_dir(words: &mut Lcg64Xsh32) -> Dir
    ensures value { result ≡ dir_drawn words.old }
    ensures next { words.new ≡ after words.old }
{
    if draw(words, 2) == 0 {
        Dir::Bidi
    } else {
        Dir::Uni
    }
}

/// Of the first eight, so that streams meet.
fn draw_stream(words: &mut Lcg64Xsh32) -> StreamId
    ensures value { result ≡ draw 8 words.old }
    ensures next { words.new ≡ after words.old }
{
    match StreamId::new(draw(words, 8)) {
        Some(id) => id,
        None => unreachable!(),
    }
}

fn draw_size(words: &mut Lcg64Xsh32) -> usize
    ensures value { result ≡ 1 + draw 64 words.old }
    ensures next { words.new ≡ after words.old }
    ensures most { result ≤ 64 }
{
    1 + draw(words, 64) as usize
}

fn draw_bytes(alloc: Global, words: &mut Lcg64Xsh32, count: usize) -> Result<Vec<u8>, AllocError>
    ensures value { IfOk result (λ bytes. bytes.items ≡ bytes_from count words.old) }
    ensures length { IfOk result (λ bytes. length bytes.items ≡ count) }
    ensures next { OnOk result (words.new ≡ after_all count words.old) }
{
    let mut bytes = Vec::with_capacity(alloc, count)?;
    while bytes.len() < count {
        bytes.push(draw(words, 256) as u8)?;
    }
    Ok(bytes)
}

fn draw_end(words: &mut Lcg64Xsh32) -> Act
    ensures drawn { IsChosen (end_of_stream (draw 8 words.old) (draw 8 (after words.old)) (after (after words.old))) result words.new }
    ensures fits { act_fits result ≡ true }
{
    let id = draw_stream(words);
    match draw(words, 8) {
        0 => Act::Reset(id, draw(words, 8)),
        1 => Act::Stop(id, draw(words, 8)),
        _ => Act::Finish(id),
    }
}

/// Only packets that were made are lost or delivered.
pub fn draw_act(alloc: Global, words: &mut Lcg64Xsh32, made: u64) -> Result<Act, AllocError>
    ensures drawn { IfOk result (λ act. IsDrawn (kind_of (draw 16 words.old)) made (after words.old) act words.new) }
    ensures fits { IfOk result (λ act. act_fits act ≡ true) }
{
    let kind = Kind::of(draw(words, 16));
    draw_of_kind(alloc, words, kind, made)
}

fn draw_of_kind(
    alloc: Global,
    words: &mut Lcg64Xsh32,
    kind: Kind,
    made: u64,
) -> Result<Act, AllocError>
    ensures drawn { IfOk result (λ act. IsDrawn kind made words.old act words.new) }
    ensures fits { IfOk result (λ act. act_fits act ≡ true) }
{
    match kind {
        Kind::Open => Ok(Act::OpenStream(draw_dir(words))),
        Kind::Accept => Ok(Act::Accept),
        Kind::Write => {
            let id = draw_stream(words);
            let count = draw_size(words);
            Ok(Act::Write(id, draw_bytes(alloc, words, count)?))
        }
        Kind::End => Ok(draw_end(words)),
        Kind::Read => {
            let id = draw_stream(words);
            Ok(Act::ReadUpTo(id, draw_size(words)))
        }
        Kind::Make => Ok(Act::Make(MIN_ROOM + draw(words, 256) as usize)),
        Kind::Lose if made == 0 => Ok(Act::Make(MIN_ROOM)),
        Kind::Lose => Ok(Act::Lose(draw(words, made))),
        Kind::Deliver if made == 0 => Ok(Act::Make(MIN_ROOM)),
        Kind::Deliver => Ok(Act::Deliver(draw(words, made))),
    }
}
