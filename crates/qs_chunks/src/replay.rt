//! Steps are played on an assembly, of whichever kind, and each shows what the definition gives.
ghost use Rattle.std.specs.Prelude.{◌≡◌, ◌+◌, ◌≤◌, length, map, true, false, IfOk, OnOk, OnErr};
ghost use Rattle.std.specs.List.{list_all};
ghost use Rattle.qs_ranges.specs.Numbers.{MAX_VARINT};
ghost use Rattle.qs_recv.specs.Assembled.{nothing_yet, put, take_front, front_of, discard};
ghost use Rattle.qs_chunks.specs.Replay.{is_past, step_fits, sight, sight_of, after_step, shown_by, replayed};
ghost use Rattle.qs_recv.specs.Lane.{MAX_WINDOW};

use qs_ranges::NoMemory;
use qs_recv::Assembly;
use std::alloc::Global;
use std::marker::Model;

#[derive(Debug, PartialEq, Eq, Drop)]
pub enum Step {
    Put { offset: u64, bytes: Vec<u8> },
    Take { size: usize },
    Discard,
}

#[derive(Debug, PartialEq, Eq, Drop)]
pub enum Shown {
    Stored,
    Skipped,
    Taken(Vec<u8>),
    Discarded,
}

/// Plays steps, in order, on a new assembly, and answers it with what each step showed. Until a discard, bytes that end past those that
/// were read and the window are skipped.
///
/// The window counts bytes. The only error is NoMemory, where memory was refused. Otherwise what is shown depends on the window and the steps
/// alone: two kinds of assembly show the same (RFC 9000, sections 2.2 and 4.1).
pub fn replay<A: Assembly>(
    alloc: Global,
    window: u64,
    steps: &[Step],
) -> Result<(A, Vec<Shown>), NoMemory>
    requires some { 1 ≤ window }
    requires small { window ≤ MAX_WINDOW }
    requires fits { list_all step_fits steps.now ≡ true }
    ensures shown { IfOk result (λ r. map sight r.1.items ≡ shown_by (nothing_yet window) steps.now) }
    ensures holds { IfOk result (λ r. A.holds r.0 ≡ replayed (nothing_yet window) steps.now) }
{
    let mut player: Player<A> = Player::new(alloc, window);
    let mut shown = Vec::with_capacity(alloc, steps.len())?;
    for step in steps {
        let one = player.step_once(step)?;
        shown.push(one)?;
    }
    Ok((player.into_assembly(), shown))
}

// An assembly beside what it doesn't tell: how many bytes were read, how far past them the next ones may lie, and whether bytes are thrown
// away.
#[derive(Drop)]
struct Player<A: Assembly> {
    alloc: Global,
    assembly: A,
    window: u64,
    read_count: u64,
    discarding: bool,
}

impl<A: Assembly> Model for Player<A> {
    ghost use Rattle.qs_recv.specs.Assembled.{Assembled};
    ghost use Rattle.qs_recv.specs.Codes.{assembled_code};
    ghost use Rattle.qs_chunks.specs.Replay.{IsPlayed};

    ghost Value = { Assembled };

    ghost coded = { assembled_code };

    ghost view = { λ p. A.holds p.assembly };

    ghost invariant = { λ p. IsPlayed (A.holds p.assembly) p.window p.read_count p.discarding };
}

impl<A: Assembly> Player<A> {
    fn new(alloc: Global, window: u64) -> Self
        requires some { 1 ≤ window }
        requires small { window ≤ MAX_WINDOW }
        ensures { result ≡ nothing_yet window }
    {
        Player {
            alloc,
            assembly: A::new(alloc, window),
            window,
            read_count: 0,
            discarding: false,
        }
    }

    // One step, and what it shows. NoMemory leaves all as it was.
    fn step_once(&mut self, step: &Step) -> Result<Shown, NoMemory>
        requires { step_fits step.now ≡ true }
        ensures shown { IfOk result (λ shown. sight shown ≡ sight_of self.old step.now) }
        ensures after { OnOk result (self.new ≡ after_step self.old step.now) }
        ensures refused { OnErr result (self.new ≡ self.old) }
    {
        match step {
            Step::Put { offset, bytes } => {
                if self.is_past(*offset, bytes.len() as u64) {
                    return Ok(Shown::Skipped);
                }
                self.put(*offset, bytes)?;
                Ok(Shown::Stored)
            }
            Step::Take { size } => Ok(Shown::Taken(self.take(*size)?)),
            Step::Discard => {
                self.discard();
                Ok(Shown::Discarded)
            }
        }
    }

    fn is_past(&self, offset: u64, len: u64) -> bool
        requires { offset + len ≤ MAX_VARINT }
        ensures { result ≡ is_past self.now offset len }
    {
        !self.discarding && offset + len > self.read_count + self.window
    }

    fn put(&mut self, offset: u64, bytes: &[u8]) -> Result<(), NoMemory>
        requires in_range { offset + length bytes.now ≤ MAX_VARINT }
        requires in_window { is_past self.old offset (length bytes.now) ≡ false }
        ensures after { OnOk result (self.new ≡ put self.old offset bytes.now) }
        ensures refused { OnErr result (self.new ≡ self.old) }
    {
        self.assembly.put(offset, bytes)
    }

    // The bytes that are next, at most so many. Memory is taken for no more than are stored.
    fn take(&mut self, size: usize) -> Result<Vec<u8>, NoMemory>
        ensures bytes { IfOk result (λ bytes. bytes.items ≡ front_of self.old size) }
        ensures after { OnOk result (self.new ≡ take_front self.old size) }
        ensures refused { OnErr result (self.new ≡ self.old) }
    {
        let room = size.min(self.assembly.stored() as usize);
        let mut bytes = vec![in self.alloc; 0; room]?;
        let count = self.assembly.take(&mut bytes);
        self.read_count += count as u64;
        bytes.truncate(count);
        Ok(bytes)
    }

    fn discard(&mut self)
        ensures { self.new ≡ discard self.old }
    {
        self.assembly.discard();
        self.discarding = true;
    }

    fn into_assembly(self) -> A
        ensures { A.holds result ≡ self }
    {
        self.assembly
    }
}
