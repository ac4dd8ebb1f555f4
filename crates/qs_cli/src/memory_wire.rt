//! A wire in memory, which fails where it is told to.

ghost use Rattle.std.specs.Prelude.{◌≡◌, ◌≤◌, length, OnOk, OnErr};
ghost use Rattle.qs_cli.specs.Waiting.{nothing_waits, waiting_with};

use crate::wire::{Failures, Wire, WireError, other_side};
use qs_ranges::NoMemory;
use qs_world::Side;
use std::alloc::Global;
use std::collections::VecDeque;
use std::marker::Model;

/// A wire in memory, whose failures a test chooses. Datagrams wait at an endpoint in the order in which they were sent to it.
#[derive(Drop)]
pub struct MemoryWire<'a> {
    alloc: Global,
    failing_sends: &'a [u64],
    failing_recvs: &'a [u64],
    sends: u64,
    recvs: u64,
    failures: Failures,
    at_a: VecDeque<Vec<u8>>,
    at_b: VecDeque<Vec<u8>>,
}

impl<'a> Model for MemoryWire<'a> {
    ghost use Rattle.std.specs.Prelude.{map};
    ghost use Rattle.qs_cli.specs.Waiting.{Waiting, waiting_code};

    ghost Value = { Waiting };

    ghost coded = { waiting_code };

    ghost view = { λ w. record {
      failures = w.failures;
      at_a = map (λ d. d.items) w.at_a.items;
      at_b = map (λ d. d.items) w.at_b.items;
    } };
}

impl<'a> MemoryWire<'a> {
    pub fn new(alloc: Global, failing_sends: &'a [u64], failing_recvs: &'a [u64]) -> MemoryWire<'a>
        ensures { result ≡ nothing_waits }
    {
        MemoryWire {
            alloc,
            failing_sends,
            failing_recvs,
            sends: 0,
            recvs: 0,
            failures: Failures::none(),
            at_a: VecDeque::new(alloc),
            at_b: VecDeque::new(alloc),
        }
    }

    pub fn inject(&mut self, at: Side, bytes: &[u8]) -> Result<(), NoMemory>
        ensures ok { OnOk result (self.new ≡ waiting_with at bytes.now self.old) }
        ensures err { OnErr result (self.new ≡ self.old) }
    {
        let datagram = Vec::from_slice(self.alloc, bytes)?;
        match at {
            Side::A => self.at_a.push_back(datagram)?,
            Side::B => self.at_b.push_back(datagram)?,
        }
        Ok(())
    }
}

impl<'a> Wire for MemoryWire<'a> {
    ghost failed = { λ wire. wire.failures };

    /// It fails also where memory is refused.
    fn send(&mut self, from: Side, bytes: &[u8]) -> Result<(), WireError> {
        self.sends = self.sends.saturating_add(1);
        if self.failing_sends.contains(&self.sends) {
            return Err(self.failures.note_send());
        }
        match self.inject(other_side(from), bytes) {
            Ok(()) => Ok(()),
            Err(_) => Err(self.failures.note_send()),
        }
    }

    /// It fails also if nothing waits, as a socket's timeout does. What waits stays if it fails.
    fn recv(&mut self, at: Side, into: &mut [u8]) -> Result<usize, WireError> {
        self.recvs = self.recvs.saturating_add(1);
        if self.failing_recvs.contains(&self.recvs) {
            return Err(self.failures.note_recv());
        }
        let waiting = match at {
            Side::A => self.at_a.pop_front(),
            Side::B => self.at_b.pop_front(),
        };
        match waiting {
            Some(datagram) => Ok(copy_front(&datagram, into)),
            None => Err(self.failures.note_recv()),
        }
    }

    fn failures(&self) -> u64 {
        self.failures.count()
    }
}

fn copy_front(from: &[u8], into: &mut [u8]) -> usize
    ensures { result ≤ length into.new }
{
    let count = from.len().min(into.len());
    into[..count].copy_from_slice(&from[..count]);
    count
}
