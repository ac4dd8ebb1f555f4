//! A host: an endpoint, and beneath it a detector of losses by a threshold of packets (RFC 9002, section 6.1.1).

use anyhow::{bail, ensure};
use qs_conn::{Endpoint, LostFault, Settings};
use qs_wire::{Frame, Frames, Role};
use std::alloc::Global;

/// A packet counts as lost once one made so many later is acknowledged: less could be reordering (RFC 9002, section 6.1.1).
const THRESHOLD: u64 = 3;

const ROOM: usize = 1_200;

/// A packet on its way. Of a real one the payload is protected, and the number stands in the header.
#[derive(Drop)]
pub struct Packet {
    number: u64,
    payload: Vec<u8>,
}

#[derive(Drop)]
pub struct Host {
    pub end: Endpoint,
    pub alloc: Global,
    /// Below it nothing is looked at again, so that each number is judged once.
    unjudged: u64,
    next: u64,
}

impl Host {
    /// A host whose peer has the same settings.
    pub fn new(alloc: Global, role: Role, settings: Settings) -> anyhow::Result<Host> {
        let end = Endpoint::new(alloc, role, settings, settings.limits())?;
        Ok(Host {
            end,
            alloc,
            unjudged: 0,
            next: 0,
        })
    }

    /// The next packet, `None` where nothing is due.
    pub fn send(&mut self) -> anyhow::Result<Option<Packet>> {
        let mut room = [0; ROOM];
        let Some(made) = self.end.make_packet(&mut room)? else {
            return Ok(None);
        };
        self.next = made.number.saturating_add(1);
        let written = room.get(..made.len).unwrap_or(&[]);
        Ok(Some(Packet {
            number: made.number,
            payload: Vec::from_slice(self.alloc, written)?,
        }))
    }

    /// Takes a packet in: the endpoint does first, and then the detector, which looks for ACKs.
    pub fn receive(&mut self, packet: &Packet) -> anyhow::Result<()> {
        ensure!(packet.number < 1 << 62, "no packet has that number");
        if let Err(closing) = self.end.receive(packet.number, &packet.payload) {
            bail!("the connection closes with code {}", closing.code);
        }
        let mut frames = Frames::new(&packet.payload);
        for _ in 0..packet.payload.len() {
            match frames.next() {
                Ok(Some(placed)) => self.note(&placed.frame)?,
                Ok(None) => break,
                Err(fault) => return Err(fault.into()),
            }
        }
        Ok(())
    }

    /// Nothing came for a while, so what isn't acknowledged is sent again. A real host measures how long it waits (RFC
    /// 9002, section 6.2).
    pub fn time_out(&mut self) -> anyhow::Result<()> {
        self.judge(self.next)
    }

    /// What was made long before an ACK's largest number is lost: had it arrived, the ACK would name it.
    fn note(&mut self, frame: &Frame) -> anyhow::Result<()> {
        match *frame {
            Frame::Ack { largest, .. } => {
                self.judge(largest.saturating_add(1).saturating_sub(THRESHOLD))
            }
            _ => Ok(()),
        }
    }

    /// Declares lost what was made before `until` and isn't acknowledged. Each number is looked at once.
    fn judge(&mut self, until: u64) -> anyhow::Result<()> {
        for number in self.unjudged..until {
            match self.end.declare_lost(number) {
                Ok(()) | Err(LostFault::NotOutstanding) => {}
                Err(fault) => return Err(fault.into()),
            }
        }
        self.unjudged = self.unjudged.max(until);
        Ok(())
    }
}
