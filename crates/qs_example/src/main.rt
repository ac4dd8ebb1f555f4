//! Sends 100,000 bytes from a client to a server, over a network that loses packets, and checks each of them.
#![tactic(auto)]

mod host;
mod network;
mod stream_bytes;

use crate::host::Host;
use crate::network::Network;
use crate::stream_bytes::{are_expected, bytes_at};
use anyhow::{bail, ensure};
use qs_conn::{Endpoint, Settings};
use qs_recv::Read;
use qs_wire::{Dir, Role, StreamId};
use std::alloc::Global;
use std::process::ExitCode;

const TOTAL: usize = 100_000;

/// Less than the stream's buffer, so that a round is soon over.
const MOST_AT_ONCE: usize = 4_096;

/// More than the transfer takes, so that a fault ends it instead of a loop.
const MANY: usize = 1_000;

fn main(rt: HostRuntime) -> ExitCode {
    let (said, status) = match transfer(rt.alloc()) {
        Ok(()) => (
            println!(rt;
                "{} bytes came as they were sent, over a network that lost packets",
                TOTAL
            ),
            ExitCode::SUCCESS,
        ),
        Err(trouble) => (eprintln!(rt; "{}", trouble), ExitCode::FAILURE),
    };
    match said {
        Ok(()) => status,
        Err(_) => ExitCode::FAILURE,
    }
}

fn transfer(alloc: Global) -> anyhow::Result<()> {
    let settings = Settings {
        conn_window: 65_536,
        bidi_local: 16_384,
        bidi_remote: 16_384,
        uni: 16_384,
        send_buffer: 32_768,
        grant_bidi: 8,
        grant_uni: 8,
        lifetime_bidi: 8,
        lifetime_uni: 8,
    };
    let mut client = Host::new(alloc, Role::Client, settings)?;
    let mut server = Host::new(alloc, Role::Server, settings)?;
    let mut network = Network {
        lost_of: 9,
        sent: 0,
        lost: 0,
    };
    send_all(&mut client, &mut server, &mut network)
}

/// Opens a stream, and goes on until the server has read its end.
fn send_all(client: &mut Host, server: &mut Host, network: &mut Network) -> anyhow::Result<()> {
    let stream = client.end.open(Dir::Uni)?;
    let (mut written, mut read) = (0, 0);
    for _ in 0..MANY {
        written = write_more(client, stream, written)?;
        let is_quiet = carry(client, server, network)?;
        match read_more(&mut server.end, stream, read)? {
            Some(place) => read = place,
            None => {
                ensure!(network.lost > 0, "the network lost nothing");
                return Ok(());
            }
        }
        carry(server, client, network)?;
        if is_quiet {
            client.time_out()?;
        }
    }
    bail!("the transfer isn't done")
}

/// As much as the stream's buffer takes, with the FIN behind the last byte. Returns how far it got, since a write may be cut short.
fn write_more(host: &mut Host, stream: StreamId, place: usize) -> anyhow::Result<usize> {
    if place == TOTAL {
        return Ok(place);
    }
    let count = MOST_AT_ONCE.min(TOTAL.saturating_sub(place));
    let bytes = bytes_at(host.alloc, place, count)?;
    let next = place.saturating_add(host.end.write(stream, &bytes)?);
    if next == TOTAL {
        host.end.finish(stream)?;
    }
    Ok(next)
}

/// Checked byte by byte, because that is what the example shows. Returns how far it got, `None` at the stream's end.
fn read_more(end: &mut Endpoint, stream: StreamId, place: usize) -> anyhow::Result<Option<usize>> {
    let mut bytes = [0; 1_024];
    match end.read(stream, &mut bytes)? {
        Read::Bytes(count) => {
            let some = bytes.get(..count).unwrap_or(&[]);
            ensure!(are_expected(place, some), "other bytes came than were sent");
            Ok(Some(place.saturating_add(count)))
        }
        Read::Wait => Ok(Some(place)),
        Read::End => {
            ensure!(place == TOTAL, "the end came too early");
            Ok(None)
        }
        Read::Reset(code) => bail!("the stream was reset with code {}", code),
    }
}

/// Returns whether there was none at all: then nothing is under way, and time has to pass.
fn carry(from: &mut Host, to: &mut Host, network: &mut Network) -> anyhow::Result<bool> {
    for count in 0..MANY {
        let Some(packet) = from.send()? else {
            return Ok(count == 0);
        };
        if !network.loses() {
            to.receive(&packet)?;
        }
    }
    Ok(false)
}
