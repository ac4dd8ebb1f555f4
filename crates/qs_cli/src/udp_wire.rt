//! A wire over UDP on this machine.

ghost use Rattle.std.specs.Prelude.{◌≡◌, IfOk};
ghost use Rattle.qs_cli.specs.Carrying.{none_failed};

use crate::wire::{Failures, Wire, WireError};
use qs_world::Side;
use std::io;
use std::marker::Model;
use std::net::{Ipv4Addr, Net, SocketAddr, UdpSocket};
use std::time::Duration;

/// Two UDP sockets, used one after the other. A receive that waits longer than a second fails, so that a lost datagram doesn't stop a run.
#[derive(Drop)]
pub struct UdpWire {
    a: UdpSocket,
    b: UdpSocket,
    failures: Failures,
}

impl Model for UdpWire {
    ghost use Rattle.qs_cli.specs.Carrying.{Failings, failings_code};

    ghost Value = { Failings };

    ghost coded = { failings_code };

    ghost view = { λ wire. wire.failures };
}

impl UdpWire {
    /// Binds both sockets to 127.0.0.1, at free ports. It takes the value that lets a function open sockets, which only `main` and tests
    /// have.
    pub fn bind<R: Net>(net: &R) -> Result<UdpWire, WireError>
        ensures { IfOk result (λ wire. wire ≡ none_failed) }
    {
        match bind_both(net) {
            Ok((a, b)) => Ok(UdpWire {
                a,
                b,
                failures: Failures::none(),
            }),
            Err(_) => Err(WireError),
        }
    }
}

impl Wire for UdpWire {
    ghost failed = { λ wire. wire };

    fn send(&mut self, from: Side, bytes: &[u8]) -> Result<(), WireError> {
        let sent = match from {
            Side::A => send_to(&self.a, &self.b, bytes),
            Side::B => send_to(&self.b, &self.a, bytes),
        };
        match sent {
            Ok(count) if count == bytes.len() => Ok(()),
            _ => Err(self.failures.note_send()),
        }
    }

    fn recv(&mut self, at: Side, into: &mut [u8]) -> Result<usize, WireError> {
        let received = match at {
            Side::A => self.a.recv(into),
            Side::B => self.b.recv(into),
        };
        match received {
            Ok(count) => Ok(count),
            Err(_) => Err(self.failures.note_recv()),
        }
    }

    fn failures(&self) -> u64 {
        self.failures.count()
    }
}

fn bind_both<R: Net>(net: &R) -> io::Result<(UdpSocket, UdpSocket)> {
    let a = bind_one(net)?;
    let b = bind_one(net)?;
    Ok((a, b))
}

fn bind_one<R: Net>(net: &R) -> io::Result<UdpSocket> {
    let socket = UdpSocket::bind(net, SocketAddr::from((Ipv4Addr::LOCALHOST, 0)))?;
    socket.set_read_timeout(Some(Duration::from_secs(1)))?;
    Ok(socket)
}

fn send_to(from: &UdpSocket, to: &UdpSocket, bytes: &[u8]) -> io::Result<usize> {
    from.send_to(bytes, to.local_addr()?)
}
