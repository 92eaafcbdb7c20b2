// Connections of the system.
ghost use Rattle.std.specs.Prelude.{◌≡◌, None};

use crate::plan::{count_fault, counted};
use crate::{Door, Port, PortError, Sink, Source};
use std::io::{Read, Write};
use std::net::{Ipv4Addr, Net, OpenListener, TcpListener};

/// A TCP port as a door. It tells nothing.
#[derive(Drop)]
pub struct TcpDoor<R: Net> {
    listener: Option<R::Listener>,
    lent: u64,
    faults: u64,
}

/// A TCP connection as a link. It tells nothing.
#[derive(Drop)]
pub struct TcpLink<S: Read + Write + Drop> {
    stream: S,
    faults: u64,
}

impl<R: Net> TcpDoor<R> {
    /// A door at this port of the machine's own addresses. It has no listener where the port is
    /// `None` or can't be bound, and then each `accept` fails.
    pub fn new(rt: &R, port: Option<u16>) -> TcpDoor<R>
        ensures lent { ⟦<TcpDoor<R> as Door>⟧.lent result ≡ 0 }
        ensures faults { ⟦<TcpDoor<R> as Port>⟧.faults result ≡ 0 }
    {
        TcpDoor {
            listener: listener_at(rt, port),
            lent: 0,
            faults: 0,
        }
    }
}

// The listener of a port, where it can be bound.
fn listener_at<R: Net>(rt: &R, port: Option<u16>) -> Option<R::Listener> {
    match TcpListener::bind(rt, (Ipv4Addr::LOCALHOST, port?)) {
        Ok(listener) => Some(listener),
        Err(_) => None,
    }
}

impl<R: Net> Port for TcpDoor<R> {
    ghost faults = { λ door. door.faults };

    ghost left = { λ _. None };

    ghost written = { λ _. None };
}

impl<R: Net> Door for TcpDoor<R> {
    type Link = TcpLink<R::Stream>;

    ghost inputs = { λ _. None };

    ghost closed = { λ _. None };

    ghost lent = { λ door. door.lent };

    fn accept(&mut self) -> Result<Option<TcpLink<R::Stream>>, PortError> {
        let (Some(listener), Some(lent)) = (&self.listener, self.lent.checked_add(1)) else {
            return Err(count_fault(&mut self.faults));
        };
        let (stream, _) = counted(&mut self.faults, listener.accept())?;
        self.lent = lent;
        Ok(Some(TcpLink { stream, faults: 0 }))
    }

    fn close(&mut self, link: TcpLink<R::Stream>) {
        self.lent -= 1;
        drop(link);
    }
}

impl<S: Read + Write + Drop> Port for TcpLink<S> {
    ghost faults = { λ link. link.faults };

    ghost left = { λ _. None };

    ghost written = { λ _. None };
}

impl<S: Read + Write + Drop> Source for TcpLink<S> {
    fn take(&mut self, room: &mut [u8]) -> Result<usize, PortError> {
        counted(&mut self.faults, self.stream.read(room))
    }
}

impl<S: Read + Write + Drop> Sink for TcpLink<S> {
    fn put(&mut self, piece: &[u8]) -> Result<usize, PortError> {
        let count = counted(&mut self.faults, self.stream.write(piece))?;
        if count == 0 && !piece.is_empty() {
            return Err(count_fault(&mut self.faults));
        }
        Ok(count)
    }
}
