//! The link.
ghost use Rattle.std.specs.Prelude.{◌≡◌, ◌<◌, ◌≤◌, false, true, length, None, IfOk, IsErr, OnOk, OnErr};
ghost use Rattle.mail_io.specs.Causes.{HasCause};
ghost use Rattle.mail_io.specs.Memory.{next_count};
ghost use Rattle.tcp_io.specs.Connections.{opened, broken};

use crate::connection::connect;
use mail_io::{Failed, Link, Text};
use std::io::{Read, Write};
use std::marker::Model;
use std::net::TcpStream;
use std::rt::HostRuntime;

/// A link over TCP. It tells no talk.
///
/// A wait of more than 30 seconds is a fault, for a connection, for bytes, or for the server to take bytes. After a fault there is no
/// connection until the next `redial`, and each call of `send` or `receive` is a fault.
#[derive(Drop)]
pub struct TcpLink {
    rt: HostRuntime,
    address: Text,
    stream: Option<TcpStream>,
    faults: u64,
}

impl Model for TcpLink {
    ghost use Rattle.std.specs.Prelude.{is_some};
    ghost use Rattle.tcp_io.specs.Connections.{ConnectionState};

    ghost Value = { ConnectionState };

    ghost view = { λ l. record { address = l.address; is_open = is_some l.stream; faults = l.faults } };
}

impl TcpLink {
    /// A link that was not dialled yet. `address` is `host:port`; the host is looked up at each dial.
    pub fn new(rt: &HostRuntime, address: Text) -> Self
        ensures { result ≡ record { address = address; is_open = false; faults = 0 } }
    {
        TcpLink {
            rt: *rt,
            address,
            stream: None,
            faults: 0,
        }
    }

    /// Closes the connection, if there is one, and counts a fault.
    fn fail<T>(&mut self) -> Result<T, Failed>
        ensures breaks { self.new ≡ broken self.old }
        ensures cause { HasCause self.old.faults self.new.faults result }
        ensures err { IsErr result }
    {
        self.stream = None;
        self.faults = self.faults.saturating_add(1);
        Err(Failed)
    }
}

impl Link for TcpLink {
    ghost talk = { λ _. None };

    ghost faults = { λ l. l.faults };

    fn redial(&mut self, fresh: bool) -> Result<(), Failed>
        ensures on_ok { OnOk result (self.new ≡ opened self.old) }
        ensures on_err { OnErr result (self.new ≡ broken self.old) }
        ensures cause { HasCause self.old.faults self.new.faults result }
    {
        // the old connection ends before the new one is made, as servers limit the number of both
        self.stream = None;
        match connect(&self.rt, self.address.as_str()) {
            Ok(stream) => {
                self.stream = Some(stream);
                Ok(())
            }
            Err(_) => self.fail(),
        }
    }

    fn send(&mut self, bytes: &[u8]) -> Result<(), Failed>
        ensures unopened { self.old.is_open ≡ false → IsErr result }
        ensures on_ok { OnOk result (self.new ≡ self.old) }
        ensures on_err { OnErr result (self.new ≡ broken self.old) }
        ensures cause { HasCause self.old.faults self.new.faults result }
    {
        let sent = match &mut self.stream {
            Some(stream) => stream.write_all(bytes).is_ok(),
            None => false,
        };
        if sent { Ok(()) } else { self.fail() }
    }

    fn receive(&mut self, room: &mut [u8]) -> Result<usize, Failed>
        ensures unopened { self.old.is_open ≡ false → IsErr result }
        ensures progresses { IfOk result (λ n. 0 < n) }
        ensures bound { IfOk result (λ n. n ≤ length room.new) }
        ensures on_ok { OnOk result (self.new ≡ self.old) }
        ensures on_err { OnErr result (self.new ≡ broken self.old) }
        ensures cause { HasCause self.old.faults self.new.faults result }
    {
        let count = match &mut self.stream {
            Some(stream) => stream.read(room).unwrap_or(0),
            None => 0,
        };
        if count > 0 { Ok(count) } else { self.fail() }
    }
}
