//! Connections with time limits.
use std::io::{Error, ErrorKind, Result};
use std::net::{SocketAddr, TcpStream, ToSocketAddrs};
use std::rt::HostRuntime;
use std::time::Duration;

/// The longest wait in seconds: for a connection, for bytes of the server, and for the server to take bytes.
const LIMIT: u64 = 30;

/// Connects to a host and a port, `host:port`. The addresses of the host are tried in turn.
pub fn connect(rt: &HostRuntime, address: &str) -> Result<TcpStream> {
    let mut last = Error::from(ErrorKind::InvalidInput);
    for found in address.to_socket_addrs(rt)? {
        match connect_to(rt, &found) {
            Ok(stream) => return Ok(stream),
            Err(error) => last = error,
        }
    }
    Err(last)
}

fn connect_to(rt: &HostRuntime, address: &SocketAddr) -> Result<TcpStream> {
    let limit = Duration::from_secs(LIMIT);
    let stream = TcpStream::connect_timeout(rt, address, limit)?;
    stream.set_read_timeout(Some(limit))?;
    stream.set_write_timeout(Some(limit))?;
    // a command is one write, and its answer is waited for
    stream.set_nodelay(true)?;
    Ok(stream)
}
