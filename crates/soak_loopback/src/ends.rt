//! Sockets of a server and of its clients.

use http_front::Entrance;
use std::io;
use std::net::{Ipv4Addr, SocketAddr, SocketAddrV4, TcpStream};
use std::time::Duration;

/// How many seconds a client's read or write may stall. A write may be held for ten.
const STALL_SECONDS: u64 = 60;

/// An entrance on the loopback, and two connections to it.
#[derive(Drop)]
pub(crate) struct Ends {
    pub(crate) entrance: Entrance,
    pub(crate) clients: Clients,
}

/// The clients' ends of two connections.
#[derive(Drop)]
pub(crate) struct Clients {
    pub(crate) first: TcpStream,
    pub(crate) second: TcpStream,
}

impl Ends {
    /// An entrance at a port that is free, and the connections, which nobody has accepted yet.
    pub(crate) fn new(rt: &HostRuntime) -> io::Result<Ends> {
        let free = SocketAddr::V4(SocketAddrV4::new(Ipv4Addr::LOCALHOST, 0));
        let entrance = Entrance::bind(rt, rt.alloc(), free)?;
        let address = entrance.listener().local_addr()?;
        let first = connect(rt, address)?;
        let second = connect(rt, address)?;
        Ok(Ends {
            entrance,
            clients: Clients { first, second },
        })
    }
}

/// A connection that gives up a peer that stalls.
fn connect(rt: &HostRuntime, address: SocketAddr) -> io::Result<TcpStream> {
    let socket = TcpStream::connect(rt, address)?;
    let stall = Some(Duration::from_secs(STALL_SECONDS));
    socket.set_nodelay(true)?;
    socket.set_read_timeout(stall)?;
    socket.set_write_timeout(stall)?;
    Ok(socket)
}
