//! Where connections come to.

use mio::{Events, Poll, Token, Waker};
use std::alloc::Global;
use std::io;
use std::net::{Net, SocketAddr, TcpListener};
use std::sync::Mutex;
use std::sync::atomic::{AtomicBool, Ordering};

/// The token of wakes.
pub(crate) const WAKER: Token = Token(0);

/// So many events are looked at in a row.
const EVENTS: usize = 1024;

/// What an event loop waits by.
#[derive(Drop)]
pub(crate) struct Waits {
    pub(crate) poll: Poll,
    pub(crate) events: Events<Global>,
}

/// A listener, and what an event loop waits by for its connections. One event loop after another may have it.
#[derive(Drop)]
pub struct Entrance {
    listener: TcpListener,
    pub(crate) waits: Mutex<Waits>,
    waker: Waker,
    attended: AtomicBool,
}

impl Entrance {
    /// Listens at an address, with the longest queue that the system allows.
    ///
    /// # Errors
    ///
    /// The system refuses that, as where another listens there, or memory is refused.
    pub fn bind<N: Net>(net: &N, alloc: Global, address: SocketAddr) -> io::Result<Entrance> {
        let listener = TcpListener::from(mio::net::TcpListener::bind(net, address)?);
        listener.set_nonblocking(false)?;
        let poll = Poll::new(net)?;
        let Ok(events) = Events::with_capacity(alloc, EVENTS) else {
            return Err(io::Error::from(io::ErrorKind::OutOfMemory));
        };
        let waker = Waker::new(poll.registry(), WAKER)?;
        Ok(Entrance {
            listener,
            waits: Mutex::new(Waits { poll, events }),
            waker,
            attended: AtomicBool::new(false),
        })
    }

    /// The listener, which blocks unless an event loop attends to it.
    pub fn listener(&self) -> &TcpListener {
        &self.listener
    }

    /// Wakes the event loop that attends to the entrance, and says whether one does.
    pub fn wake(&self) -> bool {
        let attended = self.attended.load(Ordering::SeqCst);
        if attended {
            self.rouse();
        }
        attended
    }

    /// Ends the wait of the event loop that attends to the entrance, or its next one.
    pub(crate) fn rouse(&self) {
        let _woken = self.waker.wake();
    }

    /// Says whether an event loop attends to the entrance.
    pub(crate) fn set_attended(&self, attended: bool) {
        self.attended.store(attended, Ordering::SeqCst);
    }
}
