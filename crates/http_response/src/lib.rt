//! The texts of responses.
//!
//! A response has a head, which names its length and the place of the history that it is given at,
//! and a JSON text as its body. Neither a head nor a body with a fixed text allocates. The head of a [`Response`]
//! becomes text when it is written, and that of [`Pieces`] when they are made.
//! `specs/Texts.antt` says each text byte by byte.
#![tactic(auto)]

mod answered;
mod body;
mod broken;
mod connection;
mod feed;
mod fixed;
mod head;
mod listed;
mod measured;
mod memory;
mod no_service;
mod opening;
mod pieces;
mod problem;
mod replied;
mod response;
mod status;

pub use answered::answer;
pub use broken::closing;
pub use connection::Connection;
pub use feed::{FEED_HEAD_ROOM, FEED_LAST_ROOM, feed_head, feed_last};
pub use fixed::{refused, welcome};
pub use measured::{long_len, long_opening_len};
pub use memory::{MemoryFor, no_memory};
pub use no_service::service_unavailable;
pub use pieces::{Cut, PIECE, Pieces};
pub use replied::reply;
pub use response::Response;
