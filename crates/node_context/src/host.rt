//! What a node needs of the system.
use crate::memory::HeldMemory;
use std::net::{Net, TcpListener, TcpStream};
use std::sync::Wait;
use std::thread::Threads;
use std::time::Clock;

/// What a node needs of the system.
pub trait Host: Clock
    + HeldMemory
    + Net<Listener = TcpListener, Stream = TcpStream>
    + Threads
    + Wait
    + Sync {}

impl<
    R: Clock + HeldMemory + Net<Listener = TcpListener, Stream = TcpStream> + Threads + Wait + Sync,
> Host for R {}
