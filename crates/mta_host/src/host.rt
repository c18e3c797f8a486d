//! What stations ask of the system.

use std::alloc::Global;
use std::fs::{File, Files};
use std::net::{Net, TcpListener, TcpStream};
use std::rt;

/// The system's network, clocks, files and memory.
pub trait Host: Net<Listener = TcpListener, Stream = TcpStream>
    + rt::Clock
    + Files<File = File>
    + Alloc<A = Global> {}

impl<R> Host for R
where
    R: Net<Listener = TcpListener, Stream = TcpStream>
        + rt::Clock
        + Files<File = File>
        + Alloc<A = Global>,
{}
