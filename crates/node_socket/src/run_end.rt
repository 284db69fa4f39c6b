//! Whether a run ends, and where it takes commands.
use std::net::{Shutdown, TcpStream};
use std::sync::{Condvar, Mutex, Wait};

/// Whether a run ends, and where it takes commands, for those who wait for them.
#[derive(Drop)]
pub struct RunEnd {
    taking: Mutex<Taking>,
    // Notified when it ends, or commands are to be taken at another socket.
    changed: Condvar,
}

// What stands under the lock.
#[derive(Drop)]
struct Taking {
    is_over: bool,
    // Whether the socket is gone, and is to be made again.
    is_gone: bool,
    // The socket at which commands are taken.
    socket: Option<TcpStream>,
}

impl Taking {
    // Nobody waits at the socket any more.
    fn shut_down(&self) {
        if let Some(socket) = &self.socket {
            let _ = socket.shutdown(Shutdown::Both);
        }
    }
}

impl RunEnd {
    /// It goes on; at its end no more commands are taken at the socket with this handle, if there is one.
    pub fn new(socket: Option<TcpStream>) -> RunEnd {
        RunEnd {
            taking: Mutex::new(Taking {
                is_over: false,
                is_gone: false,
                socket,
            }),
            changed: Condvar::new(),
        }
    }

    /// Whether it ends.
    pub fn is_over<R: Wait>(&self, rt: &R) -> bool {
        self.taking.lock(rt).is_over
    }

    /// Whether commands are taken at a socket.
    pub fn has_socket<R: Wait>(&self, rt: &R) -> bool {
        self.taking.lock(rt).socket.is_some()
    }

    // Whether it goes on, at the socket that it has.
    pub(crate) fn goes_on<R: Wait>(&self, rt: &R) -> bool {
        let taking = self.taking.lock(rt);
        !taking.is_over && !taking.is_gone
    }

    /// It ends: nobody waits for commands any more.
    pub fn end<R: Wait>(&self, rt: &R) {
        let mut taking = self.taking.lock(rt);
        taking.is_over = true;
        taking.shut_down();
        drop(taking);
        self.changed.notify_all();
    }

    /// The socket's file is gone, and it is to be made again.
    pub fn renew<R: Wait>(&self, rt: &R) {
        let mut taking = self.taking.lock(rt);
        taking.is_gone = true;
        taking.shut_down();
        drop(taking);
        self.changed.notify_all();
    }

    /// Commands are taken from now on at the socket with this handle, if there is one.
    pub fn take_at<R: Wait>(&self, rt: &R, socket: Option<TcpStream>) {
        let mut taking = self.taking.lock(rt);
        taking.is_gone = false;
        taking.socket = socket;
        if taking.is_over {
            taking.shut_down();
        }
    }

    /// Waits until it ends, or the socket is to be made again.
    pub fn wait<R: Wait>(&self, rt: &R) {
        let taking = self.taking.lock(rt);
        let _taking = self
            .changed
            .wait_while(rt, taking, |taking| !taking.is_over && !taking.is_gone);
    }
}
