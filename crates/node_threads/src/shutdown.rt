// The end of the program.

use std::io::{ErrorKind, Read};
use std::sync::{Condvar, Mutex, Wait};

/// How the program came to its end.
#[derive(Clone, Copy, PartialEq, Eq, Debug)]
pub enum End {
    /// The input ended.
    Input,
    /// A node couldn't go on.
    Failed,
}

/// Where the end of the program is announced. The thread that reads the input shares it, and may
/// outlive all others.
#[derive(Drop)]
pub struct Shutdown {
    end: Mutex<Option<End>>,
    told: Condvar,
}

impl Shutdown {
    pub fn new() -> Shutdown {
        Shutdown {
            end: Mutex::new(None),
            told: Condvar::new(),
        }
    }

    /// Announces an end. The first one stands, but a failure takes precedence over the end of the
    /// input.
    pub fn announce<R: Wait>(&self, rt: &R, end: End) {
        let mut told = self.end.lock(rt);
        if told.is_none() || end == End::Failed {
            *told = Some(end);
        }
        self.told.notify_all();
    }

    /// Returns how the program came to its end.
    pub fn end<R: Wait>(&self, rt: &R) -> End {
        self.end.lock(rt).unwrap_or(End::Input)
    }

    /// Waits for an end.
    pub fn wait<R: Wait>(&self, rt: &R) {
        let _told = self
            .told
            .wait_while(rt, self.end.lock(rt), |end| end.is_none());
    }
}

/// Reads an input to its end, and announces that.
pub fn drain<R: Wait, I: Read + Drop>(rt: &R, mut input: I, shutdown: &Shutdown) {
    let mut bytes = [0u8; 512];
    for _turn in 0..u64::MAX {
        match input.read(&mut bytes) {
            Ok(0) => break,
            Ok(_) => {}
            Err(error) if error.kind() == ErrorKind::Interrupted => {}
            Err(_) => break,
        }
    }
    shutdown.announce(rt, End::Input);
}
