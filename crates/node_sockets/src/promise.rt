// What the answer that a worker writes must wait for.

use std::cell::Cell;

/// What the answer that a worker writes must wait for: the ticket of a fact that other nodes are to
/// have. The clerk sets it, and the writer of the answer holds the answer back. It belongs to one
/// thread.
#[derive(Drop)]
pub struct Promise {
    ticket: Cell<u64>,
}

impl Promise {
    /// Makes a promise with which the answer waits for nothing.
    pub fn new() -> Promise {
        Promise {
            ticket: Cell::new(0),
        }
    }

    /// Makes the answer wait for this ticket too; a ticket of 0 adds nothing.
    pub fn make(&self, ticket: u64) {
        self.ticket.set(self.ticket.get().max(ticket));
    }

    /// Whether the answer waits.
    pub(crate) fn is_made(&self) -> bool {
        self.ticket.get() > 0
    }

    /// Takes the ticket for which the answer waits; 0 if there is none. The next answer waits for
    /// nothing.
    pub fn take(&self) -> u64 {
        self.ticket.replace(0)
    }
}
