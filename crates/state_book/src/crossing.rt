// What may cross threads: a book may be moved to another thread, and shared under a lock. The
// functions here do nothing, since their bounds show it.
use crate::desk::{Desk, DeskPass, Locked, Run};
use crate::{Book, Pass, Receipt};
use sqlite::Alter;
use std::sync::Mutex;
use std::sync::ledger::Share;

fn needs_send<T: Send + Drop>(_value: T) {}

fn needs_sync<T: Sync>(_value: &T) {}

/// Shows that a book may be sent to another thread if its connection may.
pub fn book_crosses<S: Alter + Send + Drop>(book: Book<S>) {
    needs_send(book)
}

/// Shows that a book under a lock may be shared.
pub fn locked_book_is_shared<S: Alter + Send + Drop>(book: &Mutex<Book<S>>) {
    needs_sync(book)
}

/// Shows that a pass may be sent.
pub fn pass_crosses(pass: Pass) {
    needs_send(pass)
}

/// Shows that receipts may be sent.
pub fn receipts_cross(receipts: Vec<Receipt>) {
    needs_send(receipts)
}

/// Shows that a share may be sent.
pub fn share_crosses<J: Run + Send>(share: Share<J>) {
    needs_send(share)
}

/// Shows that what lies under the lock may be sent.
pub(crate) fn locked_crosses<J: Run + Send, S: Alter + Send + Drop>(locked: Locked<J, S>) {
    needs_send(locked)
}

/// Shows that a desk's pass may be sent.
pub fn desk_pass_crosses<J: Run + Send>(pass: DeskPass<J>) {
    needs_send(pass)
}

/// Shows that a desk may be shared.
pub fn desk_is_shared<J: Run + Send + Sync, S: Alter + Send + Drop>(desk: &Desk<J, S>) {
    needs_sync(desk)
}
