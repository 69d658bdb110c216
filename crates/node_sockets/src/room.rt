// Counts the room that answers take which wait to be sent.
ghost use Rattle.std.specs.Prelude.{◌≡◌};
ghost use Rattle.node_sockets.specs.Rooms.{has_room, is_long, share_of, with_share, without_share};

use wire_http::{MAX_BODY_BYTES, MAX_HEAD_BYTES};

/// The most bytes of a short answer. Only a frame, which goes to another node, has a longer body.
const SHORT_MOST: usize = MAX_BODY_BYTES + MAX_HEAD_BYTES;

/// The most bytes of all long answers that wait: two frames of full homes with the longest links,
/// or a dozen common ones.
const LONG_ROOM: usize = 64 << 20;

/// The most bytes of all short answers that wait: 800 of the longest. A process has some 1,000
/// files by default, so it runs out of connections first.
const SHORT_ROOM: usize = 64 << 20;

/// The share of the room that an answer takes.
#[derive(Clone, Copy, PartialEq, Eq, Debug)]
pub struct Share {
    /// How many of its bytes wait.
    pub bytes: usize,
    /// Whether the whole answer, including what was already sent, is long. So the rest of a frame
    /// never counts as a short answer.
    pub is_long: bool,
}

/// How many bytes of answers wait to be sent. Long answers have a room of their own, so that a peer
/// that doesn't read its frame takes no room from the answers of other clients.
#[derive(Clone, Copy, PartialEq, Eq, Debug)]
pub struct AnswerRoom {
    pub short: usize,
    pub long: usize,
}

/// Whether an answer of this size is a long one.
pub fn is_long(size: usize) -> bool
    ensures { result ≡ is_long size }
{
    size > SHORT_MOST
}

impl Share {
    /// Returns the share of an answer of this size, of which `kept` bytes wait.
    pub fn of(size: usize, kept: usize) -> Share
        ensures { result ≡ share_of size kept }
    {
        Share {
            bytes: kept,
            is_long: is_long(size),
        }
    }
}

impl AnswerRoom {
    /// Returns the room with this share added.
    pub fn with(self, share: Share) -> AnswerRoom
        ensures { result ≡ with_share share self }
    {
        if share.is_long {
            AnswerRoom {
                short: self.short,
                long: self.long.saturating_add(share.bytes),
            }
        } else {
            AnswerRoom {
                short: self.short.saturating_add(share.bytes),
                long: self.long,
            }
        }
    }

    /// Returns the room without this share.
    pub fn without(self, share: Share) -> AnswerRoom
        ensures { result ≡ without_share share self }
    {
        if share.is_long {
            AnswerRoom {
                short: self.short,
                long: self.long.saturating_sub(share.bytes),
            }
        } else {
            AnswerRoom {
                short: self.short.saturating_sub(share.bytes),
                long: self.long,
            }
        }
    }

    /// Whether this share may wait too.
    pub fn may_keep(self, share: Share) -> bool
        ensures { result ≡ has_room share self }
    {
        if share.is_long {
            self.long.saturating_add(share.bytes) <= LONG_ROOM
        } else {
            self.short.saturating_add(share.bytes) <= SHORT_ROOM
        }
    }
}
