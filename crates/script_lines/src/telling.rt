// The lines that replies to events print. Room for a line is made before its event.
ghost use Rattle.std.specs.Prelude.{◌≡◌, ◌≤◌, ◌+◌, ◌++◌, [], ◌∷◌, length, codes, IfOk, OnErr, string_bytes};
ghost use Rattle.std.specs.Fmt.{decimal};
ghost use Rattle.state_ids.specs.Ids.{id_text};
ghost use Rattle.script_lines.specs.Scripts.{IsNothing, IsRefusal, began_text, event_line, printed, refused, reply_line};

use itoa::Buffer;
use script_world::EventReply;
use state_facts::{CommandReply, Refusal};
use state_ids::LraId;
use std::alloc::{AllocError, Global};
use std::marker::Model;

/// The number of bytes that there is room for: more than the longest line about an event.
const ROOM: usize = 256;

/// A text in room that was made before the text is known, so that writing it takes no memory.
#[derive(Drop)]
pub struct ReservedText {
    text: String,
}

impl Model for ReservedText {
    ghost use Rattle.std.specs.Prelude.{List, ℕ, ◌≤◌, string_bytes, string_capacity};

    ghost Value = { List ℕ };

    ghost view = { λ room. string_bytes room.text };

    ghost invariant = { λ room. 256 ≤ string_capacity room.text };
}

impl ReservedText {
    /// Makes the room.
    pub fn new(alloc: Global) -> Result<ReservedText, AllocError>
        ensures { IfOk result (λ room. room ≡ []) }
    {
        let text = String::with_capacity(alloc, ROOM)?;
        Ok(ReservedText { text })
    }

    /// Appends a text.
    pub fn text(&mut self, piece: &str)
        requires { length self.old + length piece.now ≤ 256 }
        ensures text { self.new ≡ self.old ++ piece.now }
        ensures length { length self.new ≡ length self.old + length piece.now }
    {
        let _ = self.text.push_str(piece);
    }

    /// Appends a number in decimal.
    pub fn number(&mut self, number: u64)
        requires { length self.old + 40 ≤ 256 }
        ensures text { self.new ≡ self.old ++ decimal number }
        ensures length { length self.new ≤ length self.old + 40 }
    {
        let mut buffer = Buffer::new();
        self.text(buffer.format(number));
    }

    /// Appends an id.
    pub fn id(&mut self, id: LraId)
        requires { length self.old + 81 ≤ 256 }
        ensures text { self.new ≡ self.old ++ id_text id }
        ensures length { length self.new ≤ length self.old + 81 }
    {
        self.number(u64::from(id.home().number()));
        self.text(".");
        self.number(id.num());
    }

    /// Returns the text as a line.
    pub fn into_line(mut self) -> String
        requires { length self + 1 ≤ 256 }
        ensures { string_bytes result ≡ self ++ 10 ∷ [] }
    {
        self.text("\n");
        let ReservedText { text } = self;
        text
    }
}

/// Returns the line that a reply prints, in room that was made before the event.
pub fn tell(alloc: Global, room: ReservedText, reply: EventReply) -> Result<String, AllocError>
    requires { room ≡ [] }
    ensures ok { IfOk result (λ text. string_bytes text ≡ event_line reply) }
    ensures err { OnErr result (IsNothing reply) }
{
    match reply {
        EventReply::Answered(reply) => tell_answered(alloc, room, reply),
        EventReply::Sent(frame) => Ok(sent_line(room, frame)),
        EventReply::Took => Ok(word_line(room, "took")),
        EventReply::Restarted => Ok(word_line(room, "restarted")),
        EventReply::Expired(id) => Ok(expired_line(room, id)),
        EventReply::Quiet => Ok(word_line(room, "quiet")),
        EventReply::Refused(refusal) => refusal_line(alloc, refusal),
    }
}

fn tell_answered(
    alloc: Global,
    room: ReservedText,
    reply: CommandReply,
) -> Result<String, AllocError>
    requires { room ≡ [] }
    ensures ok { IfOk result (λ text. string_bytes text ≡ reply_line reply) }
    ensures err { OnErr result (IsRefusal reply) }
{
    match reply {
        CommandReply::Began(id, member) => Ok(began_line(room, id, member)),
        CommandReply::Joined(_, member) => Ok(joined_line(room, member)),
        CommandReply::Left => Ok(word_line(room, "left")),
        CommandReply::Decided(_, status) => Ok(word_line(room, status.name())),
        CommandReply::Reported => Ok(word_line(room, "reported")),
        CommandReply::Known => Ok(word_line(room, "known")),
        CommandReply::Forgotten => Ok(word_line(room, "forgot")),
        CommandReply::Told => Ok(word_line(room, "told")),
        CommandReply::Purged => Ok(word_line(room, "purged")),
        CommandReply::Refused(refusal) => refusal_line(alloc, refusal),
    }
}

/// Returns the line about an LRA that was begun, with its member number only if it has one.
fn began_line(mut room: ReservedText, id: LraId, member: u8) -> String
    requires { room ≡ [] }
    ensures { string_bytes result ≡ printed (began_text id member) }
{
    room.text("began ");
    room.id(id);
    if member > 0 {
        room.text(" member ");
        room.number(u64::from(member));
    }
    room.into_line()
}

fn joined_line(mut room: ReservedText, member: u8) -> String
    requires { room ≡ [] }
    ensures { string_bytes result ≡ printed (codes "joined " ++ decimal member) }
{
    room.text("joined ");
    room.number(u64::from(member));
    room.into_line()
}

fn sent_line(mut room: ReservedText, frame: usize) -> String
    requires { room ≡ [] }
    ensures { string_bytes result ≡ printed (codes "frame " ++ decimal frame) }
{
    room.text("frame ");
    room.number(frame as u64);
    room.into_line()
}

/// Returns the line about an LRA that was cancelled because its deadline had passed.
fn expired_line(mut room: ReservedText, id: LraId) -> String
    requires { room ≡ [] }
    ensures { string_bytes result ≡ printed (codes "expired " ++ id_text id) }
{
    room.text("expired ");
    room.id(id);
    room.into_line()
}

fn word_line(mut room: ReservedText, word: &str) -> String
    requires empty { room ≡ [] }
    requires short { length word.now ≤ 40 }
    ensures { string_bytes result ≡ printed word.now }
{
    room.text(word);
    room.into_line()
}

/// Returns the line that a refusal prints.
pub fn refusal_line(alloc: Global, refusal: Refusal) -> Result<String, AllocError>
    ensures { IfOk result (λ text. string_bytes text ≡ refused refusal) }
{
    format!(in alloc; "refused {refusal}\n")
}
