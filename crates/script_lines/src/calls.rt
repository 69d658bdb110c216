// Printing duties and the effects of participants' answers, and applying these answers to the
// world.
ghost use Rattle.std.specs.Prelude.{◌≡◌, ◌≤◌, ◌++◌, ℕ, List, [], length, IfOk, OnErr, OnOk, string_bytes, true};
ghost use Rattle.state_facts.specs.declared.fact.Fact.{Fact};
ghost use Rattle.state_facts.specs.Sets.{is_held, want};
ghost use Rattle.wire_callbacks.specs.declared.duty.Duty.{Duty as Call};
ghost use Rattle.wire_callbacks.specs.CallDuties.{IsDuty, act_wanted, comes_first};
ghost use Rattle.wire_callbacks.specs.CallWords.{heard_name};
ghost use Rattle.state_forest.specs.Dues.{AreAll};
ghost use Rattle.theory_history.specs.Replies.{member_shown};
ghost use Rattle.script_world.specs.Machines.{IsWorldOf};
ghost use Rattle.script_world.specs.Worlds.{State, front_of, set_of};
ghost use Rattle.script_lines.specs.Asks.{IsNodeOf};
ghost use Rattle.script_lines.specs.CallLines.{act_asked, act_demanded, act_where, duties_text, duty_text, further_text};
ghost use Rattle.script_lines.specs.Scripts.{IsNothing, after_answer, after_heard, answer_line, heard_line, heard_reply_line, printed};
ghost use Rattle.script_lines.specs.NodeHoldings.{Holds};

use crate::showing::replica_at;
use crate::telling::{ReservedText, refusal_line, tell};
use script_world::{Event, EventReply, World};
use state_facts::{Command, CommandReply, Refusal};
use state_ids::{Act, LraId, LraStatus, NodeId};
use state_replica::Replica;
use std::alloc::{AllocError, Global};
use wire_callbacks::{Answer, Duty, Heard, Kind, act_wanted, hear, pick};

/// Prints which participants a node has to call now, and for what.
pub fn show_duties(alloc: Global, replica: &Replica, me: NodeId) -> Result<String, AllocError>
    requires { me ≤ length replica.now.front }
    ensures { (S : List Fact) (front : List ℕ) → Holds S front replica.now →
        IfOk result (λ text. (duties : List Call) × AreAll (IsDuty me S) (comes_first S) duties
        × (string_bytes text ≡ printed (duties_text duties))) }
{
    match pick(alloc, replica, me) {
        Ok(duties) => duties_line(alloc, duties.as_slice()),
        Err(_) => Err(AllocError),
    }
}

fn duties_line(alloc: Global, duties: &[Duty]) -> Result<String, AllocError>
    ensures { IfOk result (λ text. string_bytes text ≡ printed (duties_text duties.now)) }
{
    let [first, further @ ..] = duties else {
        return format!(in alloc; "none\n");
    };
    let mut text = duty_text(alloc, first)?;
    push_further(alloc, &mut text, further)?;
    text.push_str("\n")?;
    Ok(text)
}

fn duty_text(alloc: Global, duty: &Duty) -> Result<String, AllocError>
    ensures { IfOk result (λ text. string_bytes text ≡ duty_text duty.now) }
{
    let (kind, id, member) = (duty.kind, duty.id, duty.member);
    format!(in alloc; "{kind} {id} {member}")
}

fn push_further(alloc: Global, text: &mut String, duties: &[Duty]) -> Result<(), AllocError>
    ensures { OnOk result (string_bytes text.new
        ≡ string_bytes text.old ++ further_text duties.now) }
{
    for duty in duties {
        let piece = duty_text(alloc, duty)?;
        text.push_str(", ")?;
        text.push_str(&piece)?;
    }
    Ok(())
}

/// Gives a node a participant's answer to a call of this kind: what it learned is recorded, or the
/// participant is to be called again. The answer is interpreted before the LRA is looked up, so a
/// 503 about an unknown LRA is `Again`. Only for a status is the LRA looked up first, because its
/// act depends on the LRA.
pub fn hear_answer(
    alloc: Global,
    world: &mut World,
    node: NodeId,
    id: LraId,
    member: u8,
    kind: Kind,
    answer: &Answer,
) -> Result<String, AllocError>
    requires { IsNodeOf (length world.old.replicas) node }
    ensures ok { (s : State) → IsWorldOf s world.old →
        IfOk result (λ text. string_bytes text ≡ answer_line s node id member kind answer.now
        (act_asked (set_of s node) (front_of s node) kind id member)) }
    ensures after { (s : State) → IsWorldOf s world.old →
        IfOk result (λ _. IsWorldOf (after_answer s node id member kind answer.now
        (act_asked (set_of s node) (front_of s node) kind id member)) world.new) }
    ensures err { (s : State) → IsWorldOf s world.old → OnErr result (IsWorldOf s world.new) }
{
    match act_asked(replica_at(world, node), kind, id, member) {
        Ok(act) => {
            let heard = hear(act, kind, answer);
            enter_heard(alloc, world, node, heard, heard.command(id, member, act))
        }
        Err(refusal) => refusal_line(alloc, refusal),
    }
}

/// Returns the act for which an answer to a call of this kind is interpreted. For a status it is
/// the act that the LRA's want demands; if there is none, the refusal says why. An answer to a
/// forget or to a notice of the end means the same for either act.
fn act_asked(replica: &Replica, kind: Kind, id: LraId, member: u8) -> Result<Act, Refusal>
    ensures { (S : List Fact) (front : List ℕ) →
        Holds S front replica.now → result ≡ act_asked S front kind id member }
{
    match kind {
        Kind::Complete | Kind::Forget | Kind::After => Ok(Act::Complete),
        Kind::Compensate => Ok(Act::Compensate),
        Kind::Status => act_of_status(replica, id, member),
    }
}

fn act_of_status(replica: &Replica, id: LraId, member: u8) -> Result<Act, Refusal>
    ensures { (S : List Fact) (front : List ℕ) → Holds S front replica.now → result
        ≡ act_where (member_shown S front id member) (act_demanded (act_wanted (want S id))) }
{
    replica.member(id, member)?;
    act_demanded(replica, id)
}

fn act_demanded(replica: &Replica, id: LraId) -> Result<Act, Refusal>
    ensures { (S : List Fact) (front : List ℕ) → Holds S front replica.now →
        is_held S id ≡ true → result ≡ act_demanded (act_wanted (want S id)) }
{
    let want = replica.want(id)?;
    act_wanted(want).ok_or(Refusal::NotDue(LraStatus::Active))
}

fn enter_heard(
    alloc: Global,
    world: &mut World,
    node: NodeId,
    heard: Heard,
    command: Option<Command>,
) -> Result<String, AllocError>
    requires { IsNodeOf (length world.old.replicas) node }
    ensures ok { (s : State) → IsWorldOf s world.old →
        IfOk result (λ text. string_bytes text ≡ heard_line s node heard command) }
    ensures after { (s : State) → IsWorldOf s world.old →
        IfOk result (λ _. IsWorldOf (after_heard s node command) world.new) }
    ensures err { (s : State) → IsWorldOf s world.old → OnErr result (IsWorldOf s world.new) }
{
    // Without a value of this type here the toolchain's borrow checker can't build its plan for a
    // `EventReply`.
    let _ = CommandReply::Refused(Refusal::NoMemory);
    let room = ReservedText::new(alloc)?;
    let Some(command) = command else {
        return Ok(heard_word_line(room, heard, ""));
    };
    let reply = world.step(alloc, Event::Act { node, command })?;
    tell_heard(alloc, room, heard, reply)
}

fn tell_heard(
    alloc: Global,
    room: ReservedText,
    heard: Heard,
    reply: EventReply,
) -> Result<String, AllocError>
    requires { room ≡ [] }
    ensures ok { IfOk result (λ text. string_bytes text ≡ heard_reply_line heard reply) }
    ensures err { OnErr result (IsNothing reply) }
{
    match reply {
        EventReply::Answered(CommandReply::Reported) => Ok(heard_word_line(
            room,
            heard,
            " reported",
        )),
        EventReply::Answered(CommandReply::Known) => Ok(heard_word_line(room, heard, " known")),
        EventReply::Answered(CommandReply::Forgotten) => Ok(heard_word_line(
            room, heard, " forgot",
        )),
        EventReply::Answered(CommandReply::Told) => Ok(heard_word_line(room, heard, " told")),
        other => tell(alloc, room, other),
    }
}

fn heard_word_line(mut room: ReservedText, heard: Heard, behind: &str) -> String
    requires empty { room ≡ [] }
    requires short { length behind.now ≤ 40 }
    ensures { string_bytes result ≡ printed (heard_name heard ++ behind.now) }
{
    room.text(heard.name());
    room.text(behind);
    room.into_line()
}
