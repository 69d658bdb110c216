// What a line asks for, and how it is read. This file chooses by the verb, words.rt reads single
// words, and asking/ reads the words of each command: each command has one definition, next to it.
ghost use Rattle.std.specs.Prelude.{◌≤◌, IfOk, MatchOption};
ghost use Rattle.state_ids.specs.declared.TheConstants.{MAX_NODES};
ghost use Rattle.script_lines.specs.declared.asking.Ask.{Ask};
ghost use Rattle.script_lines.specs.Asks.{ReadsArguments, Spells};
ghost use Rattle.script_lines.specs.Verbs.{verb_name};

mod answers;
mod joins;
mod lras;
mod members;
mod nodes;

use crate::words::{Verb, Words};
use answers::hear_of;
use joins::join_of;
use lras::{begin_of, decide_of, purge_of, read_of, show_of, text_of};
use members::{forgot_of, leave_of, member_of, report_of, told_of};
use nodes::{deliver_of, duties_of, front_of, restart_of, same_of, send_of, send_old_of, tick_of};
use state_facts::Command;
use state_ids::{Front, LraId, NodeId, Verdict};
use std::alloc::{AllocError, Global};
use wire_callbacks::{Answer, Kind};

/// What a line asks for.
#[derive(Debug, Drop)]
pub enum Ask {
    /// `begin NODE DEADLINE`, `begin NODE DEADLINE PARENT`, `join NODE ID WORD=LINK ..`, `leave
    /// NODE ID M`, `close NODE ID`, `cancel NODE ID`, `report NODE ID M ACT OUTCOME`, `forgot NODE
    /// ID M`, `told NODE ID M`, `purge NODE ID`: a node is given a command.
    Enter {
        node: NodeId,
        command: Command,
    },
    /// `tick NODE NOW`: a node learns the time, and cancels an LRA whose deadline has passed.
    Tick {
        node: NodeId,
        now: u64,
    },
    /// `send NODE COUNT ..`, a count for each node: a node sends what it has since a base.
    Send {
        node: NodeId,
        base: Front,
    },
    /// `sendold NODE COUNT ..`: a node sends the same in version 1 of frames. This is an ask of its
    /// own and not a version of `Send`, because the verb of a line determines its ask.
    SendOld {
        node: NodeId,
        base: Front,
    },
    /// `deliver K NODE`, `deliver K NODE BYTES`: a frame that was sent, or its first BYTES bytes,
    /// arrives at a node.
    Deliver {
        frame: u64,
        node: NodeId,
        kept: Option<u64>,
    },
    /// `restart NODE`: a node restarts with what it holds.
    Restart {
        node: NodeId,
    },
    /// `show NODE ID`: what a node shows of an LRA.
    Show {
        node: NodeId,
        id: LraId,
    },
    /// `member NODE ID M`: what a node shows of a participant.
    Member {
        node: NodeId,
        id: LraId,
        member: u8,
    },
    /// `duties NODE`: which participants a node has to call now, and for what.
    Duties {
        node: NodeId,
    },
    /// `answer NODE ID M KIND CODE`, `answer NODE ID M KIND CODE BODY`: a node receives what a
    /// participant answered to a call.
    Hear {
        node: NodeId,
        id: LraId,
        member: u8,
        kind: Kind,
        answer: Answer,
    },
    /// `front NODE`: how many facts a node has.
    Front {
        node: NodeId,
    },
    /// `same NODE NODE`: whether two nodes hold the same.
    Same {
        node: NodeId,
        other: NodeId,
    },
    /// `text ID`: the text of an id as a UUID.
    Text(LraId),
    /// `read TEXT`: the id that a text stands for.
    Read(LraId),
}

/// Returns what a line asks for in a world of `nodes` nodes. Only the links of a join and the body
/// of an answer take memory.
pub fn ask_of(alloc: Global, line: &[u8], nodes: u8) -> Result<Option<Ask>, AllocError>
    requires { nodes ≤ MAX_NODES }
    ensures { IfOk result (λ found.
        MatchOption found ((ask : Ask) → Spells nodes line.now ask → ⊥) (Spells nodes line.now)) }
{
    let mut words = Words::of(line);
    let Some(word) = words.next() else {
        return Ok(None);
    };
    match Verb::from_name(word) {
        Some(verb) => ask_by_verb(alloc, verb, words, nodes),
        None => Ok(None),
    }
}

/// Returns what the words after a verb ask for.
fn ask_by_verb(
    alloc: Global,
    verb: Verb,
    words: Words<'_>,
    nodes: u8,
) -> Result<Option<Ask>, AllocError>
    requires { nodes ≤ MAX_NODES }
    ensures { IfOk result (ReadsArguments nodes (verb_name verb) words.entry) }
{
    match verb {
        Verb::Answer => hear_of(alloc, words, nodes),
        Verb::Join => join_of(alloc, words, nodes),
        Verb::Begin => Ok(begin_of(words, nodes)),
        Verb::Cancel => Ok(decide_of(words, nodes, Verdict::Cancel)),
        Verb::Close => Ok(decide_of(words, nodes, Verdict::Close)),
        Verb::Deliver => Ok(deliver_of(words, nodes)),
        Verb::Duties => Ok(duties_of(words, nodes)),
        Verb::Forgot => Ok(forgot_of(words, nodes)),
        Verb::Front => Ok(front_of(words, nodes)),
        Verb::Leave => Ok(leave_of(words, nodes)),
        Verb::Member => Ok(member_of(words, nodes)),
        Verb::Purge => Ok(purge_of(words, nodes)),
        Verb::Read => Ok(read_of(words)),
        Verb::Report => Ok(report_of(words, nodes)),
        Verb::Restart => Ok(restart_of(words, nodes)),
        Verb::Same => Ok(same_of(words, nodes)),
        Verb::Send => Ok(send_of(words, nodes)),
        Verb::SendOld => Ok(send_old_of(words, nodes)),
        Verb::Show => Ok(show_of(words, nodes)),
        Verb::Text => Ok(text_of(words)),
        Verb::Tick => Ok(tick_of(words, nodes)),
        Verb::Told => Ok(told_of(words, nodes)),
    }
}
