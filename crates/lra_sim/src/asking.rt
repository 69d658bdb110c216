// The requests of clients and operators to nodes.

use crate::play::{Play, nowhere};
use crate::texts;
use node_agenda::OperatorWant;
use sim_env::{DueCall, Halt, Luck};
use sim_node::HOSTS;
use sim_runs::Runs;
use state_book::Call;
use state_facts::{Command, Links};
use state_ids::{Act, LraId, Outcome, Verdict};
use std::alloc::Global;
use wire_callbacks::Kind;

fn member_by(luck: &mut Luck) -> u8 {
    match luck.below(4) {
        0 => 1,
        1 => 2,
        2 => 3,
        _ => 4,
    }
}

fn outcome_by(luck: &mut Luck) -> Outcome {
    match luck.below(4) {
        0 => Outcome::Busy,
        1 => Outcome::Failed,
        _ => Outcome::Done,
    }
}

fn kind_by(luck: &mut Luck) -> Kind {
    match luck.below(4) {
        0 => Kind::Complete,
        1 => Kind::Compensate,
        2 => Kind::Forget,
        _ => Kind::After,
    }
}

fn act_by(luck: &mut Luck) -> Act {
    if luck.is_one_in(2) {
        Act::Complete
    } else {
        Act::Compensate
    }
}

/// Returns a link in one of `cases` cases.
fn link_by(alloc: Global, luck: &mut Luck, cases: u64) -> Result<Option<String>, Halt> {
    if !luck.is_one_in(cases) {
        return Ok(None);
    }
    let host = luck.place(HOSTS).saturating_add(1);
    Ok(Some(format!(in alloc; "http://h{host}/x")?))
}

/// Returns the text of a link, if there is one.
fn text_of(link: &Option<String>) -> Option<&str> {
    match link {
        Some(text) => Some(text.as_str()),
        None => None,
    }
}

/// Picks the links of a participant or, in few cases, of a listener.
fn links_by(alloc: Global, luck: &mut Luck) -> Result<Links, Halt> {
    let complete = link_by(alloc, luck, 2)?;
    let compensate = link_by(alloc, luck, 1)?;
    let status = link_by(alloc, luck, 3)?;
    let forget = link_by(alloc, luck, 3)?;
    let after = link_by(alloc, luck, 3)?;
    if after.is_some() && luck.is_one_in(4) {
        return Ok(Links::read(alloc, None, None, None, None, text_of(&after))?);
    }
    let (complete, compensate, status) = (
        text_of(&complete),
        text_of(&compensate),
        text_of(&status),
    );
    Ok(Links::read(
        alloc,
        complete,
        compensate,
        status,
        text_of(&forget),
        text_of(&after),
    )?)
}

/// Picks what a participant might have answered.
fn said_by(luck: &mut Luck, kind: Kind, id: LraId, member: u8) -> Command {
    let act = match kind {
        Kind::Forget => return Command::Forgot { id, member },
        Kind::After => return Command::Told { id, member },
        Kind::Complete => Act::Complete,
        Kind::Compensate => Act::Compensate,
        Kind::Status => act_by(luck),
    };
    Command::Report {
        id,
        member,
        act,
        outcome: outcome_by(luck),
    }
}

impl<R: Runs> Play<R> {
    /// Picks a begin, perhaps of a nested LRA, with a deadline or without one.
    fn begin_lra(&mut self, place: usize, id: Option<LraId>) -> Command {
        let parent = if self.luck.is_one_in(2) { id } else { None };
        if !self.luck.is_one_in(4) {
            return Command::Begin {
                parent,
                deadline: 0,
            };
        }
        let unix = match self.nodes.get(place) {
            Some(node) => node.unix(self.now),
            None => 0,
        };
        Command::Begin {
            parent,
            deadline: unix.saturating_add(self.luck.below(15_000)),
        }
    }

    /// Picks a participant to whom a call is due, as far as the node knows.
    fn some_due(&mut self, place: usize, id: LraId) -> Result<Option<DueCall>, Halt> {
        let Some(node) = self.nodes.get(place) else {
            return Err(nowhere());
        };
        let dues = node.known.model().dues(id.home())?;
        if dues.is_empty() || self.luck.is_one_in(4) {
            return Ok(None);
        }
        Ok(dues.get(self.luck.place(dues.len())).copied())
    }

    /// Picks what a participant might have answered: one to whom a call is due, or any.
    fn say(&mut self, place: usize, id: LraId) -> Result<Command, Halt> {
        if let Some(due) = self.some_due(place, id)? {
            return Ok(said_by(&mut self.luck, due.kind, due.id, due.member));
        }
        let kind = kind_by(&mut self.luck);
        let member = member_by(&mut self.luck);
        Ok(said_by(&mut self.luck, kind, id, member))
    }

    fn command(&mut self, place: usize, id: LraId) -> Result<Command, Halt> {
        let (member, me) = (member_by(&mut self.luck), self.me(place)?);
        // About another home's LRAs, a node stores only participants' answers.
        let is_home = id.home() == me || self.luck.is_one_in(4);
        let sort = if is_home { self.luck.below(20) } else { 19 };
        match sort {
            0..=3 => Ok(self.begin_lra(place, Some(id))),
            4..=9 => Ok(Command::Join {
                id,
                links: links_by(self.alloc, &mut self.luck)?,
            }),
            10 => Ok(Command::Leave { id, member }),
            11..=13 => Ok(Command::Decide {
                id,
                verdict: Verdict::Close,
            }),
            14..=15 => Ok(Command::Decide {
                id,
                verdict: Verdict::Cancel,
            }),
            16 => Ok(Command::Purge { root: id }),
            _ => self.say(place, id),
        }
    }

    fn some_command(&mut self, place: usize) -> Result<Command, Halt> {
        match self.some_lra(place)? {
            Some(id) => self.command(place, id),
            None => Ok(self.begin_lra(place, None)),
        }
    }

    /// Lets operators want a command or a question, or give up what they wanted.
    pub fn ask_operator(&mut self, place: usize) -> Result<(), Halt> {
        if self.luck.is_one_in(3) {
            self.want(place, Call::Survey(None), OperatorWant::Question);
            return Ok(());
        }
        let command = self.some_command(place)?;
        self.want(place, Call::Command(command), OperatorWant::Command);
        Ok(())
    }

    fn want(&mut self, place: usize, call: Call, wanted: OperatorWant) {
        let now = self.now;
        if let Some(life) = self.life(place) {
            life.want(call, wanted, now);
        }
    }

    /// Lets a client send a node a command.
    pub fn ask_client(&mut self, place: usize) -> Result<(), Halt> {
        let command = self.some_command(place)?;
        let (me, said) = (self.me(place)?, texts::of_command(self.alloc, &command)?);
        let caller = self.luck.place(3).saturating_add(1);
        let reply = self.call(place, caller, Call::Command(command))?;
        self.note_event(texts::of_asked(self.alloc, me, &said, &reply)?)
    }

    /// Lets a client send a node a command in the middle of another call.
    pub fn ask_between(&mut self, place: usize) -> Result<(), Halt> {
        let command = self.some_command(place)?;
        let (me, said) = (self.me(place)?, texts::of_command(self.alloc, &command)?);
        let caller = self.luck.place(3).saturating_add(1);
        let reply = self.call_between(place, caller, Call::Command(command))?;
        self.note_event(texts::of_asked(self.alloc, me, &said, &reply)?)
    }
}
