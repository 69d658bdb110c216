// The eight commands. Each is judged at the home of the LRA that it names. If it is accepted, it
// becomes a patch that adds its fact.
ghost use Rattle.std.specs.Prelude.{◌≡◌, ◌≤◌, ◌<◌, Ok, IfOk, false, length};
ghost use Rattle.std.specs.Option.{option_map_or};
ghost use Rattle.state_ids.specs.Ids.{last_number};
ghost use Rattle.state_ids.specs.Fronts.{count};
ghost use Rattle.theory_history.specs.Next.{judge_on};
ghost use Rattle.theory_history.specs.Replies.{Accepted};
ghost use Rattle.theory_history.specs.Views.{OfItsSet};
ghost use Rattle.state_replica.specs.AtHome.{lost_by, named_by};
ghost use Rattle.state_replica.specs.Prepared.{HasRoom, IsNext, IsPrepared, judged_as};
ghost use Rattle.state_replica.specs.Replicas.{KeepsRoom, view_of};

mod begin;
mod decide;
mod fact;
mod join;
mod judging;
mod leave;
mod notices;
mod purge;
mod report;

use crate::commands::judging::judge;
use crate::{Prepared, Replica};
use state_facts::{Command, CommandReply, Refusal};
use state_ids::{Front, LraId, NodeId};
use std::alloc::{AllocError, Global};

/// Returns the LRA that a command names, if it names one.
fn named(command: &Command) -> Option<LraId>
    ensures { result ≡ named_by command.now }
{
    match command {
        Command::Begin { parent, .. } => *parent,
        Command::Join { id, .. } => Some(*id),
        Command::Leave { id, .. } => Some(*id),
        Command::Decide { id, .. } => Some(*id),
        Command::Report { id, .. } => Some(*id),
        Command::Forgot { id, .. } => Some(*id),
        Command::Told { id, .. } => Some(*id),
        Command::Purge { root } => Some(*root),
    }
}

/// Returns the home at which a node's command is judged.
fn home_of(command: &Command, me: NodeId) -> NodeId
    ensures { result ≡ option_map_or (λ l. l.home) (named_by command.now) me }
{
    match named(command) {
        Some(id) => id.home(),
        None => me,
    }
}

/// Returns the refusal of a command whose LRA has a home that is no node.
fn lost(front: &Front, command: &Command) -> Refusal
    ensures { result ≡ lost_by front.now command.now }
{
    match named(command) {
        Some(id) if front.covers(id) => Refusal::NotHeld,
        _ => Refusal::UnknownLra,
    }
}

impl Replica {
    /// Judges a command: returns true if it is already known, false if it is accepted, or the
    /// refusal.
    fn judge(&self, me: NodeId, command: &Command) -> Result<bool, Refusal>
        requires { me ≤ length self.now.front }
        ensures judged { judge_on (view_of self.now) me command.now ≡ judged_as result }
        ensures left { result ≡ Ok false → count self.now.front me < last_number }
    {
        let front = self.front();
        match self.home(home_of(command, me)) {
            Some(home) => judge(home, &front, me, command),
            None => Err(lost(&front, command)),
        }
    }

    /// Prepares an accepted command, by that command's function. It fails only if memory runs out.
    fn accept(
        &mut self,
        alloc: Global,
        me: NodeId,
        command: Command,
    ) -> Result<Prepared, AllocError>
        requires node { me ≤ length self.old.front }
        requires left { count self.old.front me < last_number }
        requires accepted { judge_on (view_of self.old) me command ≡ Accepted }
        ensures view { view_of self.new ≡ view_of self.old }
        ensures room { IfOk result (λ prepared. HasRoom (Ok prepared) self.new) }
        ensures stays { KeepsRoom self.old self.new }
        ensures next { IfOk result
            (λ prepared. IsNext (view_of self.old) me command (Ok prepared)) }
    {
        match command {
            Command::Begin { parent, deadline } => match parent {
                Some(parent) => self.accept_nested(alloc, me, parent, deadline),
                None => self.accept_root(alloc, me, deadline),
            },
            Command::Join { id, links } => self.accept_join(alloc, me, id, links),
            Command::Leave { id, member } => self.accept_leave(alloc, me, id, member),
            Command::Decide { id, verdict } => self.accept_decision(alloc, me, id, verdict),
            Command::Report {
                id,
                member,
                act,
                outcome,
            } => self.accept_report(alloc, me, id, member, act, outcome),
            Command::Forgot { id, member } => self.accept_forgot(alloc, me, id, member),
            Command::Told { id, member } => self.accept_told(alloc, me, id, member),
            Command::Purge { root } => self.accept_purge(alloc, me, root),
        }
    }

    /// Returns the outcome of a command: its refusal, that it is already known, or its patch.
    fn outcome(&mut self, alloc: Global, me: NodeId, command: Command) -> Result<Prepared, Refusal>
        requires { me ≤ length self.old.front }
        ensures view { view_of self.new ≡ view_of self.old }
        ensures room { HasRoom result self.new }
        ensures stays { KeepsRoom self.old self.new }
        ensures next { IsNext (view_of self.old) me command result }
        ensures some { 1 ≤ me }
    {
        me.is_a_node();
        if self.judge(me, &command)? {
            return Ok(Prepared {
                reply: CommandReply::Known,
                patch: None,
            });
        }
        Ok(self.accept(alloc, me, command)?)
    }

    /// Prepares a command of a node. `begin`, `join` and the others each do this for one command,
    /// and state its cost and its errors.
    pub fn prepare(
        &mut self,
        alloc: Global,
        me: NodeId,
        command: Command,
    ) -> Result<Prepared, Refusal>
        requires { me ≤ length self.old.front }
        ensures view { view_of self.new ≡ view_of self.old }
        ensures room { HasRoom result self.new }
        ensures stays { KeepsRoom self.old self.new }
        ensures next { IsNext (view_of self.old) me command result }
        ensures prepared { OfItsSet (view_of self.old)
            (λ S. IsPrepared S (view_of self.old) me command result) }
    {
        self.outcome(alloc, me, command)
    }
}
