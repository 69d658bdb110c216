// Recording what a participant was told: that it may forget, or that its LRA has ended.
ghost use Rattle.std.specs.Prelude.{◌≡◌, ◌≤◌, ◌<◌, ◌-◌, Ok, IfOk, OnOk, length};
ghost use Rattle.state_ids.specs.Ids.{last_number};
ghost use Rattle.state_ids.specs.Fronts.{count};
ghost use Rattle.state_facts.specs.declared.command.Command.TheVariants.{Forgot, Told};
ghost use Rattle.theory_history.specs.Growth.{forgetting, hearing, member_changed};
ghost use Rattle.theory_history.specs.Next.{judge_on};
ghost use Rattle.theory_history.specs.Replies.{Accepted};
ghost use Rattle.theory_history.specs.Views.{OfItsSet};
ghost use Rattle.state_replica.specs.Prepared.{HasRoom, IsNext, IsPrepared};
ghost use Rattle.state_replica.specs.Replicas.{KeepsRoom, view_of};
ghost use Rattle.state_replica.specs.Notices.{command_for, noted, reply_to};

use crate::{Prepared, Replica};
use state_facts::{Command, CommandReply, Refusal};
use state_forest::{Member, Members, Participant};
use state_ids::{LraId, NodeId};
use std::alloc::{AllocError, Global};

/// A notice to a participant, which asks for no outcome. A call delivers it, and any node may
/// record that it was delivered.
#[derive(Clone, Copy)]
enum Notice {
    /// The participant may forget its LRA.
    ToForget,
    /// The participant's LRA has ended.
    OfTheEnd,
}

impl Notice {
    fn reply(self) -> CommandReply
        ensures { result ≡ reply_to self }
    {
        match self {
            Notice::ToForget => CommandReply::Forgotten,
            Notice::OfTheEnd => CommandReply::Told,
        }
    }

    /// Returns the member with the mark that it was told.
    fn note(self, member: Member) -> Member
        ensures { result ≡ noted self member }
    {
        match self {
            Notice::ToForget => forgetting(member),
            Notice::OfTheEnd => hearing(member),
        }
    }
}

fn mark_forgotten(participant: Participant) -> Participant
    ensures { Member.Participant result ≡ forgetting (Member.Participant participant) }
{
    let mut next = participant;
    next.forgotten = true;
    next
}

fn forgetting(member: Member) -> Member
    ensures { result ≡ forgetting member }
{
    match member {
        Member::Participant(participant) => Member::Participant(mark_forgotten(participant)),
        other => other,
    }
}

fn mark_told(participant: Participant) -> Participant
    ensures { Member.Participant result ≡ hearing (Member.Participant participant) }
{
    let mut next = participant;
    next.told = true;
    next
}

fn hearing(member: Member) -> Member
    ensures { result ≡ hearing member }
{
    match member {
        Member::Participant(participant) => Member::Participant(mark_told(participant)),
        other => other,
    }
}

fn note_at(members: &mut Members, number: u8, notice: Notice) -> Result<(), AllocError>
    ensures { 1 ≤ number →
        OnOk result (members.new ≡ member_changed (noted notice) (number - 1) members.old) }
{
    if let Some(member) = members.get(number) {
        let next = notice.note(member.clone()?);
        members.set(number, next);
    }
    Ok(())
}

impl Replica {
    fn accept_notice(
        &mut self,
        alloc: Global,
        me: NodeId,
        id: LraId,
        member: u8,
        notice: Notice,
    ) -> Result<Prepared, AllocError>
        requires node { me ≤ length self.old.front }
        requires left { count self.old.front me < last_number }
        requires accepted { judge_on (view_of self.old) me (command_for notice id member) ≡ Accepted }
        ensures view { view_of self.new ≡ view_of self.old }
        ensures room { IfOk result (λ prepared. HasRoom (Ok prepared) self.new) }
        ensures stays { KeepsRoom self.old self.new }
        ensures next { IfOk result
            (λ prepared. IsNext (view_of self.old) me (command_for notice id member) (Ok prepared)) }
    {
        let mut next = self.copy_with_stamp(id, me)?;
        note_at(&mut next.members, member, notice)?;
        let patch = self.patch_of_one(alloc, me, next)?;
        Ok(Prepared {
            reply: notice.reply(),
            patch: Some(patch),
        })
    }

    /// Prepares an accepted record that a participant was told to forget.
    pub(crate) fn accept_forgot(
        &mut self,
        alloc: Global,
        me: NodeId,
        id: LraId,
        member: u8,
    ) -> Result<Prepared, AllocError>
        requires node { me ≤ length self.old.front }
        requires left { count self.old.front me < last_number }
        requires accepted { judge_on (view_of self.old) me (Forgot id member) ≡ Accepted }
        ensures view { view_of self.new ≡ view_of self.old }
        ensures room { IfOk result (λ prepared. HasRoom (Ok prepared) self.new) }
        ensures stays { KeepsRoom self.old self.new }
        ensures next { IfOk result
            (λ prepared. IsNext (view_of self.old) me (Forgot id member) (Ok prepared)) }
    {
        self.accept_notice(alloc, me, id, member, Notice::ToForget)
    }

    /// Prepares an accepted record that a participant was told of the end.
    pub(crate) fn accept_told(
        &mut self,
        alloc: Global,
        me: NodeId,
        id: LraId,
        member: u8,
    ) -> Result<Prepared, AllocError>
        requires node { me ≤ length self.old.front }
        requires left { count self.old.front me < last_number }
        requires accepted { judge_on (view_of self.old) me (Told id member) ≡ Accepted }
        ensures view { view_of self.new ≡ view_of self.old }
        ensures room { IfOk result (λ prepared. HasRoom (Ok prepared) self.new) }
        ensures stays { KeepsRoom self.old self.new }
        ensures next { IfOk result
            (λ prepared. IsNext (view_of self.old) me (Told id member) (Ok prepared)) }
    {
        self.accept_notice(alloc, me, id, member, Notice::OfTheEnd)
    }

    /// Prepares the record that a participant was told to forget, which any node may make. If it
    /// was told already, the command is known, and there is no patch. It costs a copy of the LRA's
    /// record and a look at those of its root's tree. Errors, the first that holds: E2, E3, E5, E7;
    /// if it isn't known, E14, E17. One function over `Notice` does this and `told`. Each has
    /// clauses of its own, because a caller cites only one.
    pub fn forgot(
        &mut self,
        alloc: Global,
        me: NodeId,
        id: LraId,
        member: u8,
    ) -> Result<Prepared, Refusal>
        requires { me ≤ length self.old.front }
        ensures view { view_of self.new ≡ view_of self.old }
        ensures room { HasRoom result self.new }
        ensures stays { KeepsRoom self.old self.new }
        ensures next { IsNext (view_of self.old) me (Forgot id member) result }
        ensures prepared { OfItsSet (view_of self.old)
            (λ S. IsPrepared S (view_of self.old) me (Forgot id member) result) }
    {
        self.prepare(alloc, me, Command::Forgot { id, member })
    }

    /// Prepares the record that a participant was told that its LRA has ended, which any node may
    /// make. Known commands, cost and errors are as for `forgot`.
    pub fn told(
        &mut self,
        alloc: Global,
        me: NodeId,
        id: LraId,
        member: u8,
    ) -> Result<Prepared, Refusal>
        requires { me ≤ length self.old.front }
        ensures view { view_of self.new ≡ view_of self.old }
        ensures room { HasRoom result self.new }
        ensures stays { KeepsRoom self.old self.new }
        ensures next { IsNext (view_of self.old) me (Told id member) result }
        ensures prepared { OfItsSet (view_of self.old)
            (λ S. IsPrepared S (view_of self.old) me (Told id member) result) }
    {
        self.prepare(alloc, me, Command::Told { id, member })
    }
}
