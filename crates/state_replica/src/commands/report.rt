// Recording the outcome of an act of a participant.
ghost use Rattle.std.specs.Prelude.{◌≡◌, ◌≤◌, ◌<◌, ◌-◌, Ok, IfOk, OnOk, length};
ghost use Rattle.state_ids.specs.Ids.{last_number};
ghost use Rattle.state_ids.specs.Fronts.{count};
ghost use Rattle.state_facts.specs.declared.command.Command.TheVariants.{Report};
ghost use Rattle.theory_history.specs.Growth.{member_changed, reporting};
ghost use Rattle.theory_history.specs.Next.{judge_on};
ghost use Rattle.theory_history.specs.Replies.{Accepted};
ghost use Rattle.theory_history.specs.Views.{OfItsSet};
ghost use Rattle.state_replica.specs.Prepared.{HasRoom, IsNext, IsPrepared};
ghost use Rattle.state_replica.specs.Replicas.{KeepsRoom, view_of};

use crate::{Prepared, Replica};
use state_facts::{Command, CommandReply, Refusal};
use state_forest::{Member, Members, Participant};
use state_ids::{Act, LraId, NodeId, Outcome};
use std::alloc::{AllocError, Global};

fn mark_outcome(participant: Participant, act: Act, outcome: Outcome) -> Participant
    ensures { Member.Participant result ≡ reporting act outcome (Member.Participant participant) }
{
    let mut next = participant;
    match act {
        Act::Complete => next.completed = Outcome::or_greater(next.completed, Some(outcome)),
        Act::Compensate => next.compensated = Outcome::or_greater(next.compensated, Some(outcome)),
    }
    next
}

fn reporting(member: Member, act: Act, outcome: Outcome) -> Member
    ensures { result ≡ reporting act outcome member }
{
    match member {
        Member::Participant(participant) => {
            Member::Participant(mark_outcome(participant, act, outcome))
        }
        other => other,
    }
}

fn report_to(
    members: &mut Members,
    number: u8,
    act: Act,
    outcome: Outcome,
) -> Result<(), AllocError>
    ensures { 1 ≤ number → OnOk result (members.new
        ≡ member_changed (reporting act outcome) (number - 1) members.old) }
{
    if let Some(member) = members.get(number) {
        let next = reporting(member.clone()?, act, outcome);
        members.set(number, next);
    }
    Ok(())
}

impl Replica {
    /// Prepares an accepted report.
    pub(crate) fn accept_report(
        &mut self,
        alloc: Global,
        me: NodeId,
        id: LraId,
        member: u8,
        act: Act,
        outcome: Outcome,
    ) -> Result<Prepared, AllocError>
        requires node { me ≤ length self.old.front }
        requires left { count self.old.front me < last_number }
        requires accepted { judge_on (view_of self.old) me (Report id member act outcome) ≡ Accepted }
        ensures view { view_of self.new ≡ view_of self.old }
        ensures room { IfOk result (λ prepared. HasRoom (Ok prepared) self.new) }
        ensures stays { KeepsRoom self.old self.new }
        ensures next { IfOk result
            (λ prepared. IsNext (view_of self.old) me (Report id member act outcome) (Ok prepared)) }
    {
        let mut next = self.copy_with_stamp(id, me)?;
        report_to(&mut next.members, member, act, outcome)?;
        let patch = self.patch_of_one(alloc, me, next)?;
        Ok(Prepared {
            reply: CommandReply::Reported,
            patch: Some(patch),
        })
    }

    /// Prepares a report of an outcome of an act of a participant, which any node may record. If
    /// this outcome or a greater one was heard already, it is known, and there is no patch. It
    /// costs a copy of the LRA's record and a look at those above it. Errors, the first that holds:
    /// E2, E3, E5, E7; if it isn't known, E14, E17.
    pub fn report(
        &mut self,
        alloc: Global,
        me: NodeId,
        id: LraId,
        member: u8,
        act: Act,
        outcome: Outcome,
    ) -> Result<Prepared, Refusal>
        requires { me ≤ length self.old.front }
        ensures view { view_of self.new ≡ view_of self.old }
        ensures room { HasRoom result self.new }
        ensures stays { KeepsRoom self.old self.new }
        ensures next { IsNext (view_of self.old) me (Report id member act outcome) result }
        ensures prepared { OfItsSet (view_of self.old)
            (λ S. IsPrepared S (view_of self.old) me (Report id member act outcome) result) }
    {
        let command = Command::Report {
            id,
            member,
            act,
            outcome,
        };
        self.prepare(alloc, me, command)
    }
}
