// Lists what participants are called for now.
ghost use Rattle.std.specs.Prelude.{◌≡◌, ◌≤◌, ◌++◌, IfErr, IfOk, OnOk, filter_map, length};
ghost use Rattle.std.specs.Option.{option_copied};
ghost use Rattle.state_facts.specs.declared.refusal.Refusal.TheVariants.{NoMemory};
ghost use Rattle.state_forest.specs.Dues.{AreAll};
ghost use Rattle.state_replica.specs.Replicas.{view_of};
ghost use Rattle.theory_history.specs.Readings.{by_view};
ghost use Rattle.theory_history.specs.Views.{OfItsSet};
ghost use Rattle.wire_callbacks.specs.CallDuties.{IsDuty, act_wanted, comes_first, link_for};
ghost use Rattle.wire_callbacks.specs.Errands.{kind_by, kind_in, kind_of_act};
ghost use Rattle.wire_callbacks.specs.ViewDuties.{act_by, duties_of, duty_by, shown_in};

use crate::Kind;
use state_facts::{Link, Refusal};
use state_forest::{Due, Participant};
use state_ids::{Act, LraId, LraStatus, NodeId, Outcome, Verdict};
use state_replica::Replica;
use std::alloc::{AllocError, Global};
use std::marker::Model;

/// A participant that is to be called: what for, at which link, and the parent of its LRA, if that
/// is nested.
#[derive(Debug, PartialEq, Drop)]
pub struct Duty {
    /// What the call is for.
    pub kind: Kind,
    /// The act that is to be done, is asked about, or was done. For a forget, and for the
    /// notification of the end, it is the act that the LRA wants.
    pub act: Act,
    /// The LRA.
    pub id: LraId,
    /// The participant's member number, 1 to 32.
    pub member: u8,
    /// The link at which it is called.
    pub link: Link,
    /// The parent of a nested LRA.
    pub parent: Option<LraId>,
    /// What the LRA shows, if the participant is notified that it has ended.
    pub shows: Option<LraStatus>,
}

/// The participants that are to be called, in order.
#[derive(Debug, Drop)]
pub struct Duties {
    list: Vec<Duty>,
}

impl Model for Duties {
    ghost use Rattle.std.specs.Prelude.{List};
    ghost use Rattle.wire_callbacks.specs.declared.duty.Duty.{Duty};

    ghost Value = { List Duty };

    ghost view = { λ d. d.list.items };
}

impl Duties {
    /// Returns the duties in order.
    pub fn as_slice(&self) -> &[Duty]
        ensures { result.now ≡ self.now }
    {
        &self.list
    }

    /// Returns the duties in order, as a vector of its own.
    pub fn into_vec(self) -> Vec<Duty>
        ensures { result.items ≡ self }
    {
        self.list
    }
}

impl Clone for Duty {
    ghost use Rattle.std.specs.Prelude.{◌≡◌};

    ghost is_clone = { λ x y. y ≡ x };

    fn clone(&self) -> Result<Duty, AllocError> {
        Ok(Duty {
            kind: self.kind,
            act: self.act,
            id: self.id,
            member: self.member,
            link: self.link.clone()?,
            parent: self.parent,
            shows: self.shows,
        })
    }
}

impl Clone for Duties {
    ghost use Rattle.std.specs.Prelude.{◌≡◌};

    ghost is_clone = { λ x y. y ≡ x };

    fn clone(&self) -> Result<Duties, AllocError> {
        Ok(Duties {
            list: self.list.clone()?,
        })
    }
}

/// What a participant is called for: to do an act, to be released from remembering it, or to be
/// notified that its LRA has ended. The `DutyKind` of `state_forest` is what is owed at a record.
#[derive(Clone, Copy)]
enum Purpose {
    Call(Act),
    Release,
    Tell,
}

fn kind_of_act(act: Act) -> Kind
    ensures { result ≡ kind_of_act act }
{
    match act {
        Act::Complete => Kind::Complete,
        Act::Compensate => Kind::Compensate,
    }
}

fn kind_by(participant: &Participant, act: Act) -> Kind
    ensures { result ≡ kind_by participant.now act }
{
    match (participant.heard(act), participant.links.status()) {
        (Some(Outcome::Busy), Some(_)) => Kind::Status,
        _ => kind_of_act(act),
    }
}

fn kind_in(errand: Purpose, participant: &Participant) -> Kind
    ensures { result ≡ kind_in errand participant.now }
{
    match errand {
        Purpose::Call(act) => kind_by(participant, act),
        Purpose::Release => Kind::Forget,
        Purpose::Tell => Kind::After,
    }
}

/// Returns the act that is wanted, if one is.
pub fn act_wanted(want: Option<Verdict>) -> Option<Act>
    ensures { result ≡ act_wanted want }
{
    match want {
        Some(Verdict::Close) => Some(Act::Complete),
        Some(Verdict::Cancel) => Some(Act::Compensate),
        None => None,
    }
}

fn link_for(participant: &Participant, kind: Kind) -> Option<&Link>
    ensures { option_copied result ≡ link_for kind participant.now.links }
{
    match kind {
        Kind::Complete => participant.links.complete(),
        Kind::Compensate => participant.links.compensate(),
        Kind::Status => participant.links.status(),
        Kind::Forget => participant.links.forget(),
        Kind::After => participant.links.after(),
    }
}

fn act_at(replica: &Replica, id: LraId) -> Option<Act>
    ensures { result ≡ act_wanted ((by_view (view_of replica.now)).want id) }
{
    match replica.want(id) {
        Ok(want) => act_wanted(want),
        Err(_) => None,
    }
}

fn act_of(replica: &Replica, errand: Purpose, due: Due) -> Option<Act>
    ensures { result ≡ act_by (view_of replica.now) errand due }
{
    match errand {
        Purpose::Call(act) => Some(act),
        Purpose::Release => act_at(replica, due.lra),
        Purpose::Tell => act_at(replica, due.lra),
    }
}

/// Returns what the LRA shows, if a call of this kind says it.
fn shown_in(replica: &Replica, kind: Kind, id: LraId) -> Option<LraStatus>
    ensures { result ≡ shown_in (view_of replica.now) kind id }
{
    match kind {
        Kind::After => replica.shown(id).ok(),
        _ => None,
    }
}

fn duty_of(replica: &Replica, errand: Purpose, due: Due) -> Result<Option<Duty>, AllocError>
    ensures { IfOk result (λ duty. duty ≡ duty_by (view_of replica.now) errand due) }
{
    let Some(participant) = replica.participant(due.lra, due.member) else {
        return Ok(None);
    };
    let Some(act) = act_of(replica, errand, due) else {
        return Ok(None);
    };
    let kind = kind_in(errand, participant);
    let Some(link) = link_for(participant, kind) else {
        return Ok(None);
    };
    Ok(Some(Duty {
        kind,
        act,
        id: due.lra,
        member: due.member,
        link: link.clone()?,
        parent: replica.parent(due.lra),
        shows: shown_in(replica, kind, due.lra),
    }))
}

fn add(
    replica: &Replica,
    errand: Purpose,
    dues: &[Due],
    duties: &mut Vec<Duty>,
) -> Result<(), AllocError>
    ensures { OnOk result (duties.new.items
        ≡ duties.old.items ++ filter_map (duty_by (view_of replica.now) errand) dues.now) }
{
    for due in dues {
        if let Some(duty) = duty_of(replica, errand, *due)? {
            duties.push(duty)?;
        }
    }
    Ok(())
}

/// Returns the participants in LRAs of a home that are to be called now: first those that are to
/// complete, by LRA and member number; then those that are to compensate, by the number of the
/// topmost cancelled LRA; then those that may forget, and those that are notified of the end of
/// their LRAs, by LRA and member number. Errors: NoMemory.
pub fn pick(alloc: Global, replica: &Replica, me: NodeId) -> Result<Duties, Refusal>
    requires { me ≤ length replica.now.front }
    ensures next { IfOk result (λ duties. duties ≡ duties_of (view_of replica.now) me) }
    ensures all { OfItsSet (view_of replica.now)
        (λ S. IfOk result (λ duties. AreAll (IsDuty me S) (comes_first S) duties)) }
    ensures cause { IfErr result (λ refusal. refusal ≡ NoMemory) }
{
    me.is_a_node();
    let mut list = Vec::new(alloc);
    let dues = replica.complete_duties(alloc, me)?;
    add(replica, Purpose::Call(Act::Complete), &dues, &mut list)?;
    let dues = replica.next_compensations(alloc, me)?;
    add(replica, Purpose::Call(Act::Compensate), &dues, &mut list)?;
    let dues = replica.forget_duties(alloc, me)?;
    add(replica, Purpose::Release, &dues, &mut list)?;
    let dues = replica.after_duties(alloc, me)?;
    add(replica, Purpose::Tell, &dues, &mut list)?;
    Ok(Duties { list })
}
