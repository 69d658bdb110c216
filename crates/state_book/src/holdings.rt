// All that is held of one LRA, and summaries of what is held of many.
ghost use Rattle.std.specs.Prelude.{◌≡◌, ◌≤◌, IfErr, IfOk, length};
ghost use Rattle.std.specs.Option.{option_copied};
ghost use Rattle.state_facts.specs.declared.refusal.Refusal.TheVariants.{NoMemory};
ghost use Rattle.theory_history.specs.Next.{member_shown_on, shown_on};
ghost use Rattle.theory_history.specs.Views.{record_at};
ghost use Rattle.state_replica.specs.Replicas.{view_of};
ghost use Rattle.state_book.specs.Holdings.{shown_in, statuses_of, summaries_of, summary_of};
ghost use Rattle.state_book.specs.Next.{IsSurvey, held_reply, record_reply};
ghost use Rattle.state_book.specs.Trees.{tree_on};

use crate::Reply;
use crate::preparing::act;
use crate::trees::tree_of;
use state_facts::{Command, CommandReply, Refusal};
use state_forest::{Members, Record};
use state_ids::{LraId, LraStatus, MemberStatus, NodeId};
use state_replica::{Replica, Row};
use std::alloc::{AllocError, Global};
use std::marker::Model;

/// The status of each member of an LRA, in order of their numbers; `None` for a member that is no
/// participant.
#[derive(Debug, Drop)]
pub struct MemberStatuses {
    list: Vec<Option<MemberStatus>>,
}

impl Model for MemberStatuses {
    ghost use Rattle.std.specs.Prelude.{List, Option};
    ghost use Rattle.state_ids.specs.declared.status.MemberStatus.{MemberStatus};

    ghost Value = { List (Option MemberStatus) };

    ghost view = { λ m. m.list.items };
}

impl MemberStatuses {
    /// Returns the statuses in order.
    pub fn as_slice(&self) -> &[Option<MemberStatus>]
        ensures { result.now ≡ self.now }
    {
        &self.list
    }
}

/// All that a node holds of an LRA, and the LRA's status.
#[derive(Debug, Drop)]
pub struct Holding {
    pub id: LraId,
    pub status: LraStatus,
    /// The LRA's record: its parent, its deadline, its decision and its members.
    pub record: Record,
    /// The status of each of its members.
    pub members: MemberStatuses,
    /// What this node would reply to a purge of the LRA now.
    pub purge: CommandReply,
}

/// A summary of what is held of an LRA.
#[derive(Clone, Copy, Debug, PartialEq, Eq)]
pub struct Summary {
    pub id: LraId,
    pub status: LraStatus,
    /// What the LRA's tree shows: the LRA with everything nested in it.
    pub tree: LraStatus,
    /// The number of its parent at the same home; `None` for a root.
    pub parent: Option<u64>,
    /// The number of member numbers that were given.
    pub members: usize,
    /// The deadline in milliseconds since 1970; 0 for none.
    pub deadline: u64,
}

/// The next LRAs that are held, each as a summary, and whether more follow.
#[derive(Debug, Drop)]
pub struct Survey {
    rows: Vec<Summary>,
    more: bool,
}

impl Model for Survey {
    ghost use Rattle.state_book.specs.Holdings.{SurveyRows};

    ghost Value = { SurveyRows };

    ghost view = { λ s. record { rows = s.rows.items; more = s.more } };
}

impl Survey {
    /// Returns the rows, in order of their homes and numbers.
    pub fn rows(&self) -> &[Summary]
        ensures { result.now ≡ self.now.rows }
    {
        &self.rows
    }

    /// Whether more LRAs follow.
    pub fn more(&self) -> bool
        ensures { result ≡ self.now.more }
    {
        self.more
    }
}

impl Clone for MemberStatuses {
    ghost use Rattle.std.specs.Prelude.{◌≡◌};

    ghost is_clone = { λ x y. y ≡ x };

    fn clone(&self) -> Result<MemberStatuses, AllocError> {
        Ok(MemberStatuses {
            list: self.list.clone()?,
        })
    }
}

impl Clone for Holding {
    ghost use Rattle.std.specs.Prelude.{◌≡◌};

    ghost is_clone = { λ x y. y ≡ x };

    fn clone(&self) -> Result<Holding, AllocError> {
        Ok(Holding {
            id: self.id,
            status: self.status,
            record: self.record.clone()?,
            members: self.members.clone()?,
            purge: self.purge,
        })
    }
}

impl Clone for Survey {
    ghost use Rattle.std.specs.Prelude.{◌≡◌};

    ghost is_clone = { λ x y. y ≡ x };

    fn clone(&self) -> Result<Survey, AllocError> {
        Ok(Survey {
            rows: self.rows.clone()?,
            more: self.more,
        })
    }
}

/// Returns the record of an LRA.
fn record_of(replica: &Replica, id: LraId) -> Option<&Record>
    ensures { option_copied result ≡ record_at (view_of replica.now) id }
{
    match replica.homes().get(usize::from(id.home().number()) - 1) {
        Some(home) => home.get(id),
        None => None,
    }
}

fn status_of(replica: &Replica, id: LraId, member: u8) -> Option<MemberStatus>
    ensures { result ≡ shown_in (member_shown_on (view_of replica.now) id member) }
{
    match replica.member(id, member) {
        Ok(status) => Some(status),
        Err(_) => None,
    }
}

/// Returns the status of each member of an LRA.
fn statuses(
    alloc: Global,
    replica: &Replica,
    id: LraId,
    members: &Members,
) -> Result<MemberStatuses, AllocError>
    ensures { IfOk result
        (λ list. list ≡ statuses_of (member_shown_on (view_of replica.now) id) (length members.now)) }
{
    let mut list = Vec::new(alloc);
    for place in 0..members.as_slice().len() {
        list.push(status_of(replica, id, place as u8 + 1))?;
    }
    Ok(MemberStatuses { list })
}

/// Returns what is held of an LRA that has this status, and whose purge would get this reply.
fn holding_of(
    alloc: Global,
    replica: &Replica,
    id: LraId,
    status: LraStatus,
    purge: CommandReply,
) -> Result<Reply, Refusal>
    ensures reply { let a = view_of replica.now in IfOk result
        (λ reply. reply ≡ held_reply id status (member_shown_on a id) purge (record_at a id)) }
    ensures cause { IfErr result (λ refusal. refusal ≡ NoMemory) }
{
    let Some(record) = record_of(replica, id) else {
        return Ok(Reply::Refused(Refusal::NotHeld));
    };
    let members = statuses(alloc, replica, id, &record.members)?;
    let record = record.clone()?;
    Ok(Reply::Held(Holding {
        id,
        status,
        record,
        members,
        purge,
    }))
}

/// Returns all that is held of an LRA, or the refusal as the reply. It fails only if memory runs
/// out.
pub fn hold(alloc: Global, replica: &mut Replica, me: NodeId, id: LraId) -> Result<Reply, Refusal>
    requires { me ≤ length replica.old.front }
    ensures view { view_of replica.new ≡ view_of replica.old }
    ensures reply { IfOk result (λ reply. reply
        ≡ record_reply (view_of replica.old) me id (shown_on (view_of replica.old) id)) }
    ensures cause { IfErr result (λ refusal. refusal ≡ NoMemory) }
{
    let status = match replica.status(id) {
        Ok(status) => status,
        Err(refusal) => return Ok(Reply::Refused(refusal)),
    };
    let act = act(alloc, replica, me, Command::Purge { root: id })?;
    holding_of(alloc, replica, id, status, act.reply)
}

fn in_short(row: &Row, tree: LraStatus, record: Option<&Record>) -> Summary
    ensures { result ≡ summary_of row.now tree (option_copied record.entry) }
{
    let (parent, members, deadline) = match record {
        Some(record) => (record.parent, record.members.len(), record.deadline),
        None => (None, 0, 0),
    };
    Summary {
        id: row.id,
        status: row.status,
        tree,
        parent: parent.map(|place| place.number),
        members,
        deadline,
    }
}

fn all_in_short(alloc: Global, replica: &Replica, rows: &[Row]) -> Result<Vec<Summary>, AllocError>
    ensures { let a = view_of replica.now in IfOk result
        (λ list. list.items ≡ summaries_of (tree_on a) (record_at a) rows.now) }
{
    let mut list = Vec::new(alloc);
    for row in rows {
        let tree = tree_of(replica, row.id);
        list.push(in_short(row, tree, record_of(replica, row.id)))?;
    }
    Ok(list)
}

/// Returns the next LRAs that are held beyond one, each as a summary. It fails only if memory runs
/// out.
pub fn survey_beyond(
    alloc: Global,
    replica: &Replica,
    after: Option<LraId>,
) -> Result<Reply, Refusal>
    ensures survey { IfOk result (λ reply. IsSurvey (view_of replica.now) after reply) }
    ensures cause { IfErr result (λ refusal. refusal ≡ NoMemory) }
{
    let page = replica.page(alloc, after)?;
    let rows = all_in_short(alloc, replica, page.rows())?;
    Ok(Reply::Surveyed(Survey {
        rows,
        more: page.more(),
    }))
}
