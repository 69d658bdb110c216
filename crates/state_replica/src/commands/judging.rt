// Judging a command by the records of the home of the LRA that it names: whether it is refused,
// already known, or accepted. The functions here return what the definitions do, an optional
// refusal. With `?` each would need a second form.
ghost use Rattle.std.specs.Prelude.{◌≡◌, ◌<◌, [], ◌∷◌, None, Some, Ok, false, true};
ghost use Rattle.state_ids.specs.Fronts.{count};
ghost use Rattle.state_ids.specs.Ids.{last_number};
ghost use Rattle.state_facts.specs.declared.refusal.Refusal.TheVariants.{NotActive, NotDue, NotEnded};
ghost use Rattle.state_facts.specs.Refusals.{away, first, spent, unknown};
ghost use Rattle.theory_history.specs.Replies.{crowded_by, deep_by, early_by, full_by, gone_by, inactive_by, is_known_by, judge_by, nested_by, refusal_by, running_by, stranger_by, unasked_by, unforgotten_by, unowed_by, untold_by};
ghost use Rattle.state_replica.specs.AtHome.{IsOfHome, by_home};
ghost use Rattle.state_replica.specs.Prepared.{judged_as};

use state_facts::{Command, Refusal};
use state_forest::{Forest, MAX_DEPTH, MAX_HELD, MAX_MEMBERS};
use state_ids::{Act, Front, LAST_NUMBER, LraId, NodeId};

/// Returns the refusal to show an LRA, if no LRA with its id is held.
fn refusal_to_show(home: &Forest, front: &Front, id: LraId) -> Option<Refusal>
    ensures { let t = by_home home.now.records
        in result ≡ first (unknown front.now id ∷ gone_by t id ∷ []) }
{
    if !front.covers(id) {
        return Some(Refusal::UnknownLra);
    }
    if home.get(id).is_none() {
        return Some(Refusal::NotHeld);
    }
    None
}

/// Returns the refusal of a command for an LRA that only the LRA's home accepts.
fn refusal_at_home(home: &Forest, front: &Front, me: NodeId, id: LraId) -> Option<Refusal>
    ensures { let t = by_home home.now.records
        in result ≡ first (unknown front.now id ∷ gone_by t id ∷ away me id ∷ []) }
{
    if let Some(refusal) = refusal_to_show(home, front, id) {
        return Some(refusal);
    }
    if id.home() != me {
        return Some(Refusal::NotHome(id.home()));
    }
    None
}

/// Returns E6 with the LRA's status.
fn not_active(home: &Forest, id: LraId) -> Option<Refusal>
    ensures { let t = by_home home.now.records in t.held id ≡ true →
        result ≡ Some (NotActive (t.shows id)) }
{
    match home.status(id) {
        Ok(status) => Some(Refusal::NotActive(status)),
        Err(refusal) => Some(refusal),
    }
}

/// Returns the refusal of a command that requires an LRA that wants nothing yet.
fn refusal_of_inactive(home: &Forest, id: LraId) -> Option<Refusal>
    ensures { let t = by_home home.now.records in t.held id ≡ true → result ≡ inactive_by t id }
{
    match home.want(id) {
        Ok(Some(_)) => not_active(home, id),
        _ => None,
    }
}

/// Returns the refusal of a command that only the home accepts, and only for an LRA that wants
/// nothing yet.
fn refusal_unless_active(home: &Forest, front: &Front, me: NodeId, id: LraId) -> Option<Refusal>
    ensures { let t = by_home home.now.records in result ≡ first
        (unknown front.now id ∷ gone_by t id ∷ away me id ∷ inactive_by t id ∷ []) }
{
    if let Some(refusal) = refusal_at_home(home, front, me, id) {
        return Some(refusal);
    }
    refusal_of_inactive(home, id)
}

fn refusal_of_full(home: &Forest, id: LraId) -> Option<Refusal>
    ensures { let t = by_home home.now.records in t.held id ≡ true → result ≡ full_by t id }
{
    match home.numbers_given(id) {
        Ok(given) if given >= MAX_MEMBERS => Some(Refusal::MembersFull),
        _ => None,
    }
}

/// Returns the refusal to give one more member number in an LRA.
fn refusal_to_number_member(home: &Forest, front: &Front, me: NodeId, id: LraId) -> Option<Refusal>
    ensures { let t = by_home home.now.records in result ≡ first (unknown
        front.now id ∷ gone_by t id ∷ away me id ∷ inactive_by t id ∷ full_by t id ∷ []) }
{
    if let Some(refusal) = refusal_unless_active(home, front, me, id) {
        return Some(refusal);
    }
    refusal_of_full(home, id)
}

fn refusal_of_deep(home: &Forest, id: LraId) -> Option<Refusal>
    ensures { let t = by_home home.now.records in t.held id ≡ true → result ≡ deep_by t id }
{
    match home.depth(id) {
        Ok(depth) if depth >= u64::from(MAX_DEPTH) => Some(Refusal::DepthFull),
        _ => None,
    }
}

/// Returns the refusal to begin one more LRA at a home.
fn refusal_to_hold(home: &Forest, me: NodeId) -> Option<Refusal>
    ensures { let t = by_home home.now.records in result ≡ crowded_by t me }
{
    if home.len() >= MAX_HELD {
        return Some(Refusal::LrasFull);
    }
    None
}

fn refusal_to_nest(home: &Forest, front: &Front, me: NodeId, parent: LraId) -> Option<Refusal>
    ensures { let t = by_home home.now.records
        in result ≡ first (unknown front.now parent ∷ gone_by t parent ∷ away me parent
        ∷ inactive_by t parent ∷ full_by t parent ∷ deep_by t parent ∷ crowded_by t me ∷ []) }
{
    if let Some(refusal) = refusal_to_number_member(home, front, me, parent) {
        return Some(refusal);
    }
    if let Some(refusal) = refusal_of_deep(home, parent) {
        return Some(refusal);
    }
    refusal_to_hold(home, me)
}

/// Returns the refusal of a member number that no participant has.
fn refusal_of_stranger(home: &Forest, id: LraId, member: u8) -> Option<Refusal>
    ensures { let t = by_home home.now.records in t.held id ≡ true →
        result ≡ stranger_by t id member }
{
    match home.participant(id, member) {
        Some(_) => None,
        None => Some(Refusal::UnknownMember),
    }
}

fn refusal_to_leave(
    home: &Forest,
    front: &Front,
    me: NodeId,
    id: LraId,
    member: u8,
) -> Option<Refusal>
    ensures { let t = by_home home.now.records in result ≡ first (unknown front.now
        id ∷ gone_by t id ∷ away me id ∷ stranger_by t id member ∷ inactive_by t id ∷ []) }
{
    if let Some(refusal) = refusal_at_home(home, front, me, id) {
        return Some(refusal);
    }
    if let Some(refusal) = refusal_of_stranger(home, id, member) {
        return Some(refusal);
    }
    refusal_of_inactive(home, id)
}

/// Returns the refusal of a command that requires a participant of an LRA that is held.
fn refusal_of_no_participant(home: &Forest, front: &Front, id: LraId, member: u8) -> Option<Refusal>
    ensures { let t = by_home home.now.records in result
        ≡ first (unknown front.now id ∷ gone_by t id ∷ stranger_by t id member ∷ []) }
{
    if let Some(refusal) = refusal_to_show(home, front, id) {
        return Some(refusal);
    }
    refusal_of_stranger(home, id, member)
}

/// Returns E7 with the LRA's status.
fn not_due(home: &Forest, id: LraId) -> Option<Refusal>
    ensures { let t = by_home home.now.records in t.held id ≡ true →
        result ≡ Some (NotDue (t.shows id)) }
{
    match home.status(id) {
        Ok(status) => Some(Refusal::NotDue(status)),
        Err(refusal) => Some(refusal),
    }
}

fn refusal_of_unasked(home: &Forest, id: LraId, member: u8, act: Act) -> Option<Refusal>
    ensures { let t = by_home home.now.records in t.held id ≡ true →
        t.participant id member ≡ true → result ≡ unasked_by t id member act }
{
    if home.demands(id, member, act).unwrap_or(false) {
        return None;
    }
    not_due(home, id)
}

fn refusal_to_report(
    home: &Forest,
    front: &Front,
    id: LraId,
    member: u8,
    act: Act,
) -> Option<Refusal>
    ensures { let t = by_home home.now.records in result ≡ first (unknown front.now
        id ∷ gone_by t id ∷ stranger_by t id member ∷ unasked_by t id member act ∷ []) }
{
    if let Some(refusal) = refusal_of_no_participant(home, front, id, member) {
        return Some(refusal);
    }
    refusal_of_unasked(home, id, member, act)
}

fn refusal_of_unowed(home: &Forest, id: LraId, member: u8) -> Option<Refusal>
    ensures { let t = by_home home.now.records in t.held id ≡ true →
        t.participant id member ≡ true → result ≡ unowed_by t id member }
{
    let is_owed = home.is_to_forget(id, member).unwrap_or(false);
    if is_owed || home.has_forgotten(id, member).unwrap_or(false) {
        return None;
    }
    not_due(home, id)
}

fn refusal_to_forget(home: &Forest, front: &Front, id: LraId, member: u8) -> Option<Refusal>
    ensures { let t = by_home home.now.records in result ≡ first (unknown front.now
        id ∷ gone_by t id ∷ stranger_by t id member ∷ unowed_by t id member ∷ []) }
{
    if let Some(refusal) = refusal_of_no_participant(home, front, id, member) {
        return Some(refusal);
    }
    refusal_of_unowed(home, id, member)
}

fn refusal_of_early(home: &Forest, id: LraId, member: u8) -> Option<Refusal>
    ensures { let t = by_home home.now.records in t.held id ≡ true →
        t.participant id member ≡ true → result ≡ early_by t id member }
{
    let is_to_hear = home.is_to_hear(id, member).unwrap_or(false);
    if is_to_hear || home.was_told(id, member).unwrap_or(false) {
        return None;
    }
    not_due(home, id)
}

fn refusal_to_tell(home: &Forest, front: &Front, id: LraId, member: u8) -> Option<Refusal>
    ensures { let t = by_home home.now.records in result ≡ first (unknown front.now
        id ∷ gone_by t id ∷ stranger_by t id member ∷ early_by t id member ∷ []) }
{
    if let Some(refusal) = refusal_of_no_participant(home, front, id, member) {
        return Some(refusal);
    }
    refusal_of_early(home, id, member)
}

fn refusal_of_no_root(home: &Forest, id: LraId) -> Option<Refusal>
    ensures { let t = by_home home.now.records in t.held id ≡ true → result ≡ nested_by t id }
{
    match home.is_root(id) {
        Ok(true) => None,
        _ => Some(Refusal::NotRoot),
    }
}

/// Returns E8 with the LRA's status.
fn not_ended(home: &Forest, id: LraId) -> Option<Refusal>
    ensures { let t = by_home home.now.records in t.held id ≡ true →
        result ≡ Some (NotEnded (t.shows id)) }
{
    match home.status(id) {
        Ok(status) => Some(Refusal::NotEnded(status)),
        Err(refusal) => Some(refusal),
    }
}

fn refusal_of_running(home: &Forest, id: LraId) -> Option<Refusal>
    ensures { let t = by_home home.now.records in t.held id ≡ true → result ≡ running_by t id }
{
    match home.ended(id) {
        Ok(true) => None,
        _ => not_ended(home, id),
    }
}

fn refusal_of_unforgotten(home: &Forest, root: LraId) -> Option<Refusal>
    requires { root.home ≡ home.now.home }
    ensures { let t = by_home home.now.records in result ≡ unforgotten_by t root }
{
    match home.least_forget_duty(root) {
        Some(due) => Some(Refusal::StillToForget(due.lra, due.member)),
        None => None,
    }
}

fn refusal_of_untold(home: &Forest, root: LraId) -> Option<Refusal>
    requires { root.home ≡ home.now.home }
    ensures { let t = by_home home.now.records in result ≡ untold_by t root }
{
    match home.least_unheard(root) {
        Some(due) => Some(Refusal::StillToTell(due.lra, due.member)),
        None => None,
    }
}

fn refusal_to_purge(home: &Forest, front: &Front, me: NodeId, root: LraId) -> Option<Refusal>
    requires { root.home ≡ home.now.home }
    ensures { let t = by_home home.now.records
        in result ≡ first (unknown front.now root ∷ gone_by t root
        ∷ away me root ∷ nested_by t root
        ∷ running_by t root ∷ unforgotten_by t root ∷ untold_by t root ∷ []) }
{
    if let Some(refusal) = refusal_at_home(home, front, me, root) {
        return Some(refusal);
    }
    if let Some(refusal) = refusal_of_no_root(home, root) {
        return Some(refusal);
    }
    if let Some(refusal) = refusal_of_running(home, root) {
        return Some(refusal);
    }
    if let Some(refusal) = refusal_of_unforgotten(home, root) {
        return Some(refusal);
    }
    refusal_of_untold(home, root)
}

/// Returns the first refusal that a command meets, except for the one of spent numbers.
fn refusal_of(home: &Forest, front: &Front, me: NodeId, command: &Command) -> Option<Refusal>
    requires { IsOfHome home.now.home command.now }
    ensures { result ≡ refusal_by (by_home home.now.records) front.now me command.now }
{
    match command {
        Command::Begin { parent, .. } => match parent {
            Some(parent) => refusal_to_nest(home, front, me, *parent),
            None => refusal_to_hold(home, me),
        },
        Command::Join { id, .. } => refusal_to_number_member(home, front, me, *id),
        Command::Leave { id, member } => refusal_to_leave(home, front, me, *id, *member),
        Command::Decide { id, .. } => refusal_unless_active(home, front, me, *id),
        Command::Report {
            id,
            member,
            act,
            ..
        } => refusal_to_report(home, front, *id, *member, *act),
        Command::Forgot { id, member } => refusal_to_forget(home, front, *id, *member),
        Command::Told { id, member } => refusal_to_tell(home, front, *id, *member),
        Command::Purge { root } => refusal_to_purge(home, front, me, *root),
    }
}

/// Whether a command brings nothing new.
fn is_known(home: &Forest, command: &Command) -> bool
    ensures { result ≡ is_known_by (by_home home.now.records) command.now }
{
    match command {
        Command::Report {
            id,
            member,
            act,
            outcome,
        } => home
            .has_heard(*id, *member, *act, *outcome)
            .unwrap_or(false),
        Command::Forgot { id, member } => home.has_forgotten(*id, *member).unwrap_or(false),
        Command::Told { id, member } => home.was_told(*id, *member).unwrap_or(false),
        _ => false,
    }
}

/// Returns the refusal of any further fact of a node whose numbers are spent.
fn refusal_to_number(front: &Front, me: NodeId) -> Option<Refusal>
    ensures { result ≡ spent front.now me }
{
    if front.count(me) >= LAST_NUMBER {
        return Some(Refusal::NumbersSpent);
    }
    None
}

/// Judges a node's command: returns true if it is already known, false if it is accepted, or the
/// refusal.
pub(crate) fn judge(
    home: &Forest,
    front: &Front,
    me: NodeId,
    command: &Command,
) -> Result<bool, Refusal>
    requires { IsOfHome home.now.home command.now }
    ensures judged { judge_by (by_home home.now.records) front.now me command.now
        ≡ judged_as result }
    ensures left { result ≡ Ok false → count front.now me < last_number }
{
    if let Some(refusal) = refusal_of(home, front, me, command) {
        return Err(refusal);
    }
    if is_known(home, command) {
        return Ok(true);
    }
    match refusal_to_number(front, me) {
        Some(refusal) => Err(refusal),
        None => Ok(false),
    }
}
