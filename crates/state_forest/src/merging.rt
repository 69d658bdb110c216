// How a home's records change when another node's records are merged into them.
ghost use Rattle.std.specs.Prelude.{◌≡◌, ◌≤◌, ◌<◌, ◌==◌, ℕ, Some, None, false, IfOk, IsTrue, OnOk, if◌then◌else◌, is_some, nat_le};
ghost use Rattle.std.specs.List.{AllByRecursion};
ghost use Rattle.std.specs.Option.{option_copied};
ghost use Rattle.state_forest.specs.Forests.{AreOf, id_of};
ghost use Rattle.state_forest.specs.RecordMerges.{brought, changed_by, held_numbers, home_stamp, is_gone, is_unlisted, linked, merged_member, merged_members, merged_participant, merged_record, absorbed};
ghost use Rattle.state_forest.specs.OnlyChanges.{AreOnlyChanges, IsPut, ids_lost, is_lost};
ghost use Rattle.state_forest.specs.Shape.{found_at};

use crate::lacking::has_all;
use crate::{Forest, Member, Members, Participant, Record, Records};
use state_facts::Link;
use state_ids::{LraId, Outcome};
use std::alloc::{AllocError, Global};

/// What another node sends of a home.
#[derive(Debug, Drop)]
pub struct Told {
    /// Records of LRAs of the home.
    pub records: Forest,
    /// The numbers of all LRAs of the home that the other node holds, if it sends them.
    pub held: Option<Vec<u64>>,
}

/// The changes to the records of a home: LRAs whose records are removed, and records that are then
/// put in their places. Each stands there once, in order of the numbers.
#[derive(Debug, Drop)]
pub struct Changes {
    pub removed: Vec<LraId>,
    pub records: Forest,
}

/// Returns the outcome that was heard of an act, if there is a link for it.
pub(crate) fn where_linked(link: Option<&Link>, heard: Option<Outcome>) -> Option<Outcome>
    ensures { result ≡ (if is_some (option_copied link.entry) then heard else None) }
{
    if link.is_some() { heard } else { None }
}

/// Returns the participant without whatever it has no link for.
fn linked(kept: Participant) -> Participant
    ensures { result ≡ linked kept }
{
    let completed = where_linked(kept.links.complete(), kept.completed);
    let compensated = where_linked(kept.links.compensate(), kept.compensated);
    let forgotten = kept.links.forget().is_some() && kept.forgotten;
    let told = kept.links.after().is_some() && kept.told;
    Participant {
        links: kept.links,
        completed,
        compensated,
        forgotten,
        told,
    }
}

/// Returns the participant with what another record heard of it, and without whatever it has no
/// link for.
fn merged_participant(kept: Participant, other: &Participant) -> Participant
    ensures { result ≡ merged_participant kept other.now }
{
    let forgotten = kept.forgotten || other.forgotten;
    let told = kept.told || other.told;
    linked(Participant {
        links: kept.links,
        completed: Outcome::or_greater(kept.completed, other.completed),
        compensated: Outcome::or_greater(kept.compensated, other.compensated),
        forgotten,
        told,
    })
}

fn merged_member(kept: Member, other: Option<&Member>) -> Member
    ensures { result ≡ merged_member kept (option_copied other.entry) }
{
    match kept {
        Member::Participant(kept) => match other {
            Some(Member::Participant(other)) => {
                Member::Participant(merged_participant(kept, other))
            }
            _ => Member::Participant(linked(kept)),
        },
        kept => kept,
    }
}

/// Adds to members what another record heard of them, and drops whatever they have no link for. It
/// takes no memory.
fn merge_members(kept: &mut Members, other: &Members)
    ensures { kept.new ≡ merged_members kept.old other.now }
{
    for place in 0..kept.as_slice().len() {
        let number = place as u8 + 1;
        let member = kept.exchange(number, Member::Left);
        kept.set(number, merged_member(member, other.get(number)));
    }
}

/// Whether merging either of two members into the other gives the same.
fn is_alike(kept: &Member, other: &Member) -> bool
    ensures { IsTrue result → merged_member kept.now (Some other.now)
        ≡ merged_member other.now (Some kept.now) }
{
    match kept {
        Member::Participant(kept) => match other {
            Member::Participant(other) => kept.links == other.links,
            _ => false,
        },
        kept => kept == other,
    }
}

/// Whether merging either list of members into the other gives the same.
fn are_alike(kept: &Members, other: &Members) -> bool
    ensures { IsTrue result → merged_members kept.now other.now
        ≡ merged_members other.now kept.now }
{
    let (kept, other) = (kept.as_slice(), other.as_slice());
    if kept.len() != other.len() {
        return false;
    }
    for place in 0..kept.len() {
        if !is_alike(&kept[place], &other[place]) {
            return false;
        }
    }
    true
}

/// Returns the own members with what another record heard of them. It copies them only if they
/// differ from the other's in more than that.
fn merged_own(own: &Members, other: Members) -> Result<Members, AllocError>
    ensures { IfOk result (λ members. members ≡ merged_members own.now other) }
{
    if are_alike(own, &other) {
        let mut members = other;
        merge_members(&mut members, own);
        return Ok(members);
    }
    let mut members = own.clone()?;
    merge_members(&mut members, &other);
    Ok(members)
}

pub(crate) fn home_stamp(kept: &Record) -> u64
    ensures { result ≡ home_stamp kept.now }
{
    kept.stamps.count(kept.home)
}

/// Merges two records of one LRA. The members, links and decision are those of the record that
/// counts more of the home's own facts.
pub(crate) fn merge_records(own: &Record, other: Record) -> Result<Record, AllocError>
    ensures { IfOk result (λ r. r ≡ merged_record own.now other) }
{
    let stamps = own.stamps.join(&other.stamps);
    let is_own_kept = home_stamp(&other) <= home_stamp(own);
    let (decision, members) = if is_own_kept {
        (own.decision, merged_own(&own.members, other.members)?)
    } else {
        let mut members = other.members;
        merge_members(&mut members, &own.members);
        (other.decision, members)
    };
    Ok(Record {
        home: own.home,
        num: own.num,
        parent: own.parent,
        deadline: own.deadline,
        decision,
        stamps,
        members,
    })
}

impl Told {
    fn is_unlisted(&self, num: u64) -> bool
        ensures { result ≡ is_unlisted (held_numbers self.now.held) num }
    {
        match &self.held {
            Some(nums) => !nums.contains(&num),
            None => false,
        }
    }

    /// Returns the LRA of this record if the other node has no record of it and no longer holds it.
    /// `told` is the number of the home's facts that the other node counts.
    fn gone(&self, told: u64, own: &Record) -> Option<LraId>
        ensures { result ≡ (if is_lost self.now.records.home told (held_numbers self.now.held)
            self.now.records.records own.now then Some (id_of own.now) else None) }
    {
        let num = own.num;
        if num > told || self.records.numbered(num).is_some() || !self.is_unlisted(num) {
            return None;
        }
        LraId::new(own.home, num).ok()
    }
}

/// Returns the LRAs of these records of which the other node has no record and which it no longer
/// holds. If that node doesn't send which LRAs it holds, nothing is looked up.
#[tactic(auto, using(crate::proofs::OnlyWhatChanges::none_lost))]
fn all_gone(
    alloc: Global,
    own: Records<'_>,
    told: u64,
    other: &Told,
) -> Result<Vec<LraId>, AllocError>
    ensures { IfOk result (λ removed. removed.items ≡ ids_lost other.now.records.home told
        (held_numbers other.now.held) other.now.records.records own.entry) }
{
    let mut removed = Vec::new(alloc);
    if other.held.is_none() {
        return Ok(removed);
    }
    for record in own {
        if let Some(id) = other.gone(told, record) {
            removed.push(id)?;
        }
    }
    Ok(removed)
}

fn unless_there(next: Record, own: &Record) -> Option<Record>
    ensures { IsPut (Some own.now) (Some next) result }
{
    if next == *own { None } else { Some(next) }
}

impl Forest {
    /// Returns the record to put for an LRA of which the other node has this record. If there is a
    /// record here too, the result is both merged. If there is none, the result is the other's
    /// record, unless the begin is counted here, because then the LRA was purged here. Returns
    /// `None` if the record here would not change.
    fn news(&self, mine: u64, heard: Record) -> Result<Option<Record>, AllocError>
        ensures { IfOk result (λ put. let own = found_at self.now.home self.now.records heard.num in
            IsPut own (brought (nat_le heard.num mine) own (Some heard)) put) }
    {
        match self.numbered(heard.num) {
            Some(own) if has_all(own, &heard) => Ok(None),
            Some(own) => Ok(unless_there(merge_records(own, heard)?, own)),
            None if heard.num <= mine => Ok(None),
            None => Ok(Some(heard)),
        }
    }

    #[tactic(auto, using(crate::proofs::TakenRecords::up_to, crate::proofs::TakenRecords::none_has))]
    fn bring(&self, mine: u64, heard: Record, records: &mut Forest) -> Result<(), AllocError>
        requires heard { heard.home ≡ self.now.home }
        requires home { records.old.home ≡ self.now.home }
        requires own { AreOf self.now.home self.now.records }
        requires order { AreOf self.now.home records.old.records }
        requires last { AllByRecursion (λ q. q.num < heard.num) records.old.records }
        ensures home { OnOk result (records.new.home ≡ self.now.home) }
        ensures order { OnOk result (AreOf self.now.home records.new.records) }
        ensures last { OnOk result
            (AllByRecursion (λ q. q.num ≤ heard.num) records.new.records) }
        ensures put { OnOk result (let own = found_at self.now.home self.now.records heard.num
            in IsPut own (brought (nat_le heard.num mine) own (Some heard))
            (found_at self.now.home records.new.records heard.num)) }
        ensures others { OnOk result ((num : ℕ) →
            (heard.num == num) ≡ false → found_at self.now.home records.new.records num
            ≡ found_at self.now.home records.old.records num) }
    {
        if let Some(next) = self.news(mine, heard)? {
            records.push_last(next)?;
        }
        Ok(())
    }

    fn all_brought(&self, alloc: Global, mine: u64, other: Forest) -> Result<Forest, AllocError>
        requires home { other.home ≡ self.now.home }
        requires own { AreOf self.now.home self.now.records }
        requires order { AreOf self.now.home other.records }
        ensures home { IfOk result (λ records. records.home ≡ self.now.home) }
        ensures order { IfOk result (λ records. AreOf self.now.home records.records) }
        ensures put { IfOk result (λ records. (num : ℕ) →
            let own = found_at self.now.home self.now.records num
            in IsPut own (brought (nat_le num mine) own (found_at self.now.home other.records num))
            (found_at self.now.home records.records num)) }
    {
        let mut records = Forest::new(alloc, self.home());
        for heard in other.into_records() {
            self.bring(mine, heard, &mut records)?;
        }
        Ok(records)
    }

    /// Returns how these records change when another node's records are merged into them. `mine` is
    /// the number of the home's facts that this node counts, `told` the number that the other
    /// counts.
    ///
    /// An LRA of which both have a record gets the merged record. An LRA of which only the other
    /// has a record gets that record, unless `mine` counts its begin, because then it was purged
    /// here. An LRA of which only these records have one is removed if the other lists all LRAs of
    /// the home that it holds and doesn't list this one, although `told` counts its begin, because
    /// then it was purged there. Otherwise it stays.
    ///
    /// A record that would stay the same is no change, and each change stands there once. It looks
    /// up each record among the other's by binary search, goes through the listed numbers for each
    /// record that the other lacks, and takes memory only for the changes and for one record that
    /// is being merged.
    pub fn taking(
        &self,
        alloc: Global,
        mine: u64,
        told: u64,
        other: Told,
    ) -> Result<Changes, AllocError>
        requires { other.records.home ≡ self.now.home }
        ensures home { IfOk result (λ changes. changes.records.home ≡ self.now.home) }
        ensures only { IfOk result (λ changes. AreOnlyChanges
            self.now.home self.now.records changes.removed.items changes.records.records) }
        ensures order { IfOk result (λ changes. AreOf self.now.home
            (changed_by changes.removed.items changes.records.records self.now.records)) }
        ensures taken { IfOk result (λ changes. (num : ℕ) → found_at self.now.home
            (changed_by changes.removed.items changes.records.records self.now.records) num
            ≡ absorbed (nat_le num mine) (is_gone told (held_numbers other.held) num)
            (found_at self.now.home self.now.records num)
            (found_at self.now.home other.records.records num)) }
    {
        // The prover needs what these calls ensure: both are in order.
        let own = self.records();
        let _ = other.records.records();
        let removed = all_gone(alloc, own, told, &other)?;
        let records = self.all_brought(alloc, mine, other.records)?;
        Ok(Changes { removed, records })
    }
}
