// Which of another node's records are news.
ghost use Rattle.std.specs.Prelude.{◌≡◌, ◌≤◌, ◌<◌, ◌==◌, ◌&&◌, ◌||◌, ℕ, None, Some, false, IfOk, IsTrue, OnOk, if◌then◌else◌, is_some};
ghost use Rattle.std.specs.List.{AllByRecursion};
ghost use Rattle.std.specs.Option.{option_copied};
ghost use Rattle.state_ids.specs.States.{greater};
ghost use Rattle.state_forest.specs.Forests.{AreOf};
ghost use Rattle.state_forest.specs.RecordMerges.{brought, merged_member, merged_members, merged_participant, merged_record};
ghost use Rattle.state_forest.specs.OnlyChanges.{IsTold};
ghost use Rattle.state_forest.specs.Shape.{found_at};

use crate::merging::{home_stamp, where_linked};
use crate::{Forest, Member, Members, Participant, Record};
use state_facts::Link;
use state_ids::Outcome;
use std::alloc::{AllocError, Global};

/// Whether an outcome stays unchanged when another one is heard.
fn outcome_stays(link: Option<&Link>, kept: Option<Outcome>, heard: Option<Outcome>) -> bool
    ensures { IsTrue result →
        (if is_some (option_copied link.entry) then greater kept heard else None) ≡ kept }
{
    where_linked(link, Outcome::or_greater(kept, heard)) == kept
}

/// Whether a mark stays unchanged when another one is heard.
fn mark_stays(link: Option<&Link>, kept: bool, heard: bool) -> bool
    ensures { IsTrue result → (is_some (option_copied link.entry) && (kept || heard)) ≡ kept }
{
    (link.is_some() && (kept || heard)) == kept
}

/// Whether a participant stays unchanged when another is merged into it.
#[tactic(auto, using(crate::proofs::MemberMerges::participant_stays))]
fn participant_stays(kept: &Participant, other: &Participant) -> bool
    ensures { IsTrue result → merged_participant kept.now other.now ≡ kept.now }
{
    let links = &kept.links;
    let completed = outcome_stays(links.complete(), kept.completed, other.completed);
    let compensated = outcome_stays(links.compensate(), kept.compensated, other.compensated);
    let forgotten = mark_stays(links.forget(), kept.forgotten, other.forgotten);
    let told = mark_stays(links.after(), kept.told, other.told);
    completed && compensated && forgotten && told
}

/// Whether a member stays unchanged when another is merged into it. Returns false if it may change.
fn stays(kept: &Member, other: Option<&Member>) -> bool
    ensures { IsTrue result → merged_member kept.now (option_copied other.entry) ≡ kept.now }
{
    match kept {
        Member::Participant(kept) => match other {
            Some(Member::Participant(other)) => participant_stays(kept, other),
            _ => false,
        },
        _ => true,
    }
}

/// Whether all of some members stay unchanged when others are merged into them.
fn all_stay(kept: &Members, other: &Members) -> bool
    ensures { IsTrue result → merged_members kept.now other.now ≡ kept.now }
{
    let kept = kept.as_slice();
    for place in 0..kept.len() {
        if !stays(&kept[place], other.get(place as u8 + 1)) {
            return false;
        }
    }
    true
}

/// Whether a record already has everything that another record of its LRA says. It takes no memory.
pub(crate) fn has_all(own: &Record, heard: &Record) -> bool
    ensures { IsTrue result → merged_record own.now heard.now ≡ own.now }
{
    home_stamp(heard) <= home_stamp(own)
        && own.stamps.join(&heard.stamps) == own.stamps
        && all_stay(&own.members, &heard.members)
}

fn copied(kept: &Record) -> Result<Record, AllocError>
    ensures { IfOk result (λ copy. copy ≡ kept.now) }
{
    kept.clone()
}

impl Forest {
    /// Whether the own record of an LRA already has everything that another record of it says.
    fn knows(&self, heard: &Record) -> bool
        ensures { let own = found_at self.now.home self.now.records heard.now.num in
            IsTrue result → brought false own (Some heard.now) ≡ own }
    {
        match self.numbered(heard.num) {
            Some(own) => has_all(own, heard),
            None => false,
        }
    }

    #[tactic(auto, using(crate::proofs::TakenRecords::up_to, crate::proofs::TakenRecords::none_has))]
    fn add_lacking(&self, heard: &Record, news: &mut Forest) -> Result<(), AllocError>
        requires heard { heard.now.home ≡ self.now.home }
        requires home { news.old.home ≡ self.now.home }
        requires order { AreOf self.now.home news.old.records }
        requires last { AllByRecursion (λ q. q.num < heard.now.num) news.old.records }
        ensures home { OnOk result (news.new.home ≡ self.now.home) }
        ensures order { OnOk result (AreOf self.now.home news.new.records) }
        ensures last { OnOk result
            (AllByRecursion (λ q. q.num ≤ heard.now.num) news.new.records) }
        ensures told { OnOk result (IsTold (found_at self.now.home self.now.records heard.now.num)
            (Some heard.now) (found_at self.now.home news.new.records heard.now.num)) }
        ensures others { OnOk result ((num : ℕ) →
            (heard.now.num == num) ≡ false → found_at self.now.home news.new.records num
            ≡ found_at self.now.home news.old.records num) }
    {
        if self.knows(heard) {
            return Ok(());
        }
        news.push_last(copied(heard)?)?;
        Ok(())
    }

    /// Copies those of another node's records of the home that bring news, in order. A record
    /// brings none if merging it into the record here changes nothing. It looks up each of the
    /// other's records by binary search, and takes memory only for the copies.
    pub fn lacking(&self, alloc: Global, other: &Forest) -> Result<Forest, AllocError>
        requires { other.now.home ≡ self.now.home }
        ensures home { IfOk result (λ news. news.home ≡ self.now.home) }
        ensures order { IfOk result (λ news. AreOf self.now.home news.records) }
        ensures told { IfOk result (λ news. (num : ℕ) →
            IsTold (found_at self.now.home self.now.records num)
            (found_at self.now.home other.now.records num)
            (found_at self.now.home news.records num)) }
    {
        let mut news = Forest::new(alloc, self.home());
        for heard in other.records() {
            self.add_lacking(heard, &mut news)?;
        }
        Ok(news)
    }
}
