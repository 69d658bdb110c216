// What a replica sends since a base, found by looking at each record.
ghost use Rattle.std.specs.Prelude.{◌≡◌, ◌⊎◌, ◌++◌, ◌∷◌, ◌<◌, [], ℕ, List, Err, true, IfErr, IfOk, OnOk, filter, if◌then◌else◌, length, map};
ghost use Rattle.std.specs.List.{AllByRecursion};
ghost use Rattle.state_ids.specs.Fronts.{IsBelow};
ghost use Rattle.state_facts.specs.declared.fact.Fact.{Fact};
ghost use Rattle.state_facts.specs.declared.refusal.Refusal.TheVariants.{Gap, NoMemory};
ghost use Rattle.theory_history.specs.Histories.{History, IsClosed, IsLawful, facts};
ghost use Rattle.theory_history.specs.Views.{StandsFor};
ghost use Rattle.state_replica.specs.Replicas.{view_of};
ghost use Rattle.wire_frames.specs.Frames.{IsFrame, frame_of, is_beyond};
ghost use Rattle.wire_frames.specs.Grammar.{IsOfGrammar};
ghost use Rattle.wire_frames.specs.Sending.{part_of, part_since};

use crate::Delta;
use crate::since::live_since;
use state_facts::Refusal;
use state_forest::{Forest, Record, Told};
use state_ids::Front;
use state_replica::Replica;
use std::alloc::{AllocError, Global};

fn is_beyond(base: &Front, kept: &Record) -> bool
    ensures { result ≡ is_beyond base.now kept.now.stamps }
{
    !kept.stamps.below(base)
}

fn push_newer(since: &mut Forest, kept: &Record, base: &Front) -> Result<(), AllocError>
    requires home { kept.now.home ≡ since.old.home }
    requires last { is_beyond base.now kept.now.stamps ≡ true →
        AllByRecursion (λ q. q.num < kept.now.num) since.old.records }
    ensures home { since.new.home ≡ since.old.home }
    ensures records { OnOk result (since.new.records ≡ (if is_beyond base.now
        kept.now.stamps then since.old.records ++ kept.now ∷ [] else since.old.records)) }
{
    if is_beyond(base, kept) {
        since.push_last(kept.clone()?)?;
    }
    Ok(())
}

fn records_since(alloc: Global, home: &Forest, base: &Front) -> Result<Forest, AllocError>
    ensures home { IfOk result (λ since. since.home ≡ home.now.home) }
    ensures records { IfOk result
        (λ since. since.records ≡ filter (λ r. is_beyond base.now r.stamps) home.now.records) }
{
    let mut since = Forest::new(alloc, home.home());
    for record in home.records() {
        push_newer(&mut since, record, base)?;
    }
    Ok(since)
}

/// Returns what is sent of a home since a base.
fn told_since(
    alloc: Global,
    home: &Forest,
    base: &Front,
    purges: &Front,
) -> Result<Told, AllocError>
    ensures { IfOk result (λ told. part_of told ≡ part_since base.now purges.now home.now) }
{
    let held = live_since(alloc, home, base, purges)?;
    let records = records_since(alloc, home, base)?;
    Ok(Told { records, held })
}

/// Returns what is sent of each home since a base.
fn homes_since(
    alloc: Global,
    homes: &[Forest],
    base: &Front,
    purges: &Front,
) -> Result<Vec<Told>, AllocError>
    ensures { IfOk result
        (λ told. map part_of told.items ≡ map (part_since base.now purges.now) homes.now) }
{
    let mut told = Vec::new(alloc);
    for home in homes {
        told.push(told_since(alloc, home, base, purges)?)?;
    }
    Ok(told)
}

/// Returns the same as `Delta::since`, by the same contract, but looks at each record. Tests
/// compare the two.
pub fn since_by_scan(alloc: Global, replica: &Replica, base: &Front) -> Result<Delta, Refusal>
    requires { length base.now ≡ length replica.now.front }
    ensures frame { IfOk result (λ delta. (delta ≡ frame_of (view_of replica.now) base.now)
        × IsBelow base.now replica.now.front) }
    ensures set { (S : List Fact) →
        StandsFor S (view_of replica.now) → IfOk result (λ delta. IsFrame S base.now delta) }
    ensures grammar { (h : History) (w : List ℕ) → IsLawful h → IsClosed h w →
        StandsFor (facts h w) (view_of replica.now) → IfOk result (λ delta. IsOfGrammar delta) }
    ensures gap { (IsBelow base.now replica.now.front → ⊥) →
        result ≡ Err (Gap replica.now.front) }
    ensures refused { IfErr result (λ refusal. (refusal ≡ NoMemory) ⊎
        ((refusal ≡ Gap replica.now.front) × (IsBelow base.now replica.now.front → ⊥))) }
{
    let front = replica.front();
    if !base.below(&front) {
        return Err(Refusal::Gap(front));
    }
    let homes = homes_since(alloc, replica.homes(), base, &replica.purges())?;
    Ok(Delta::telling(replica, base, homes))
}
