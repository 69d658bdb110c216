// What a replica sends since a base, found by its index of stamps.
ghost use Rattle.std.specs.Prelude.{◌≡◌, ◌⊎◌, ◌<◌, ℕ, List, Err, None, Some, IfErr, IfOk, OnOk, find, if◌then◌else◌, length, map, nat_lt};
ghost use Rattle.state_ids.specs.declared.TheConstants.{MAX_NODES};
ghost use Rattle.state_ids.specs.Fronts.{IsBelow, count};
ghost use Rattle.state_ids.specs.Ids.{Id, same_id};
ghost use Rattle.state_facts.specs.declared.fact.Fact.{Fact};
ghost use Rattle.state_facts.specs.declared.refusal.Refusal.TheVariants.{Gap, NoMemory};
ghost use Rattle.state_forest.specs.declared.record.Record.{Record};
ghost use Rattle.state_forest.specs.Forests.{AreOf, is_of};
ghost use Rattle.state_forest.specs.Places.{put_record};
ghost use Rattle.state_forest.specs.RecordMerges.{held_numbers};
ghost use Rattle.theory_history.specs.Histories.{History, IsClosed, IsLawful, facts};
ghost use Rattle.theory_history.specs.Views.{StandsFor};
ghost use Rattle.state_stamps.specs.Entries.{id_of};
ghost use Rattle.state_replica.specs.Replicas.{IsReplicaState, stamps_of, view_of};
ghost use Rattle.wire_frames.specs.Frames.{IsFrame, frame_of};
ghost use Rattle.wire_frames.specs.Grammar.{IsOfGrammar};
ghost use Rattle.wire_frames.specs.Sending.{part_of, part_since, part_without};
ghost use Rattle.wire_frames.specs.Telling.{AreHomes, AreTold, homes_told, is_listed, is_newer, is_newer_to, told_too};

use crate::Delta;
use state_facts::Refusal;
use state_forest::{Forest, Record, Told};
use state_ids::{Front, MAX_NODES, NodeId};
use state_replica::Replica;
use state_stamps::StampEntry;
use std::alloc::{AllocError, Global};

/// Returns the numbers of all LRAs that are held at a home, if it purged after the base.
pub(crate) fn live_since(
    alloc: Global,
    home: &Forest,
    base: &Front,
    purges: &Front,
) -> Result<Option<Vec<u64>>, AllocError>
    ensures { IfOk result (λ held. held_numbers held
        ≡ (if nat_lt (count base.now home.now.home) (count purges.now home.now.home) then Some
        (map (λ (r : Record). r.num) home.now.records) else None)) }
{
    if base.count(home.home()) < purges.count(home.home()) {
        Ok(Some(home.numbers(alloc)?))
    } else {
        Ok(None)
    }
}

/// Returns what is sent of a home, except for its records.
fn told_without(
    alloc: Global,
    home: &Forest,
    base: &Front,
    purges: &Front,
) -> Result<Told, AllocError>
    ensures { IfOk result (λ told. part_of told ≡ part_without base.now purges.now home.now) }
{
    let held = live_since(alloc, home, base, purges)?;
    Ok(Told {
        records: Forest::new(alloc, home.home()),
        held,
    })
}

fn homes_without(
    alloc: Global,
    homes: &[Forest],
    base: &Front,
    purges: &Front,
) -> Result<Vec<Told>, AllocError>
    ensures { IfOk result
        (λ told. map part_of told.items ≡ map (part_without base.now purges.now) homes.now) }
{
    let mut told = Vec::new(alloc);
    for home in homes {
        told.push(told_without(alloc, home, base, purges)?)?;
    }
    Ok(told)
}

fn put_copy(told: &mut Forest, kept: &Record) -> Result<(), AllocError>
    requires { kept.now.home ≡ told.old.home }
    ensures home { OnOk result (told.new.home ≡ told.old.home) }
    ensures records { OnOk result (told.new.records ≡ put_record kept.now told.old.records) }
{
    told.reserve(1)?;
    told.put(kept.clone()?);
    Ok(())
}

/// Adds a copy of the record of the LRA with a number, if the home has it and it was not added yet.
fn tell_number(told: &mut Forest, home: &Forest, num: u64) -> Result<(), AllocError>
    requires home { told.old.home ≡ home.now.home }
    requires order { AreOf told.old.home told.old.records }
    ensures home { OnOk result (told.new.home ≡ told.old.home) }
    ensures order { OnOk result (AreOf told.new.home told.new.records) }
    ensures found { let id : Id = record { home = home.now.home; num = num }
        in OnOk result ((l : Id) → find (is_of l) told.new.records ≡ told_too (same_id id l)
        (find (is_of l) home.now.records) (find (is_of l) told.old.records)) }
{
    if let Some(_) = told.numbered(num) {
        return Ok(());
    }
    let Some(kept) = home.numbered(num) else {
        return Ok(());
    };
    put_copy(told, kept)
}

/// Adds the record of the LRA of an entry.
fn tell_entry(told: &mut Vec<Told>, homes: &[Forest], entry: &StampEntry) -> Result<(), AllocError>
    requires told { AreHomes (length homes.now) (homes_told told.old.items) }
    requires homes { AreHomes (length homes.now) homes.now }
    ensures { OnOk result
        (AreTold (same_id (id_of entry.now)) homes.now told.old.items told.new.items) }
{
    let place = usize::from(entry.home.number()) - 1;
    if place >= homes.len() {
        return Ok(());
    }
    tell_number(&mut told[place].records, &homes[place], entry.num)
}

fn tell_each(
    told: &mut Vec<Told>,
    homes: &[Forest],
    entries: &[StampEntry],
) -> Result<(), AllocError>
    requires told { AreHomes (length homes.now) (homes_told told.old.items) }
    requires homes { AreHomes (length homes.now) homes.now }
    ensures { OnOk result
        (AreTold (is_listed entries.now) homes.now told.old.items told.new.items) }
{
    for entry in entries {
        tell_entry(told, homes, entry)?;
    }
    Ok(())
}

/// Adds the records that have a stamp of this node beyond the base.
fn tell_beyond(
    told: &mut Vec<Told>,
    replica: &Replica,
    origin: NodeId,
    base: &Front,
) -> Result<(), AllocError>
    requires { AreHomes (length replica.now.homes) (homes_told told.old.items) }
    ensures { OnOk result (AreTold
        (λ l. is_newer base.now (stamps_of (view_of replica.now) l) origin)
        replica.now.homes told.old.items told.new.items) }
{
    let entries = replica.beyond(origin, base.count(origin));
    tell_each(told, replica.homes(), entries)
}

/// Adds the records that have a stamp of any node beyond the base.
fn tell_all(told: &mut Vec<Told>, replica: &Replica, base: &Front) -> Result<(), AllocError>
    requires { AreHomes (length replica.now.homes) (homes_told told.old.items) }
    ensures { OnOk result (AreTold
        (λ l. is_newer_to MAX_NODES base.now (stamps_of (view_of replica.now) l))
        replica.now.homes told.old.items told.new.items) }
{
    for place in 0..MAX_NODES {
        let Ok(origin) = NodeId::new(place + 1) else {
            unreachable!();
        };
        tell_beyond(told, replica, origin, base)?;
    }
    Ok(())
}

/// Returns what is sent of each home since a base.
fn homes_since(
    alloc: Global,
    replica: &Replica,
    base: &Front,
    purges: &Front,
) -> Result<Vec<Told>, AllocError>
    ensures parts { IfOk result (λ told.
        map part_of told.items ≡ map (part_since base.now purges.now) replica.now.homes) }
    ensures state { IsReplicaState replica.now }
{
    let mut told = homes_without(alloc, replica.homes(), base, purges)?;
    tell_all(&mut told, replica, base)?;
    Ok(told)
}

impl Delta {
    /// Returns what a replica sends, if this is sent of each home.
    pub(crate) fn telling(replica: &Replica, base: &Front, homes: Vec<Told>) -> Delta
        requires nodes { length base.now ≡ length replica.now.front }
        requires below { IsBelow base.now replica.now.front }
        requires state { IsReplicaState replica.now }
        requires parts { map part_of homes.items
            ≡ map (part_since base.now replica.now.purges) replica.now.homes }
        ensures frame { result ≡ frame_of (view_of replica.now) base.now }
        ensures set { (S : List Fact) →
            StandsFor S (view_of replica.now) → IsFrame S base.now result }
        ensures grammar { (h : History) (w : List ℕ) → IsLawful h → IsClosed h w →
            StandsFor (facts h w) (view_of replica.now) → IsOfGrammar result }
    {
        let front = replica.front();
        let purges = replica.purges();
        Delta::new(*base, front, purges, homes)
    }

    /// Returns what a replica sends another that has the facts counted by a base of as many nodes:
    /// its front and last purges, the records that have a stamp beyond the base, and for each home
    /// that purged after the base the numbers of all LRAs that it holds there. E15 with the
    /// replica's front if the base is not below it. It finds each node's stamps beyond the base by
    /// binary search, looks up the record of each such stamp, and copies it once. It looks at no
    /// other record, except those of a home whose numbers it sends.
    pub fn since(alloc: Global, replica: &Replica, base: &Front) -> Result<Delta, Refusal>
        requires { length base.now ≡ length replica.now.front }
        ensures frame { IfOk result (λ delta. (delta ≡ frame_of (view_of replica.now) base.now)
            × IsBelow base.now replica.now.front) }
        ensures set { (S : List Fact) →
            StandsFor S (view_of replica.now) → IfOk result (λ delta. IsFrame S base.now delta) }
        // What a node of a lawful history sends keeps the rules of frames.
        ensures grammar { (h : History) (w : List ℕ) → IsLawful h → IsClosed h w →
            StandsFor (facts h w) (view_of replica.now) → IfOk result (λ delta. IsOfGrammar delta) }
        ensures gap { (IsBelow base.now replica.now.front → ⊥) →
            result ≡ Err (Gap replica.now.front) }
        ensures refused { IfErr result (λ refusal. (refusal ≡ NoMemory) ⊎
            ((refusal ≡ Gap replica.now.front) × (IsBelow base.now replica.now.front → ⊥))) }
    {
        let front = replica.front();
        if !base.below(&front) {
            return Err(Refusal::Gap(front));
        }
        let homes = homes_since(alloc, replica, base, &replica.purges())?;
        Ok(Delta::telling(replica, base, homes))
    }
}
