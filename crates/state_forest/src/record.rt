// The record of one LRA: everything that a node knows of it.
ghost use Rattle.std.specs.Prelude.{◌≡◌, ◌<◌, ◌≤◌, ◌-◌, ◌++◌, ◌∷◌, [], Some, length, slice_get, slice_set, OnOk, OnErr};
ghost use Rattle.std.specs.Option.{option_copied};
ghost use Rattle.state_forest.specs.declared.record.TheConstants.{MAX_MEMBERS};
ghost use Rattle.state_forest.specs.MembersByNumber.{numbered};

use state_facts::Links;
use state_ids::{Front, NodeId, Outcome, Verdict};
use std::alloc::{AllocError, Global};
use std::marker::Model;
use std::mem;

/// The greatest number of members of an LRA.
pub const MAX_MEMBERS: usize = 32;

/// The place where an LRA is nested: its parent's number at the home that they share, and its own
/// member number there.
#[derive(Clone, Copy, Debug, PartialEq, Eq)]
pub struct Place {
    pub number: u64,
    pub slot: u8,
}

/// A participant: its links, the greatest outcome that was heard of each act, and whether it was
/// told to forget and told that its LRA has ended.
#[derive(Clone, Debug, PartialEq, Drop)]
pub struct Participant {
    pub links: Links,
    pub completed: Option<Outcome>,
    pub compensated: Option<Outcome>,
    pub forgotten: bool,
    pub told: bool,
}

/// The holder of a member number: an LRA that is nested here, by its number, or a participant, or
/// one that left.
#[derive(Clone, Debug, PartialEq, Drop)]
pub enum Member {
    Nested(u64),
    Participant(Participant),
    Left,
}

/// The members of an LRA in order of their numbers, of which there are at most 32. Numbers go from
/// 1 and are never given twice.
#[derive(Debug, Drop)]
pub struct Members {
    list: Vec<Member>,
}

impl Model for Members {
    ghost use Rattle.std.specs.Prelude.{List, length, ◌≤◌};
    ghost use Rattle.state_forest.specs.declared.record.TheConstants.{MAX_MEMBERS};
    ghost use Rattle.state_forest.specs.declared.record.Member.{Member};

    ghost Value = { List Member };

    ghost view = { λ m. m.list.items };

    ghost invariant = { λ m. length m.list.items ≤ MAX_MEMBERS };
}

/// Everything that is known of one LRA. The stamps have, for each node, the greatest number of that
/// node's facts about the LRA.
#[derive(Clone, Debug, PartialEq, Drop)]
pub struct Record {
    pub home: NodeId,
    pub num: u64,
    pub parent: Option<Place>,
    pub deadline: u64,
    pub decision: Option<Verdict>,
    pub stamps: Front,
    pub members: Members,
}

impl Members {
    /// Makes an empty list of members.
    pub fn new(alloc: Global) -> Members
        ensures { result ≡ [] }
    {
        Members {
            list: Vec::new(alloc),
        }
    }

    /// Makes these the members, in order of their numbers.
    pub fn from_vec(list: Vec<Member>) -> Members
        requires { length list.items ≤ MAX_MEMBERS }
        ensures { result ≡ list.items }
    {
        Members { list }
    }

    /// Returns how many member numbers were given.
    pub fn len(&self) -> usize
        ensures { result ≡ length self.now }
    {
        self.list.len()
    }

    /// Returns the members in order of their numbers.
    pub fn as_slice(&self) -> &[Member]
        ensures members { result.now ≡ self.now }
        ensures few { length result.now ≤ MAX_MEMBERS }
    {
        &self.list
    }

    /// Returns the member with this number.
    pub fn get(&self, number: u8) -> Option<&Member>
        ensures { option_copied result ≡ numbered self.now number }
    {
        if number == 0 {
            return None;
        }
        self.list.get(usize::from(number) - 1)
    }

    /// Changes the member with this number.
    pub fn set(&mut self, number: u8, member: Member)
        requires some { 1 ≤ number }
        requires given { number ≤ length self.old }
        ensures { self.new ≡ slice_set self.old (number - 1) member }
    {
        self.list[usize::from(number) - 1] = member;
    }

    /// Changes the member with this number, and returns the old one.
    pub fn exchange(&mut self, number: u8, member: Member) -> Member
        requires some { 1 ≤ number }
        requires given { number ≤ length self.old }
        ensures changed { self.new ≡ slice_set self.old (number - 1) member }
        ensures back { slice_get self.old (number - 1) ≡ Some result }
    {
        mem::replace(&mut self.list[usize::from(number) - 1], member)
    }

    /// Adds a member with the next number.
    pub fn push(&mut self, member: Member) -> Result<(), AllocError>
        requires { length self.old < MAX_MEMBERS }
        ensures ok { OnOk result (self.new ≡ self.old ++ member ∷ []) }
        ensures err { OnErr result (self.new ≡ self.old) }
    {
        match self.list.push(member) {
            Ok(()) => Ok(()),
            Err(_) => Err(AllocError),
        }
    }
}

impl PartialEq for Members {
    ghost use Rattle.std.specs.Cmp.Lexicographic.{lists_per, pointwise};
    ghost use Rattle.state_forest.specs.contracts.record.MemberPartialEq.TheImpl as of_members;
    ghost use Rattle.state_forest.specs.contracts.record.MemberPartialEq.TheImpl.Laws.{laws-law};

    ghost eq = { pointwise of_members.ghosts.eq };

    ghost laws = { lists_per laws-law };

    fn eq(&self, other: &Members) -> bool {
        self.list == other.list
    }
}

impl Clone for Members {
    ghost use Rattle.std.specs.Prelude.{◌≡◌};

    ghost is_clone = { λ x y. y ≡ x };

    fn clone(&self) -> Result<Members, AllocError> {
        Ok(Members {
            list: self.list.clone()?,
        })
    }
}
