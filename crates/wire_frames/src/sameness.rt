// Whether two nodes send the same.
ghost use Rattle.std.specs.Prelude.{◌≡◌, ◌&&◌, length, map};
ghost use Rattle.std.specs.Cmp.Lexicographic.{pointwise};
ghost use Rattle.std.specs.Option.{option_eq};
ghost use Rattle.std.specs.Str.{bytes_eq};
ghost use Rattle.state_forest.specs.contracts.record.RecordPartialEq.TheImpl as of_records;
ghost use Rattle.state_forest.specs.RecordMerges.{held_numbers};
ghost use Rattle.wire_frames.specs.SameFrames.{same_frame, same_lives, same_records};

use crate::Delta;
use state_forest::{Forest, Told};

fn same_held(a: &Option<Vec<u64>>, b: &Option<Vec<u64>>) -> bool
    ensures { result ≡ option_eq bytes_eq (held_numbers a.now) (held_numbers b.now) }
{
    match (a, b) {
        (Some(a), Some(b)) => a.as_slice() == b.as_slice(),
        (None, None) => true,
        _ => false,
    }
}

fn same_lives(a: &[Told], b: &[Told]) -> bool
    requires { length a.now ≡ length b.now }
    ensures { result ≡ same_lives
        (map (λ told. held_numbers told.held) a.now) (map (λ told. held_numbers told.held) b.now) }
{
    for place in 0..a.len() {
        if !same_held(&a[place].held, &b[place].held) {
            return false;
        }
    }
    true
}

fn same_forest(a: &Forest, b: &Forest) -> bool
    ensures { result ≡ pointwise of_records.ghosts.eq a.now.records b.now.records }
{
    a.same_records(b)
}

fn same_records(a: &[Told], b: &[Told]) -> bool
    requires { length a.now ≡ length b.now }
    ensures { result ≡ same_records
        (map (λ told. told.records.records) a.now) (map (λ told. told.records.records) b.now) }
{
    for place in 0..a.len() {
        if !same_forest(&a[place].records, &b[place].records) {
            return false;
        }
    }
    true
}

fn same_homes(a: &[Told], b: &[Told]) -> bool
    ensures { result ≡ (same_lives (map (λ told. held_numbers told.held) a.now)
        (map (λ told. held_numbers told.held) b.now) && same_records
        (map (λ told. told.records.records) a.now) (map (λ told. told.records.records) b.now)) }
{
    if a.len() != b.len() {
        return false;
    }
    same_lives(a, b) && same_records(a, b)
}

impl Delta {
    /// Whether another delta has the same contents.
    pub fn same(&self, other: &Delta) -> bool
        ensures { result ≡ same_frame self.now other.now }
    {
        self.base == other.base
            && (self.front == other.front
                && (self.purges == other.purges && same_homes(&self.homes, &other.homes)))
    }
}
