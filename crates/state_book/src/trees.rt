// What the tree of an LRA shows.
ghost use Rattle.std.specs.Prelude.{◌≡◌, is_some};
ghost use Rattle.state_forest.specs.Standing.{answered};
ghost use Rattle.theory_history.specs.Views.{record_at};
ghost use Rattle.state_replica.specs.Replicas.{view_of};
ghost use Rattle.state_book.specs.Trees.{tree_on, tree_shown_on};

use state_facts::Refusal;
use state_ids::{LraId, LraStatus};
use state_replica::Replica;

/// Returns what the tree of an LRA shows, if the LRA is held.
fn tree_held(replica: &Replica, id: LraId) -> Result<LraStatus, Refusal>
    ensures { let a = view_of replica.now in
        result ≡ answered (is_some (record_at a id)) (tree_on a id) }
{
    match replica.homes().get(usize::from(id.home().number()) - 1) {
        Some(home) => home.tree_status(id),
        None => Err(Refusal::NotHeld),
    }
}

/// Returns what the tree of an LRA shows, or the refusal to show it.
pub fn tree_shown(replica: &Replica, id: LraId) -> Result<LraStatus, Refusal>
    ensures { result ≡ tree_shown_on (view_of replica.now) id }
{
    if !replica.front().covers(id) {
        return Err(Refusal::UnknownLra);
    }
    tree_held(replica, id)
}

/// Returns what the tree of an LRA shows. If the LRA isn't held, that is Active, because nothing is
/// decided of it.
pub fn tree_of(replica: &Replica, id: LraId) -> LraStatus
    ensures { result ≡ tree_on (view_of replica.now) id }
{
    match tree_held(replica, id) {
        Ok(status) => status,
        Err(_) => LraStatus::Active,
    }
}
