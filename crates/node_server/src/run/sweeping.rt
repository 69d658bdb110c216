// Purges of trees whose roots have ended, one call at a time.
ghost use Rattle.state_book.specs.declared.calls.Call.TheVariants.{Survey as AskSurvey, Sweep as AskSweep};
ghost use Rattle.node_server.specs.Entering.{DoesChore, IsMade};

use node_agenda::{Chore, Ripe};
use node_effects::purged_by;
use node_sockets::unix_millis;
use node_threads::Node;
use state_book::{Call, Clerk, Reply};
use state_facts::Refusal;
use state_ids::LraId;
use std::alloc::Global;
use std::sync::Wait;
use std::time::Clock;

/// Records what a page shows.
fn note<R: Wait + Clock>(rt: &R, node: &Node, reply: &Reply) {
    if let Reply::Surveyed(survey) = reply {
        for row in survey.rows() {
            node.core.see(rt, row.id, row.status, row.tree);
        }
        node.core.turn(rt, survey.more());
    }
}

/// Lists the LRAs beyond one.
fn list<R: Wait + Clock, C: Clerk>(
    rt: &R,
    alloc: Global,
    node: &Node,
    clerk: &mut C,
    beyond: Option<LraId>,
) -> Result<(), Refusal>
    ensures { IsMade C.Clerk clerk.old clerk.new (AskSurvey beyond) result }
{
    clerk.call(alloc, Call::Survey(beyond), unix_millis(rt))?;
    note(rt, node, clerk.reply());
    Ok(())
}

/// Purges the tree of a root, if it still shows what it showed for as long as it was kept.
fn purge<R: Wait + Clock, C: Clerk>(
    rt: &R,
    alloc: Global,
    node: &Node,
    clerk: &mut C,
    ripe: &Ripe,
) -> Result<(), Refusal>
    ensures { IsMade C.Clerk clerk.old clerk.new (AskSweep ripe.now.root ripe.now.seen) result }
{
    let call = Call::Sweep {
        root: ripe.root(),
        seen: ripe.seen(),
    };
    clerk.call(alloc, call, unix_millis(rt))?;
    node.counts.sweep(rt, purged_by(clerk.reply()));
    node.core.purged(rt, ripe.root(), purged_by(clerk.reply()));
    Ok(())
}

/// Does a chore of the sweep of a node's home.
pub fn sweep<R: Wait + Clock, C: Clerk>(
    rt: &R,
    alloc: Global,
    node: &Node,
    clerk: &mut C,
    chore: Chore,
) -> Result<(), Refusal>
    ensures { DoesChore C.Clerk clerk.old clerk.new chore result }
{
    match chore {
        Chore::List(beyond) => list(rt, alloc, node, clerk, beyond),
        Chore::Purge(ripe) => purge(rt, alloc, node, clerk, &ripe),
    }
}
