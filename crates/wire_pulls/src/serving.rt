// Answers a node that asks.
ghost use Rattle.std.specs.Prelude.{◌≡◌, ◌⊎◌, ℕ, List, Ok, IfErr, IfOk, length};
ghost use Rattle.state_ids.specs.Fronts.{meet_fronts};
ghost use Rattle.state_facts.specs.declared.fact.Fact.{Fact};
ghost use Rattle.state_facts.specs.declared.refusal.Refusal.TheVariants.{BadFrame, NoMemory};
ghost use Rattle.theory_history.specs.Histories.{History, IsClosed, IsLawful, facts};
ghost use Rattle.state_replica.specs.Replicas.{view_of};
ghost use Rattle.theory_history.specs.Views.{StandsFor};
ghost use Rattle.wire_frames.specs.Frames.{IsFrame};
ghost use Rattle.wire_frames.specs.Grammar.{IsOfGrammar};
ghost use Rattle.wire_pulls.specs.PullBodies.{IsAsked, asked, pull_body};
ghost use Rattle.wire_pulls.specs.Serving.{Serves};

use crate::bodies::front_of_pull;
use state_facts::Refusal;
use state_ids::Front;
use state_replica::Replica;
use std::alloc::Global;
use wire_frames::Delta;

/// Returns the delta since what the replica and an asker's front, of as many nodes, both count.
#[tactic(auto, using(crate::proofs::Meets::meet_nodes))]
fn since_both(alloc: Global, replica: &Replica, front: &Front) -> Result<Delta, Refusal>
    requires { length front.now ≡ length replica.now.front }
    ensures exact { Serves (view_of replica.now) (Ok front.now) result }
    ensures set { (S : List Fact) → StandsFor S (view_of replica.now) →
        IfOk result (λ delta. IsFrame S (meet_fronts front.now replica.now.front) delta) }
    ensures grammar { (h : History) (w : List ℕ) → IsLawful h → IsClosed h w →
        StandsFor (facts h w) (view_of replica.now) → IfOk result (λ delta. IsOfGrammar delta) }
{
    let own = replica.front();
    let base = front.meet(&own);
    Delta::since(alloc, replica, &base)
}

/// Answers the body of a pull with the frame since what both this node's front and the asker's
/// count. So there is never a gap, and the asker already has everything that the frame leaves out.
/// E16 at the place of the body's first fault: at 0 if it counts another number of nodes, at 1 if
/// its front isn't whole or has a count of more than 48 bits, and just past the front if bytes are
/// left over. It costs what `Delta::since` costs.
pub fn serve_pull(alloc: Global, body: &[u8], replica: &Replica) -> Result<Delta, Refusal>
    // Which frame, or which place, the result is.
    ensures exact { Serves
        (view_of replica.now) (asked (length replica.now.front) body.now) result }
    // A body that encodes a front is served.
    ensures encoded { (front : List ℕ) → IsAsked (length replica.now.front) front →
        body.now ≡ pull_body front → Serves (view_of replica.now) (Ok front) result }
    // A refusal is never a gap.
    ensures cause { IfErr result (λ refusal. (refusal ≡ NoMemory)
        ⊎ ((place : ℕ) × (refusal ≡ BadFrame place))) }
    ensures set { (S : List Fact) (front : List ℕ) →
        StandsFor S (view_of replica.now) → asked (length replica.now.front) body.now ≡ Ok front →
        IfOk result (λ delta. IsFrame S (meet_fronts front replica.now.front) delta) }
    // What a node of a lawful history sends keeps the rules of frames.
    ensures grammar { (h : History) (w : List ℕ) → IsLawful h → IsClosed h w →
        StandsFor (facts h w) (view_of replica.now) → IfOk result (λ delta. IsOfGrammar delta) }
{
    let front = front_of_pull(replica.front().nodes(), body)?;
    since_both(alloc, replica, &front)
}
