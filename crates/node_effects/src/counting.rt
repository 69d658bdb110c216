// Makes the pull by which a node counts its facts.
ghost use Rattle.std.specs.Prelude.{◌≡◌, ◌≤◌, IfOk, replicate};
ghost use Rattle.state_ids.specs.declared.TheConstants.{LAST_NUMBER, MAX_NODES};
ghost use Rattle.wire_pulls.specs.PullBodies.{pull_body};

use state_ids::{Front, LAST_NUMBER, MAX_NODES};
use std::alloc::{AllocError, Global};
use wire_http::Bytes;
use wire_pulls::pull_body;

/// Makes the front that has all facts that there can be of each of `nodes` nodes.
fn front_of_all(nodes: u8) -> Front
    requires { (1 ≤ nodes) × (nodes ≤ MAX_NODES) }
    ensures { result ≡ replicate nodes LAST_NUMBER }
{
    let counts = [LAST_NUMBER; MAX_NODES as usize];
    Front::from_counts(&counts[..usize::from(nodes)])
}

/// Makes the body of a pull by a node that has all facts that there can be of `nodes` nodes. So the
/// answer only says how many facts there are. Errors: out of memory.
pub fn body_of_all(alloc: Global, nodes: u8) -> Result<Bytes, AllocError>
    requires { (1 ≤ nodes) × (nodes ≤ MAX_NODES) }
    ensures { IfOk result (λ body. body ≡ pull_body (replicate nodes LAST_NUMBER)) }
{
    let bytes = pull_body(alloc, &front_of_all(nodes))?;
    Ok(Bytes::new(bytes))
}
