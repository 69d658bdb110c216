// What the threads of a node share besides its desk and its `Node`.

use crate::operators::calls::OperatorCalls;
use node_worker::Addressee;
use wire_api::Paths;

/// What the threads of a node share, from run to run: the table of paths, the name by which the
/// node is asked, and the place where operators ask for calls.
#[derive(Drop)]
pub struct Shared {
    pub paths: Paths,
    pub addressee: Addressee,
    pub errands: OperatorCalls,
}
