// The tree of a root.
use state_ids::{LraId, NodeId};
use state_replica::Replica;
use std::alloc::Global;
use std::test::Fail;

/// Lets node 1 begin an LRA, which is kept.
fn begin(
    alloc: Global,
    replica: &mut Replica,
    me: NodeId,
    parent: Option<LraId>,
) -> Result<(), Fail> {
    if usize::from(me.number()) > replica.front().nodes() {
        return Err("there is no such node")?;
    }
    if let Some(patch) = replica.begin(alloc, me, parent, 0)?.patch {
        replica.apply(patch);
    }
    Ok(())
}

#[test]
fn a_root_and_what_is_nested_in_it_are_its_tree(rt: HostRuntime) -> Result<(), Fail> {
    let alloc = rt.alloc();
    let me = NodeId::new(1)?;
    let (root, nested) = (LraId::new(me, 1)?, LraId::new(me, 2)?);
    let mut replica = Replica::new(alloc, 1)?;
    begin(alloc, &mut replica, me, None)?;
    begin(alloc, &mut replica, me, Some(root))?;
    begin(alloc, &mut replica, me, None)?;
    let Some(home) = replica.homes().first() else {
        return Err("there is no home")?;
    };
    if home.home() != root.home() {
        return Err("it is another home")?;
    }
    let tree = home.tree(alloc, root)?;
    assert_eq!(rt; tree.as_slice(), [root, nested].as_slice());
    Ok(())
}
