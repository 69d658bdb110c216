// One proved call of each public function with a premise that no program meets. It shows that the
// premise can be met.
use state_facts::{Body, Fact, Links, plain};
use state_forest::Forest;
use state_ids::{Act, LraId, LraStatus, MemberStatus, NodeId, Verdict};
use state_replica::Replica;
use std::alloc::Global;
use std::test::Fail;
use wire_frames::laws::since_by_scan;

/// The facts of an LRA that is cancelled, with one participant.
fn cancelled(alloc: Global, node: NodeId, id: LraId) -> Result<Vec<Fact>, Fail> {
    let links = Links::read(alloc, None, Some("http://p/c"), None, None, None)?;
    let mut facts = Vec::new(alloc);
    for (num, body) in [
        (
            1,
            Body::Begin {
                parent: None,
                deadline: 0,
            },
        ),
        (
            2,
            Body::Join {
                id,
                member: 1,
                links,
            },
        ),
        (
            3,
            Body::Decide {
                id,
                verdict: Verdict::Cancel,
            },
        ),
    ] {
        facts.push(Fact {
            origin: node,
            num,
            body,
        })?;
    }
    Ok(facts)
}

#[test]
fn the_slow_evaluators_read_a_list_of_facts(rt: HostRuntime) -> Result<(), Fail> {
    let node = NodeId::new(1)?;
    let id = LraId::new(node, 1)?;
    let facts = cancelled(rt.alloc(), node, id)?;
    if !plain::are_in_order(&facts) {
        return Err("the facts are out of order")?;
    }
    let status = plain::status_of(&facts, id);
    let member = plain::member_of(&facts, id, 1);
    let depth = plain::depth_of(&facts, id);
    let demanded = plain::is_demanded(&facts, id, 1, Act::Compensate);
    assert_eq!(rt; status, Some(LraStatus::Cancelling));
    assert_eq!(rt; member, Some(MemberStatus::Compensating));
    assert_eq!(rt; depth, 1);
    assert!(rt; demanded);
    Ok(())
}

#[test]
fn records_are_made_of_a_list_of_facts(rt: HostRuntime) -> Result<(), Fail> {
    let node = NodeId::new(1)?;
    let id = LraId::new(node, 1)?;
    let facts = cancelled(rt.alloc(), node, id)?;
    if !plain::are_in_order(&facts) {
        return Err("the facts are out of order")?;
    }
    let forest = Forest::of_facts(rt.alloc(), &facts, node, 1)?;
    assert_eq!(rt; forest.status(id), Ok(LraStatus::Cancelling));
    Ok(())
}

#[test]
fn replicas_merge_and_tell_by_a_scan(rt: HostRuntime) -> Result<(), Fail> {
    let alloc = rt.alloc();
    let mut one = Replica::new(alloc, 2)?;
    let other = Replica::new(alloc, 2)?;
    if one.front().nodes() != other.front().nodes() {
        return Err("they count other nodes")?;
    }
    one.merge(alloc, &other)?;
    let base = one.front();
    let told = since_by_scan(alloc, &one, &base)?;
    assert_eq!(rt; told.base(), base);
    Ok(())
}
