// A law of whom a request is for: the function does nothing, and its contract is the law.
ghost use Rattle.std.specs.Prelude.{◌≡◌, ◌||◌, ◌==◌, ℕ, Bool, List, None, Option, IfSome, IsTrue, codes, is_some, not, true};
ghost use Rattle.state_ids.specs.Ids.{IsNodeNumber};
ghost use Rattle.wire_http.specs.declared.message.Request.{Request as TheRequest};
ghost use Rattle.wire_pulls.specs.Texts.{IsQuery, pull_target};
ghost use Rattle.node_worker.specs.Addressees.{is_misdirected, is_other_group, is_pull, query_by};
ghost use Rattle.wire_api.specs.Paths.{query_of};
ghost use Rattle.node_worker.specs.Groups.{is_group_name};
ghost use Rattle.node_worker.specs.declared.addressee.NodeName.{NodeName as TheName};

/// A pull from one node to another, and to a group or none, is misdirected exactly at the nodes
/// with other numbers and at those of other groups, whether it waits or not. A group with a name
/// differs from one without. The query of such a pull may stand in a pull. A pull that doesn't say
/// whom it means is misdirected at each node whose group has a name.
pub fn a_pull_to_another_node_is_misdirected()
    ensures exact { (node : TheName) (waits : Bool) (from to : ℕ) (group : Option (List ℕ)) (request : TheRequest) →
        IsNodeNumber node.me → IsNodeNumber from → IsNodeNumber to → IfSome group (λ name. IsTrue (is_group_name name)) →
        request.method ≡ codes "POST" → request.target ≡ pull_target (query_by waits from to group) →
        is_misdirected node request ≡ (not (to == node.me) || is_other_group node.group group) }
    ensures query { (waits : Bool) (from to : ℕ) (group : Option (List ℕ)) → IsNodeNumber from → IsNodeNumber to →
        IfSome group (λ name. IsTrue (is_group_name name)) → IsQuery (query_by waits from to group) }
    ensures unnamed { (node : TheName) (request : TheRequest) → is_pull request ≡ true → query_of request.target ≡ None →
        is_misdirected node request ≡ is_some node.group }
{}
