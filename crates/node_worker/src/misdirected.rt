// Recognizes pulls that are meant for another node than the one that reads them.
ghost use Rattle.std.specs.Prelude.{◌≡◌, Some};
ghost use Rattle.std.specs.Char.{is_ascii_digit};
ghost use Rattle.std.specs.List.{list_all};
ghost use Rattle.std.specs.Option.{option_copied};
ghost use Rattle.node_worker.specs.Addressees.{are_other, asks_other, behind_first, group_in, is_misdirected, is_number, is_other_group, is_other_number, is_pull, names_other, number_in, past_asker};

use crate::{GroupName, NodeName, is_group_name};
use state_ids::NodeId;
use wire_api::{path_of, query_of};
use wire_http::Request;

fn are_digits(bytes: &[u8]) -> bool
    ensures { result ≡ list_all is_ascii_digit bytes.now }
{
    bytes.iter().all(|byte| byte.is_ascii_digit())
}

/// Whether a text is a number from 1 on, in decimal without leading zeros.
fn is_number(text: &str) -> bool
    ensures { result ≡ is_number text.now }
{
    match text.as_bytes().split_first() {
        Some((first, rest)) => {
            if *first < b'1' || *first > b'9' {
                return false;
            }
            are_digits(rest)
        }
        None => false,
    }
}

/// Returns the number behind `to=`.
fn number_in(text: &str) -> Option<&str>
    ensures { option_copied result ≡ number_in text.now }
{
    let Some(number) = text.strip_prefix("to=") else {
        return None;
    };
    if is_number(number) {
        Some(number)
    } else {
        None
    }
}

/// Returns the name behind `group=`.
fn group_in(text: &str) -> Option<&str>
    ensures { option_copied result ≡ group_in text.now }
{
    let Some(group) = text.strip_prefix("group=") else {
        return None;
    };
    if is_group_name(group) {
        Some(group)
    } else {
        None
    }
}

/// Whether this is the number of another node.
fn is_other_number(me: NodeId, number: &str) -> bool
    ensures { result ≡ is_other_number me number.now }
{
    let own = [b'0' + me.number()];
    number.as_bytes() != own.as_slice()
}

/// Whether this is another group than the node's own: each group with a name is, unless it has the
/// name of the node's own.
fn is_another(own: &Option<GroupName>, group: &str) -> bool
    ensures { result ≡ is_other_group own.now (Some group.now) }
{
    match own {
        Some(own) => own.as_str() != group,
        None => true,
    }
}

/// Whether a pull that names this group, or none, means another group than the node's.
fn is_other_group(own: &Option<GroupName>, group: Option<&str>) -> bool
    ensures { result ≡ is_other_group own.now (option_copied group.entry) }
{
    match group {
        Some(group) => is_another(own, group),
        None => own.is_some(),
    }
}

fn are_other(node: &NodeName, number: Option<&str>, group: Option<&str>) -> bool
    ensures { result ≡ are_other node.now (option_copied number.entry) (option_copied group.entry) }
{
    match number {
        Some(number) => is_other_number(node.me, number) || is_other_group(&node.group, group),
        None => node.group.is_some(),
    }
}

/// Whether a query names another node or group, or names no group though the node's has a name.
fn names_other(node: &NodeName, query: &str) -> bool
    ensures { result ≡ names_other node.now query.now }
{
    match query.split_once('&') {
        Some((first, second)) => are_other(node, number_in(first), group_in(second)),
        None => are_other(node, number_in(query), None),
    }
}

/// Returns what comes behind the first `&` of a query.
fn behind_first(query: &str) -> &str
    ensures { result.now ≡ behind_first query.now }
{
    match query.split_once('&') {
        Some((_first, rest)) => rest,
        None => query,
    }
}

/// Returns what a query says behind the part that says who asks, if it begins with that part.
fn past_asker(query: &str) -> &str
    ensures { result.now ≡ past_asker query.now }
{
    if query.starts_with("from=") || query.starts_with("wait=") {
        behind_first(query)
    } else {
        query
    }
}

/// Whether a query, if there is one, means another node: it names another node or group, or names no
/// group though the node's has a name.
pub(crate) fn asks_other(node: &NodeName, query: Option<&str>) -> bool
    ensures { result ≡ asks_other node.now (option_copied query.entry) }
{
    match query {
        Some(query) => names_other(node, past_asker(query)),
        None => node.group.is_some(),
    }
}

fn is_pull(request: &Request) -> bool
    ensures { result ≡ is_pull request.now }
{
    request.method.as_str() == "POST" && path_of(request.target.as_str()) == "/peer/pull"
}

/// Whether a request is a pull that is meant for another node.
pub(crate) fn is_misdirected(node: &NodeName, request: &Request) -> bool
    ensures { result ≡ is_misdirected node.now request.now }
{
    if !is_pull(request) {
        return false;
    }
    asks_other(node, query_of(request.target.as_str()))
}
