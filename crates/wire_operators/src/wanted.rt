// Finds out what a request at an operator's port wants.
ghost use Rattle.std.specs.Prelude.{◌≡◌};
ghost use Rattle.std.specs.Option.{option_copied};
ghost use Rattle.wire_operators.specs.Wanted.{forgot_of, is_of_member, last_word, list_of, record_of, told_of, wanted, wanted_by_get, wanted_by_put, wanted_of_lra};

use crate::Filter;
use crate::filter::filter_in;
use state_ids::LraId;
use wire_api::{
    Endpoint, Paths, TableMethod, id_of, id_part, member_of, member_part, method_of, part_of,
    path_of, query_of, rest_of,
};
use wire_http::Request;

/// A topic that is answered without a call.
#[derive(Clone, Copy, Debug, PartialEq, Eq)]
pub enum Topic {
    /// `GET /`: the page.
    Page,
    /// `GET /health`: that the node is alive.
    Health,
    /// `GET /ready`: whether it accepts commands.
    Ready,
    /// `GET /metrics`: its counts.
    Metrics,
    /// `GET /calls`: the participants whose calls fail.
    Calls,
}

/// What a request at an operator's port wants.
#[derive(Clone, Copy, Debug, PartialEq, Eq)]
pub enum Wanted {
    /// What the threads of the node know about this topic, or the page.
    Tell(Topic),
    /// `GET /lras`, `GET /roots`: a list of LRAs.
    List(Filter),
    /// `GET /lra/{id}`: everything that is held of an LRA.
    Record(LraId),
    /// `PUT /lra/{id}/member/{m}/forgot`: records on behalf of a participant that it forgot.
    Forgot(LraId, u8),
    /// `PUT /lra/{id}/member/{m}/told`: records that a participant was notified of the end.
    Told(LraId, u8),
    /// An id, a number or a query of one of these breaks its grammar.
    Broken,
    /// A path of the interface, or an unknown one.
    Other,
}

/// Returns the list that a query asks for.
fn list_of(query: Option<&str>, is_of_roots: bool) -> Wanted
    ensures { result ≡ list_of (option_copied query.entry) is_of_roots }
{
    match filter_in(query, is_of_roots) {
        Some(filter) => Wanted::List(filter),
        None => Wanted::Broken,
    }
}

fn record_of(path: &str) -> Wanted
    ensures { result ≡ record_of path.now }
{
    match id_of(id_part(path)) {
        Some(id) => Wanted::Record(id),
        None => Wanted::Broken,
    }
}

/// Returns the record of an LRA, if the path leads to one.
fn wanted_of_lra(paths: &Paths, path: &str) -> Wanted
    ensures { result ≡ wanted_of_lra path.now }
{
    match paths.endpoint_of(path) {
        Some(Endpoint::Lra) => record_of(path),
        _ => Wanted::Other,
    }
}

fn wanted_by_get(paths: &Paths, path: &str, query: Option<&str>) -> Wanted
    ensures { result ≡ wanted_by_get path.now (option_copied query.entry) }
{
    match path {
        "/" => Wanted::Tell(Topic::Page),
        "/health" => Wanted::Tell(Topic::Health),
        "/ready" => Wanted::Tell(Topic::Ready),
        "/metrics" => Wanted::Tell(Topic::Metrics),
        "/calls" => Wanted::Tell(Topic::Calls),
        "/lras" => list_of(query, false),
        "/roots" => list_of(query, true),
        _ => wanted_of_lra(paths, path),
    }
}

fn forgot_of(path: &str) -> Wanted
    ensures { result ≡ forgot_of path.now }
{
    match (id_of(id_part(path)), member_of(member_part(path))) {
        (Some(id), Some(member)) => Wanted::Forgot(id, member),
        _ => Wanted::Broken,
    }
}

fn told_of(path: &str) -> Wanted
    ensures { result ≡ told_of path.now }
{
    match (id_of(id_part(path)), member_of(member_part(path))) {
        (Some(id), Some(member)) => Wanted::Told(id, member),
        _ => Wanted::Broken,
    }
}

/// Whether a path is `/lra/ID/member/..`.
fn is_of_member(path: &str) -> bool
    ensures { result ≡ is_of_member path.now }
{
    let behind = rest_of(path);
    part_of(path).is_empty()
        && part_of(behind) == "lra"
        && part_of(rest_of(rest_of(behind))) == "member"
}

/// Returns what stands behind the number of a member.
fn last_word(path: &str) -> &str
    ensures { result.now ≡ last_word path.now }
{
    rest_of(rest_of(rest_of(rest_of(rest_of(path)))))
}

fn wanted_by_put(path: &str) -> Wanted
    ensures { result ≡ wanted_by_put path.now }
{
    if !is_of_member(path) {
        return Wanted::Other;
    }
    match last_word(path) {
        "forgot" => forgot_of(path),
        "told" => told_of(path),
        _ => Wanted::Other,
    }
}

/// Returns what a request wants: one of the operator's own paths by its own method, otherwise what
/// the interface offers.
pub fn wanted_by(paths: &Paths, request: &Request) -> Wanted
    ensures { result ≡ wanted request.now }
{
    let target = request.target.as_str();
    let path = path_of(target);
    match method_of(&request.method) {
        TableMethod::Get => wanted_by_get(paths, path, query_of(target)),
        TableMethod::Put => wanted_by_put(path),
        _ => Wanted::Other,
    }
}
