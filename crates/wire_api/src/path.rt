// Where paths lead, and what their parts are.
ghost use Rattle.std.specs.Prelude.{◌≡◌, IfErr, IfOk};
ghost use Rattle.std.specs.Option.{option_copied};
ghost use Rattle.matchit.specs.Seek.{first};
ghost use Rattle.wire_api.specs.Paths.{part_of, paths, rest_of};
ghost use Rattle.wire_api.specs.Paths as spec;

use crate::table::Endpoint;
use matchit::{InsertError, Router};
use std::alloc::{AllocError, Global};

/// Makes the routes of the table. Only memory can be lacking: no route conflicts with another.
fn routes(alloc: Global) -> Result<Router<Endpoint>, InsertError>
    ensures ok { IfOk result (λ router. router ≡ paths) }
    ensures err { IfErr result (λ e. e ≡ InsertError.OutOfMemory) }
{
    let mut router = Router::new(alloc);
    router.insert("/peer/pull", Endpoint::Pull)?;
    router.insert("/lra", Endpoint::Lras)?;
    router.insert("/lra/{id}", Endpoint::Lra)?;
    router.insert("/lra/{id}/member/{m}", Endpoint::Member)?;
    router.insert("/lra/{id}/member/{m}/report", Endpoint::Report)?;
    router.insert("/lra/{id}/member/{m}/leave", Endpoint::Leave)?;
    router.insert("/lra/{id}/join", Endpoint::Join)?;
    router.insert("/lra/{id}/close", Endpoint::Close)?;
    router.insert("/lra/{id}/cancel", Endpoint::Cancel)?;
    Ok(router)
}

fn endpoint_in(router: &Router<Endpoint>, path: &str) -> Option<Endpoint>
    ensures { result ≡ spec.value_of (first router.now path.now) }
{
    match router.at(path) {
        Ok(found) => Some(*found.value),
        Err(_) => None,
    }
}

/// The table of paths. It is made once, and looked up for each request.
#[derive(Drop)]
pub struct Paths {
    router: Router<Endpoint>,
    ghost made: { router ≡ paths },
}

impl Paths {
    /// Makes the table. Errors: memory was refused.
    pub fn new(alloc: Global) -> Result<Self, AllocError> {
        match routes(alloc) {
            Ok(router) => Ok(Paths { router }),
            Err(_) => Err(AllocError),
        }
    }

    /// Returns where a path leads, if it is in the table.
    #[tactic(auto, unfolding(crate::specs::Paths::endpoint_of))]
    pub fn endpoint_of(&self, path: &str) -> Option<Endpoint>
        ensures { result ≡ spec.endpoint_of path.now }
    {
        endpoint_in(&self.router, path)
    }
}

/// Returns what stands before the first slash of a path; all of it if there is none.
pub fn part_of(path: &str) -> &str
    ensures { result.now ≡ part_of path.now }
{
    match path.split_once('/') {
        Some((part, _)) => part,
        None => path,
    }
}

/// Returns what stands behind the first slash of a path; nothing if there is none.
pub fn rest_of(path: &str) -> &str
    ensures { result.now ≡ rest_of path.now }
{
    match path.split_once('/') {
        Some((_, rest)) => rest,
        None => "",
    }
}

/// Returns the part of a path where the table has `{id}`.
pub fn id_part(path: &str) -> &str
    ensures { result.now ≡ spec.id_part path.now }
{
    part_of(rest_of(rest_of(path)))
}

/// Returns the part of a path where the table has `{m}`.
pub fn member_part(path: &str) -> &str
    ensures { result.now ≡ spec.member_part path.now }
{
    part_of(rest_of(rest_of(rest_of(rest_of(path)))))
}

/// Returns the path of a target: what stands before the first question mark.
pub fn path_of(target: &str) -> &str
    ensures { result.now ≡ spec.path_of target.now }
{
    match target.split_once('?') {
        Some((path, _)) => path,
        None => target,
    }
}

/// Returns the query of a target: what stands behind the first question mark, if there is one.
pub fn query_of(target: &str) -> Option<&str>
    ensures { option_copied result ≡ spec.query_of target.now }
{
    match target.split_once('?') {
        Some((_, query)) => Some(query),
        None => None,
    }
}
