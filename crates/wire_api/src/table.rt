// The table of paths and methods.
ghost use Rattle.std.specs.Prelude.{◌≡◌};
ghost use Rattle.wire_api.specs.Table.{action_at, methods_of, method_of};

use http::Method;
use state_ids::Verdict;

/// Where a path of the table leads.
#[derive(Clone, Copy, Debug, PartialEq, Eq)]
pub enum Endpoint {
    /// `/lra`
    Lras,
    /// `/lra/{id}`
    Lra,
    /// `/lra/{id}/join`
    Join,
    /// `/lra/{id}/close`
    Close,
    /// `/lra/{id}/cancel`
    Cancel,
    /// `/lra/{id}/member/{m}`
    Member,
    /// `/lra/{id}/member/{m}/leave`
    Leave,
    /// `/lra/{id}/member/{m}/report`
    Report,
    /// `/peer/pull`
    Pull,
}

/// A method of the table, or another.
#[derive(Clone, Copy, Debug, PartialEq, Eq)]
pub enum TableMethod {
    Get,
    Post,
    Put,
    Delete,
    Other,
}

/// What a method asks for at a path.
#[derive(Clone, Copy, Debug, PartialEq, Eq)]
pub enum Action {
    List,
    Begin,
    Status,
    Purge,
    Join,
    Decide(Verdict),
    Member,
    Leave,
    Report,
    Pull,
}

/// Returns the method that has this name.
pub fn method_of(method: &Method) -> TableMethod
    ensures { result ≡ method_of method.now }
{
    match method.as_str() {
        "GET" => TableMethod::Get,
        "POST" => TableMethod::Post,
        "PUT" => TableMethod::Put,
        "DELETE" => TableMethod::Delete,
        _ => TableMethod::Other,
    }
}

/// Returns what a method asks for at a path, if the path has that method.
pub fn action_at(endpoint: Endpoint, method: TableMethod) -> Option<Action>
    ensures { result ≡ action_at endpoint method }
{
    match (endpoint, method) {
        (Endpoint::Lras, TableMethod::Get) => Some(Action::List),
        (Endpoint::Lras, TableMethod::Post) => Some(Action::Begin),
        (Endpoint::Lra, TableMethod::Get) => Some(Action::Status),
        (Endpoint::Lra, TableMethod::Delete) => Some(Action::Purge),
        (Endpoint::Join, TableMethod::Put) => Some(Action::Join),
        (Endpoint::Close, TableMethod::Put) => Some(Action::Decide(Verdict::Close)),
        (Endpoint::Cancel, TableMethod::Put) => Some(Action::Decide(Verdict::Cancel)),
        (Endpoint::Member, TableMethod::Get) => Some(Action::Member),
        (Endpoint::Leave, TableMethod::Put) => Some(Action::Leave),
        (Endpoint::Report, TableMethod::Put) => Some(Action::Report),
        (Endpoint::Pull, TableMethod::Post) => Some(Action::Pull),
        _ => None,
    }
}

/// Returns the methods of a path, in the table's order.
pub fn methods_of(endpoint: Endpoint) -> &'static str
    ensures { result.now ≡ methods_of endpoint }
{
    match endpoint {
        Endpoint::Lras => "GET, POST",
        Endpoint::Lra => "GET, DELETE",
        Endpoint::Join | Endpoint::Close | Endpoint::Cancel | Endpoint::Leave | Endpoint::Report =>
            "PUT",
        Endpoint::Member => "GET",
        Endpoint::Pull => "POST",
    }
}
