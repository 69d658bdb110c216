// Decides whose requests an operator's port takes: those of operators, and of their page.
ghost use Rattle.std.specs.Prelude.{◌≡◌, ◌<◌, IfOk, IfSome, length};
ghost use Rattle.std.specs.Option.{option_copied};
ghost use Rattle.std.specs.List.{list_any, position_from};
ghost use Rattle.wire_operators.specs.Doors.{foreign_answer, host_part, is_address, is_behind, is_bracketed, is_colon, is_foreign, is_foreign_host, is_foreign_origin, is_named, is_of_a_call, is_other_byte, is_own_host, is_own_origin, is_page_of, is_same, value_in};

use http::StatusCode;
use std::alloc::{AllocError, Global};
use wire_api::{ApiResponse, ResponseBody, with_body};
use wire_http::{Bytes, Fields};

/// Whether two texts are equal, ignoring case.
fn is_same(one: &[u8], other: &[u8]) -> bool
    ensures { result ≡ is_same one.now other.now }
{
    one.eq_ignore_ascii_case(other)
}

fn is_colon(byte: u8) -> bool
    ensures { result ≡ is_colon byte }
{
    byte == b':'
}

/// Returns the position of the first colon of a host, if it has one.
fn colon_in(host: &[u8]) -> Option<usize>
    ensures place { result ≡ position_from is_colon 0 host.now }
    ensures within { IfSome result (λ place. place < length host.now) }
{
    host.iter().position(|byte| is_colon(*byte))
}

/// Returns what stands before the port of a host; all of it if there is no port.
fn host_part(host: &[u8]) -> &[u8]
    ensures { result.now ≡ host_part host.now }
{
    match colon_in(host) {
        Some(place) => &host[..place],
        None => host,
    }
}

/// Whether a byte can't stand in an IPv4 address.
fn is_other_byte(byte: u8) -> bool
    ensures { result ≡ is_other_byte byte }
{
    byte != b'.' && !byte.is_ascii_digit()
}

fn is_bracketed(host: &[u8]) -> bool
    ensures { result ≡ is_bracketed host.now }
{
    !host.is_empty() && host[0] == b'['
}

fn has_other_byte(part: &[u8]) -> bool
    ensures { result ≡ list_any is_other_byte part.now }
{
    part.iter().any(|byte| is_other_byte(*byte))
}

/// Whether a host is an address: in brackets, or only digits and dots before its port.
fn is_address(host: &[u8]) -> bool
    ensures { result ≡ is_address host.now }
{
    is_bracketed(host) || !has_other_byte(host_part(host))
}

/// Whether a host without its port has one of these names.
fn is_named(names: &[Bytes], part: &[u8]) -> bool
    ensures { result ≡ is_named names.now part.now }
{
    names.iter().any(|name| is_same(part, name.as_slice()))
}

/// Whether a request for this host is for the node: by an address, as `localhost`, or by one of
/// these names. A page of another site would come with a name of its own.
fn is_own_host(names: &[Bytes], host: &[u8]) -> bool
    ensures { result ≡ is_own_host names.now host.now }
{
    let part = host_part(host);
    is_address(host) || (is_same(part, b"localhost") || is_named(names, part))
}

/// Whether a page of this host, with its port, is the operators' page: its host was asked for, or
/// has one of these names. A proxy may ask for another host than the page's.
fn is_page_of(names: &[Bytes], host: &[u8], page: &[u8]) -> bool
    ensures { result ≡ is_page_of names.now host.now page.now }
{
    is_same(page, host) || is_named(names, host_part(page))
}

/// Whether an origin is such a page behind a scheme.
fn is_behind(scheme: &[u8], names: &[Bytes], host: &[u8], origin: &[u8]) -> bool
    ensures { result ≡ is_behind scheme.now names.now host.now origin.now }
{
    if origin.len() < scheme.len() {
        return false;
    }
    is_same(&origin[..scheme.len()], scheme) && is_page_of(names, host, &origin[scheme.len()..])
}

/// Whether an origin is a page of this host, or of one of these names.
fn is_own_origin(names: &[Bytes], host: &[u8], origin: &[u8]) -> bool
    ensures { result ≡ is_own_origin names.now host.now origin.now }
{
    is_behind(b"http://", names, host, origin) || is_behind(b"https://", names, host, origin)
}

/// Whether a request is for another host, if it names one.
fn is_foreign_host(names: &[Bytes], host: Option<&[u8]>) -> bool
    ensures { result ≡ is_foreign_host names.now (option_copied host.entry) }
{
    match host {
        Some(host) => !is_own_host(names, host),
        None => false,
    }
}

/// Whether a request comes from a page of another host, if it comes from a page at all.
fn is_foreign_origin(names: &[Bytes], host: Option<&[u8]>, origin: Option<&[u8]>) -> bool
    ensures { result ≡ is_foreign_origin names.now (option_copied host.entry) (option_copied origin.entry) }
{
    match (origin, host) {
        (None, _) => false,
        (Some(origin), Some(host)) => !is_own_origin(names, host, origin),
        (Some(_), None) => true,
    }
}

/// Returns the value of a field.
fn value_in<'a>(fields: &'a Fields, name: &str) -> Option<&'a [u8]>
    ensures { option_copied result ≡ value_in name.now fields.now }
{
    fields.value(name.as_bytes())
}

/// Whether a request is a coordinator's own call to a link of a participant, in an LRA or at its
/// end.
fn is_of_a_call(fields: &Fields) -> bool
    ensures { result ≡ is_of_a_call fields.now }
{
    value_in(fields, "Long-Running-Action").is_some()
        || value_in(fields, "Long-Running-Action-Ended").is_some()
}

/// Whether a request with these fields comes neither from an operator nor from the operators' page:
/// it is a coordinator's own call, is for another host, or comes from a page of another host.
pub(crate) fn is_foreign(names: &[Bytes], fields: &Fields) -> bool
    ensures { result ≡ is_foreign names.now fields.now }
{
    let host = value_in(fields, "Host");
    is_of_a_call(fields)
        || (is_foreign_host(names, host)
            || is_foreign_origin(names, host, value_in(fields, "Origin")))
}

/// Makes the answer to such a request.
pub(crate) fn foreign_answer<'a>(alloc: Global) -> Result<ApiResponse<'a>, AllocError>
    ensures { IfOk result (λ response. response ≡ foreign_answer) }
{
    let body = ResponseBody::of_bytes(Vec::from_slice(alloc, b"{\"refused\":\"Foreign\"}")?);
    let fields = Vec::new(alloc);
    with_body(
        alloc,
        StatusCode::FORBIDDEN,
        fields,
        "application/json",
        body,
    )
}
