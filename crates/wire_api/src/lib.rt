//! The HTTP interface of a node: reads a request, makes the call that it asks for, and writes the
//! answer.
#![tactic(auto)]

mod answers;
mod body;
mod body_faults;
mod json;
pub mod laws;
mod names;
mod path;
mod routing;
mod serving;
mod table;
mod text;

pub use answers::{ApiResponse, answer, ok_json, refusal_answer, with_body};
pub use body::ResponseBody;
pub use names::{id_of, member_of};
pub use path::{Paths, id_part, member_part, part_of, path_of, query_of, rest_of};
pub use routing::{Unrouted, route};
pub use serving::{
    ServeError, end, end_refused, serve_fault, serve_one, serve_or_explain, serve_request,
};
pub use table::{Endpoint, TableMethod, method_of};
pub use text::refusal_body;
