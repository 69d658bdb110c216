//! What services that speak Narayana's coordinator interface write and read, as values and bytes.
//! No thread, socket or clock is used here.
#![tactic(auto)]

mod answers;
mod broken;
mod carried;
mod chunks;
mod fields;
mod given_link;
mod ids;
mod link_kind;
mod message;
mod repeat;
mod seal;
mod short;

pub use answers::{AnswerToNode, ParticipantAnswer, told_of, word_in};
pub use broken::Broken;
pub use carried::{MOST_LINK, Opened, Uncarried, Via, carry, open};
pub use chunks::{MAX_LINE_BYTES, one_body, read_chunks};
pub use fields::Framing;
pub use given_link::{GivenLink, links_of};
pub use ids::{id_in, recovery_of, text_of, url_of};
pub use link_kind::{LinkKind, Query};
pub use message::{
    ParticipantResponse, ServiceFields, ServiceRequest, one_answer, read_answer, read_request,
};
pub use repeat::{NodeResult, Repeat, is_again};
pub use seal::Key;
pub use short::Short;
