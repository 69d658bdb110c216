// A call by the bound of a caller, and a pull, over connections in memory.
use http::Method;
use state_ids::Front;
use std::alloc::Global;
use std::test::Fail;
use wire_callbacks::{Answer, Caller, NetCaller, NoMemory};
use wire_http::{Bytes, CallRequest, Fault, Fields, OverRead, OverWrite, Text};
use wire_pulls::{PullError, pull};

/// A call to complete.
fn completion(alloc: Global) -> Result<CallRequest, Fail> {
    Ok(CallRequest {
        method: Method::PUT,
        target: Text::new(String::from_str(alloc, "/complete")?),
        host: Text::new(String::from_str(alloc, "hotel")?),
        fields: Fields::new(Vec::new(alloc)),
        body: Bytes::new(Vec::new(alloc)),
    })
}

/// Returns the answer that a caller gets.
fn called<C: Caller>(
    alloc: Global,
    caller: &mut C,
    request: &CallRequest,
) -> Result<Answer, NoMemory> {
    caller.call(alloc, request)
}

/// Returns the code of an answer, if it has one.
fn code_of(answer: &Answer) -> Option<u16> {
    match answer {
        Answer::Code(code, _) => Some(*code),
        Answer::Broken => None,
    }
}

#[test]
fn a_caller_is_called(rt: HostRuntime) -> Result<(), Fail> {
    let alloc = rt.alloc();
    let request = completion(alloc)?;
    let reader = OverRead::new(b"HTTP/1.1 204 No Content\r\n\r\n".as_slice());
    let mut caller = NetCaller::new(reader, OverWrite::new(Vec::new(alloc)));
    let answer = called(alloc, &mut caller, &request)?;
    assert_eq!(rt; code_of(&answer), Some(204));
    let (_reader, writer) = caller.into_parts();
    assert!(rt; !writer.into_inner().is_empty());
    Ok(())
}

#[test]
fn a_pull_without_an_answer(rt: HostRuntime) {
    let mut reader = OverRead::new(b"".as_slice());
    let mut writer = OverWrite::new(Vec::new(rt.alloc()));
    let pulled = pull(
        rt.alloc(),
        &mut reader,
        &mut writer,
        "?to=2",
        &Front::zero(1),
    );
    assert_eq!(rt; pulled.err(), Some(PullError::Fault(Fault::Cut)));
}
