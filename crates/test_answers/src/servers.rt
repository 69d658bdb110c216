// Answers of participants as servers write them, according to the servers' public documents: to a
// call to complete, with an empty body if possible.
use http::Method;
use state_ids::{Act, Outcome};
use std::alloc::Global;
use std::test::Fail;
use wire_callbacks::{Answer, Heard, Kind, NetCaller, hear};
use wire_http::{Bytes, CallRequest, Fields, OverRead, OverWrite, Text};

const DONE: Heard = Heard::Outcome(Outcome::Done);

/// The server, what it writes, the code that is read, and what is learned from the answer.
const ANSWERS: [(&str, &str, Option<u16>, Heard); 14] = [
    (
        "WildFly, a method without a result",
        "HTTP/1.1 204 No Content\r\nDate: Tue, 24 Nov 2026 10:00:00 GMT\r\nConnection: close\r\n\r\n",
        Some(204),
        DONE,
    ),
    (
        "WildFly, a response without an entity",
        "HTTP/1.1 200 OK\r\nConnection: close\r\nContent-Length: 0\r\nDate: Tue, 24 Nov 2026 10:00:00 GMT\r\n\r\n",
        Some(200),
        DONE,
    ),
    (
        "Quarkus",
        "HTTP/1.1 200 OK\r\ncontent-length: 0\r\nconnection: close\r\n\r\n",
        Some(200),
        DONE,
    ),
    (
        "Helidon",
        "HTTP/1.1 200 OK\r\nDate: Tue, 24 Nov 2026 11:00:00 +0100\r\nConnection: close\r\nContent-Length: 0\r\n\r\n",
        Some(200),
        DONE,
    ),
    (
        "Open Liberty",
        "HTTP/1.1 200 OK\r\nX-Powered-By: Servlet/4.0\r\nContent-Language: en-US\r\nContent-Length: 0\r\nDate: Tue, 24 Nov 2026 10:00:00 GMT\r\n\r\n",
        Some(200),
        DONE,
    ),
    (
        "Spring Boot with Tomcat, which writes no reason",
        "HTTP/1.1 200 \r\nContent-Length: 0\r\nDate: Tue, 24 Nov 2026 10:00:00 GMT\r\nConnection: close\r\n\r\n",
        Some(200),
        DONE,
    ),
    (
        "Spring Boot with Tomcat, with an object of JSON",
        "HTTP/1.1 200 \r\nContent-Type: application/json\r\nTransfer-Encoding: chunked\r\nDate: Tue, 24 Nov 2026 10:00:00 GMT\r\nConnection: close\r\n\r\n2\r\n{}\r\n0\r\n\r\n",
        None,
        Heard::Again,
    ),
    (
        "Express, sendStatus(200)",
        "HTTP/1.1 200 OK\r\nX-Powered-By: Express\r\nContent-Type: text/plain; charset=utf-8\r\nContent-Length: 2\r\nETag: W/\"2-nOO9QiTIwXgNtWtBJezz8kv3SLc\"\r\nDate: Tue, 24 Nov 2026 10:00:00 GMT\r\nConnection: close\r\n\r\nOK",
        Some(200),
        DONE,
    ),
    (
        "Express, sendStatus(409)",
        "HTTP/1.1 409 Conflict\r\nX-Powered-By: Express\r\nContent-Type: text/plain; charset=utf-8\r\nContent-Length: 8\r\nConnection: close\r\n\r\nConflict",
        Some(409),
        Heard::Outcome(Outcome::Failed),
    ),
    (
        "Go, a handler that writes nothing",
        "HTTP/1.1 200 OK\r\nDate: Tue, 24 Nov 2026 10:00:00 GMT\r\nContent-Length: 0\r\nConnection: close\r\n\r\n",
        Some(200),
        DONE,
    ),
    (
        "Go, a handler that flushes",
        "HTTP/1.1 202 Accepted\r\nDate: Tue, 24 Nov 2026 10:00:00 GMT\r\nTransfer-Encoding: chunked\r\nConnection: close\r\n\r\n0\r\n\r\n",
        None,
        Heard::Again,
    ),
    (
        "Flask, an empty text with 202",
        "HTTP/1.1 202 ACCEPTED\r\nServer: Werkzeug/3.1.8 Python/3.11.7\r\nDate: Tue, 24 Nov 2026 10:00:00 GMT\r\nContent-Type: text/html; charset=utf-8\r\nContent-Length: 0\r\nConnection: close\r\n\r\n",
        Some(202),
        Heard::Outcome(Outcome::Busy),
    ),
    (
        "Python's http.server, end_headers and no length",
        "HTTP/1.0 200 OK\r\nServer: BaseHTTP/0.6 Python/3.11.7\r\nDate: Tue, 24 Nov 2026 10:00:00 GMT\r\n\r\n",
        None,
        Heard::Again,
    ),
    (
        "a proxy whose service is down",
        "HTTP/1.1 502 Bad Gateway\r\nServer: nginx/1.22.1\r\nDate: Tue, 24 Nov 2026 10:00:00 GMT\r\nContent-Type: text/html\r\nContent-Length: 5\r\nConnection: close\r\n\r\n<p>\r\n",
        Some(502),
        Heard::Again,
    ),
];

/// A call to complete.
fn completion(alloc: Global) -> Result<CallRequest, Fail> {
    Ok(CallRequest {
        method: Method::PUT,
        target: Text::new(String::from_str(alloc, "/complete")?),
        host: Text::new(String::from_str(alloc, "hotel")?),
        fields: Fields::new(Vec::new(alloc)),
        body: Bytes::new(Vec::new(alloc)),
    })
}

/// Returns the answer of a participant that writes this text.
fn answer_of(alloc: Global, text: &str) -> Result<Answer, Fail> {
    let writer = OverWrite::new(Vec::new(alloc));
    let mut caller = NetCaller::new(OverRead::new(text.as_bytes()), writer);
    Ok(caller.ask(alloc, &completion(alloc)?)?)
}

#[test]
fn what_servers_write_is_heard(rt: HostRuntime) -> Result<(), Fail> {
    for (server, text, code, heard) in ANSWERS {
        let answer = answer_of(rt.alloc(), text)?;
        let read = match &answer {
            Answer::Code(code, _) => Some(*code),
            Answer::Broken => None,
        };
        assert_eq!(rt; read, code, "{server}");
        let told = hear(Act::Complete, Kind::Complete, &answer);
        assert_eq!(rt; told, heard, "{server}");
    }
    Ok(())
}
