//! The program: a server of one to eight nodes, a script of commands over as many, or members of a
//! group whose other nodes run in processes of their own.
#![tactic(auto)]

mod member;

ghost use Rattle.state_ids.specs.declared.TheConstants.{MAX_NODES};
ghost use Rattle.lra_node.specs.Arguments.{AskMember, AskServer, IsOldName, IsPossible};
ghost use Rattle.std.specs.Prelude.{◌≤◌, ℕ, IfOk, List, MatchBool, MatchOption, map, string_bytes};

use log::{Level, Log, Logged};
use node_server::{Folder, LocalMembers, Stores, UnknownFiles, open_null, serve, serve_members};
use node_threads::{ToLines, lines_of};
use script_lines::{Ended, arguments, code_of, node_of, play};
use state_ids::MAX_NODES;
use std::alloc::Global;
use std::io::Read;
use std::net::{Net, TcpListener, TcpStream};
use std::process::ExitCode;
use std::sync::Wait;
use std::thread::Threads;
use std::time::{Clock, Duration};
use std::{env, io};
use wire_http::{OverRead, OverWrite};

const USAGE: &str = "usage: lra_node script N | serve N PORT DIR";

/// The least port of the first node.
const FIRST_PORT: u16 = 1_024;

/// The greatest port of the first node: the ports of eight nodes follow it.
const LAST_PORT: u16 = 65_528;

/// How many milliseconds the program waits at its end until the last warnings are written.
const LAST_LINES_MS: u64 = 500;

/// What the program was called while it was a program of its own that ran members alone. A link of
/// this name still does.
const OLD_NAME: &str = "lra_member";

/// Whether the program was started by its old name.
fn is_old_name(name: &str) -> bool
    ensures { MatchBool result (IsOldName name.now) (IsOldName name.now → ⊥) }
{
    name.strip_suffix(OLD_NAME).is_some()
}

/// Whether the program was started by its old name, which the first of its arguments says.
fn has_old_name(rt: &HostRuntime) -> bool {
    let Ok(mut given) = env::args(rt) else {
        return false;
    };
    match given.next() {
        Some(name) => is_old_name(name.as_str()),
        None => false,
    }
}

/// Returns the words that say which members to run, if the words ask for members.
fn member_words(has_old_name: bool, words: &[String]) -> Option<&[String]>
    ensures { MatchOption result
        ((given : List (List ℕ)) → AskMember has_old_name (map string_bytes words.now) given → ⊥)
        (λ given. AskMember has_old_name (map string_bytes words.now) (map string_bytes given.now)) }
{
    if has_old_name {
        return Some(words);
    }
    let Some((first, rest)) = words.split_first() else {
        return None;
    };
    if first.as_str() != "member" {
        return None;
    }
    Some(rest)
}

/// What the words ask of the program, other than a script.
#[derive(Drop)]
enum Job {
    /// A server of so many nodes, of which the first listens at this port.
    Server { nodes: u8, port: u16 },
    Members(LocalMembers),
}

impl Job {
    /// Returns the number of the first node.
    fn first(&self) -> u8 {
        match self {
            Job::Server { nodes: _, port: _ } => 1,
            Job::Members(members) => members.first,
        }
    }
}

/// Runs the nodes that are asked for until standard input ends, and returns the exit status of `serve`
/// or `serve_members`. Its bounds name the sockets, because the borrow checker has to find them where
/// a host is handed over.
fn run_nodes<R, L, H, S, I>(
    rt: &R,
    log: &L,
    host: H,
    alloc: Global,
    job: Job,
    stores: &S,
    input: I,
) -> u8
where
    R: Threads + Wait + Clock + Net<Listener = TcpListener, Stream = TcpStream> + Eprint + Sync,
    L: Log + Sync,
    H: Wait + Send + Drop + 'static,
    S: Stores + Sync,
    I: Read + Send + Drop + 'static,
    requires nodes { IsPossible job }
    ensures status { result ≤ 1 }
{
    match job {
        Job::Server { nodes, port } => serve(rt, log, host, alloc, nodes, port, stores, input),
        Job::Members(members) => serve_members(rt, log, host, alloc, members, stores, input),
    }
}

/// Returns what the words ask for, with the folder in which the journals lie; or, if there is nothing
/// to run, the exit status.
fn job_of(rt: &HostRuntime, mut words: Vec<String>) -> Result<(Job, String), u8>
    ensures { IfOk result (λ made. IsPossible made.0) }
{
    if let Some(words) = member_words(has_old_name(rt), &words) {
        return match member::members_of(rt, words) {
            Ok((members, folder)) => Ok((Job::Members(members), folder)),
            Err(status) => Err(status),
        };
    }
    let Some((nodes, port)) = asked_server(&words) else {
        return Err(played(rt, &words).status());
    };
    let folder = words.pop().unwrap_or(String::new(rt.alloc()));
    Ok((Job::Server { nodes, port }, folder))
}

/// Runs a server until standard input ends, plays a script over standard input, or runs members of a
/// group. Each returns its exit status, as `serve`, `play` and `serve_members` say. If the arguments
/// ask for something else, the status is 2, and the usage is printed. Std has no clause on arguments,
/// so tests/serve.py shows that the folder is handed on.
fn main(rt: HostRuntime) -> ExitCode {
    let Ok(given) = env::args(&rt) else {
        return ExitCode::from(1);
    };
    let Ok(words) = arguments(rt.alloc(), given) else {
        return ExitCode::from(1);
    };
    let (job, folder) = match job_of(&rt, words) {
        Ok(made) => made,
        Err(status) => return ExitCode::from(status),
    };
    let _held = (open_null(&rt), open_null(&rt), open_null(&rt));
    let (alloc, input) = (rt.alloc(), rt.reader());
    let Some(lines) = lines_of(&rt, rt, alloc) else {
        let _ = eprintln!(rt; "run {}", job.first());
        return ExitCode::from(1);
    };
    let to_lines = ToLines {
        rt: &rt,
        alloc,
        lines: &lines,
    };
    let logged = Logged::new(&rt, Level::Info, to_lines);
    let folder = Folder::new(rt, folder, UnknownFiles);
    let status = run_nodes(&rt, &logged, rt, alloc, job, &folder, input);
    lines.wait(&rt, Duration::from_millis(LAST_LINES_MS));
    ExitCode::from(status)
}

/// Plays a script from standard input to standard output.
fn played(rt: &HostRuntime, words: &[String]) -> Ended {
    let mut reader = OverRead::new(rt.reader());
    let mut writer = OverWrite::new(io::writer(rt));
    play(rt, words, USAGE, &mut reader, &mut writer)
}

/// Returns how many nodes the words ask a server of, and the port of its first node.
fn asked_server(words: &[String]) -> Option<(u8, u16)>
    ensures { MatchOption result ((nodes port : ℕ) (folder : List ℕ) →
        AskServer (map string_bytes words.now) nodes port folder → ⊥) (λ asked. (folder : List ℕ)
        × AskServer (map string_bytes words.now) asked.0 asked.1 folder) }
{
    let [command, count, first, _folder] = words else {
        return None;
    };
    if command.as_str() != "serve" {
        return None;
    }
    let last = node_of(count.as_bytes(), MAX_NODES)?;
    let port = code_of(first.as_bytes())?;
    if port < FIRST_PORT || port > LAST_PORT {
        return None;
    }
    Some((last.number(), port))
}
