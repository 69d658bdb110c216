//! The program: a stateless gateway between services that speak Narayana's coordinator interface
//! and nodes.
#![tactic(auto)]

mod agent;
mod arg_texts;
mod arg_values;
mod args;
mod asking;
mod ending;
mod exchange;
mod forward;
mod gateway;
mod handing;
mod joining;
mod key;
mod listing;
mod members;
mod names;
mod port;
mod query;
mod reply;
mod run;
mod service;
mod serving;
mod starting;
mod status_groups;
mod wrong_arg;

use crate::agent::Platform;
use crate::args::{GatewayError, asked_by, key_of};
use crate::gateway::{Gateway, gateway_of};
use crate::run::run_gateway;
use program_args::{COMMIT, KIT, VERSION, is_version};
use std::alloc::Global;
use std::env;
use std::io::Read;
use std::net::{Net, TcpListener, TcpStream};
use std::process::ExitCode;
use std::sync::Wait;
use std::thread::Threads;
use std::time::Clock;
use wire_narayana::Key;

const USAGE: &str =
    "usage: LRA_GATEWAY_KEY=HEX lra_gateway listen=IP:PORT base=URL calls=PORT|calls=IP:PORT via=HOST:PORT [limit=MS] [wait=MS] [again=MS] [allow=HOST[:PORT],..] [short=NAME=HOST:PORT/PATH].. group=HOST:PORT[/PORT],.. .. | --version";

/// The name of the environment variable that has the key.
const KEY: &str = "LRA_GATEWAY_KEY";

/// Makes the gateway that the words ask for, with this key.
fn asked_with<'a>(
    alloc: Global,
    words: &'a [String],
    key: &Key,
) -> Result<Gateway, GatewayError<'a>> {
    let asked = asked_by(alloc, words)?;
    match gateway_of(alloc, asked, key) {
        Ok(gateway) => Ok(gateway),
        Err(_) => Err(GatewayError::NoMemory),
    }
}

/// Runs a gateway until standard input ends, or prints which build this is. If the words ask for
/// something else, or the environment has no key, prints what is wrong and the usage, and ends with
/// status 2.
fn main(rt: HostRuntime) -> ExitCode {
    let alloc = rt.alloc();
    let Ok(given) = env::args(&rt) else {
        return ExitCode::from(1);
    };
    let Ok(words) = given.skip(1).collect::<Vec<String>>(alloc) else {
        return ExitCode::from(1);
    };
    if is_version(&words) {
        let _ = println!(rt; "lra_gateway {}, commit {}, {}", VERSION, COMMIT, KIT);
        return ExitCode::from(0);
    }
    let key = match env::var(&rt, KEY) {
        Ok(text) => key_of(text.as_str()),
        Err(_) => None,
    };
    let Some(key) = key else {
        let _ = eprintln!(rt; "lra_gateway: {} has to be 64 hexadecimal digits", KEY);
        let _ = eprintln!(rt; "{}", USAGE);
        return ExitCode::from(2);
    };
    match asked_with(alloc, &words, &key) {
        Ok(gateway) => ExitCode::from(serve(&rt, alloc, &gateway, rt.reader())),
        Err(GatewayError::NoMemory) => ExitCode::from(1),
        Err(GatewayError::Wrong(wrong)) => {
            let _ = eprintln!(rt; "lra_gateway: {}", wrong);
            let _ = eprintln!(rt; "{}", USAGE);
            ExitCode::from(2)
        }
    }
}

/// Runs the gateway as `run_gateway` does. The bounds name the sockets, because the borrow checker
/// has to find them where a host is handed over.
fn serve<R, I>(rt: &R, alloc: Global, gateway: &Gateway, input: I) -> u8
where
    R: Threads + Wait + Clock + Net<Listener = TcpListener, Stream = TcpStream> + Eprint + Sync,
    I: Read + Drop + Send,
{
    run_gateway(rt, alloc, gateway, input)
}
