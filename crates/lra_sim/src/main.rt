//! Simulates nodes in one thread, under events that a seed decides: `lra_sim SEED SEEDS EVENTS
//! [NODES [TOLD]]` simulates SEEDS seeds, beginning with SEED, each with EVENTS events. It stops at
//! the first thing that isn't as it has to be, and prints that with the last 20 events, or TOLD.
#![tactic(auto)]

mod asking;
mod calls;
mod checks;
mod copies;
mod opening;
mod play;
mod pulls;
mod steps;
mod texts;
mod threads;

use crate::play::{Play, TOLD};
use sim_env::{Halt, SimStore};
use sim_runs::{Runs, SimRun};
use std::alloc::Global;
use std::process::ExitCode;
use std::rt::Env;
use std::{env, io};

const USAGE: &str = "usage: lra_sim SEED SEEDS EVENTS [NODES [TOLD]]";

/// What is to be simulated.
#[derive(Clone, Copy)]
struct SimArgs {
    seed: u64,
    seeds: u64,
    events: u64,
    nodes: u64,
    told: u64,
}

/// Simulates this many events, and the quiet at the end.
fn play_all<R: Runs>(play: &mut Play<R>, events: u64) -> Result<(), Halt> {
    play.start_all()?;
    for _event in 0..events {
        play.step()?;
    }
    play.end()
}

/// Prints why a simulation stopped.
fn print_halt<P: Print, R: Runs>(rt: &P, play: &Play<R>, seed: u64, halt: &Halt) -> io::Result<()> {
    let (nodes, steps) = (play.count(), play.steps);
    match halt {
        Halt::Found(what) => println!(rt; "seed {seed}, {nodes} nodes, step {steps}: {what}"),
        Halt::Stuck(what) => println!(rt;
            "seed {seed}, {nodes} nodes, step {steps}: the simulator is stuck: {what}"
        ),
    }
}

fn print_told<P: Print, R: Runs>(rt: &P, play: &Play<R>) -> io::Result<()> {
    for line in play.events() {
        println!(rt; "  {line}")?;
    }
    Ok(())
}

/// Runs a simulation and prints its result: its steps and facts, or what it found.
fn print_play<P: Print, R: Runs>(
    rt: &P,
    play: &mut Play<R>,
    seed: u64,
    events: u64,
    tells: bool,
) -> io::Result<bool> {
    let came = play_all(play, events);
    if came.is_err() || tells {
        print_told(rt, play)?;
    }
    if let Err(halt) = &came {
        print_halt(rt, play, seed, halt)?;
        return Ok(false);
    }
    let (nodes, steps, now, facts) = (
        play.count(),
        play.steps,
        play.now,
        play.history.facts().len(),
    );
    let (sent, late) = (play.copies.copied, play.copies.late);
    println!(rt;
        "seed {seed}, {nodes} nodes: {steps} steps, {now} ms, {facts} facts, {sent} copied, {late} late"
    )?;
    Ok(true)
}

/// Simulates one seed.
fn played<P: Print>(
    rt: &P,
    alloc: Global,
    seed: u64,
    nodes: u8,
    asked: SimArgs,
) -> io::Result<bool> {
    let told = usize::try_from(asked.told).unwrap_or(TOLD).max(TOLD);
    let Ok(mut play) = Play::<SimRun<SimStore>>::new(alloc, seed, nodes, told) else {
        println!(rt; "no memory")?;
        return Ok(false);
    };
    print_play(rt, &mut play, seed, asked.events, told > TOLD)
}

/// Returns the number of nodes: as many as are asked for, otherwise as many as the seed says.
fn nodes_of(asked: u64, seed: u64) -> u8 {
    match u8::try_from(asked) {
        Ok(nodes) if nodes > 0 => nodes,
        _ => match seed % 4 {
            0 => 3,
            1 => 2,
            2 => 3,
            _ => 1,
        },
    }
}

/// Reads the numbers of the command line.
fn numbers<E: Env + Alloc>(rt: &E) -> Option<SimArgs> {
    let mut given = Vec::new(rt.alloc());
    for word in env::args(rt).ok()?.skip(1) {
        given.push(word.parse::<u64>().ok()?).ok()?;
    }
    asked_by(&given)
}

fn asked_by(given: &[u64]) -> Option<SimArgs> {
    let (seed, seeds, events) = (*given.get(0)?, *given.get(1)?, *given.get(2)?);
    let (nodes, told) = (
        given.get(3).copied().unwrap_or(0),
        given.get(4).copied().unwrap_or(0),
    );
    if given.len() > 5 || nodes > 8 {
        return None;
    }
    Some(SimArgs {
        seed,
        seeds,
        events,
        nodes,
        told,
    })
}

fn main(rt: HostRuntime) -> io::Result<ExitCode> {
    let Some(asked) = numbers(&rt) else {
        eprintln!(rt; "{USAGE}")?;
        return Ok(ExitCode::from(2));
    };
    for number in 0..asked.seeds {
        let seed = asked.seed.saturating_add(number);
        if !played(&rt, rt.alloc(), seed, nodes_of(asked.nodes, seed), asked)? {
            return Ok(ExitCode::from(1));
        }
    }
    Ok(ExitCode::from(0))
}
