// Running the script that a program's arguments ask for, over given streams.
ghost use Rattle.script_lines.specs.Arguments.{AskScript, EndsWith, IsRunOf, exit_status};
ghost use Rattle.std.specs.Prelude.{◌≡◌, ℕ, IfOk, MatchOption, drop, map, string_bytes};
ghost use Rattle.std.specs.Vec.Iter.{into_iter_items};

use crate::course::{ScriptFault, script};
use crate::words::node_of;
use state_ids::MAX_NODES;
use std::alloc::{AllocError, Global};
use std::env::Args;
use wire_http::{Sink, Source};

/// How a program ended that was started with the words of a command line.
#[derive(Clone, Copy, Debug, PartialEq, Eq)]
pub enum Ended {
    /// The whole input was read, and all that it prints was written.
    Ran,
    /// The script stopped at this fault.
    Stopped(ScriptFault),
    /// The words don't ask for a script.
    NotAsked,
}

impl Ended {
    /// Returns the exit status: 0 if the script ran, 1 if it stopped, and 2 if the words didn't ask
    /// for one.
    pub fn status(self) -> u8
        ensures { result ≡ exit_status self }
    {
        match self {
            Ended::Ran => 0,
            Ended::Stopped(_) => 1,
            Ended::NotAsked => 2,
        }
    }
}

/// Returns the arguments without the first, which is the program's name.
pub fn arguments(alloc: Global, given: Args) -> Result<Vec<String>, AllocError>
    ensures { IfOk result (λ words. words.items ≡ drop 1 (into_iter_items given)) }
{
    given.skip(1).collect(alloc)
}

/// Runs the script that the words of a command line ask for, from a reader to a writer. If they
/// don't ask for one, nothing is read or written.
pub fn run<R: Source, W: Sink>(
    alloc: Global,
    words: &[String],
    reader: &mut R,
    writer: &mut W,
) -> Ended
    ensures { IsRunOf (AskScript (map string_bytes words.now)) (EndsWith (R.stream reader.old)
        (R.stream reader.new) (W.stream writer.old) (W.stream writer.new) (R.calls reader.old)
        (R.calls reader.new) (W.calls writer.old) (W.calls writer.new)) ((reader.new ≡ reader.old)
        × (writer.new ≡ writer.old)) result }
{
    let Some(nodes) = asked_nodes(words) else {
        return Ended::NotAsked;
    };
    match script(alloc, reader, writer, nodes) {
        Ok(()) => Ended::Ran,
        Err(fault) => Ended::Stopped(fault),
    }
}

/// Does the same for a program, with its standard input and output. If the words don't ask for a
/// script, the usage is written to standard error.
pub fn play<R: Source, W: Sink>(
    rt: &HostRuntime,
    words: &[String],
    usage: &str,
    reader: &mut R,
    writer: &mut W,
) -> Ended
    ensures { IsRunOf (AskScript (map string_bytes words.now)) (EndsWith (R.stream reader.old)
        (R.stream reader.new) (W.stream writer.old) (W.stream writer.new) (R.calls reader.old)
        (R.calls reader.new) (W.calls writer.old) (W.calls writer.new)) ((reader.new ≡ reader.old)
        × (writer.new ≡ writer.old)) result }
{
    let ended = run(rt.alloc(), words, reader, writer);
    if let Ended::NotAsked = ended {
        let _ = eprintln!(rt; "{usage}");
    }
    ended
}

/// Returns the number of nodes of the script that the arguments ask for, or `None` if they don't
/// ask for a script.
pub fn asked_nodes(words: &[String]) -> Option<u8>
    ensures { MatchOption result ((nodes : ℕ) →
        AskScript (map string_bytes words.now) nodes → ⊥) (AskScript (map string_bytes words.now)) }
{
    let [command, count] = words else {
        return None;
    };
    if command.as_str() != "script" {
        return None;
    }
    let last = node_of(count.as_bytes(), MAX_NODES)?;
    Some(last.number())
}
