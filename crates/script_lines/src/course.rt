// Running a script over any source and sink.
ghost use Rattle.std.specs.Prelude.{◌≡◌, ◌≤◌, length, IfErr, OnOk, OnErr};
ghost use Rattle.state_ids.specs.declared.TheConstants.{MAX_NODES};
ghost use Rattle.wire_http.specs.Streams.{TakesPart};
ghost use Rattle.script_world.specs.Machines.{IsWorldOf};
ghost use Rattle.script_world.specs.Worlds.{State};
ghost use Rattle.script_lines.specs.ScriptEnds.{AnswersWhole, HasRun, HasStopped, IsPut, LineCalls, WritesPart};
ghost use Rattle.script_lines.specs.Scripts.{Prints};

use crate::answer::answer;
use crate::line::{KEPT_OF_LINE, read_line};
use script_world::World;
use std::alloc::Global;
use wire_http::{Sink, Source, WriteFault, flush, write_all};

/// Why a script stopped before the end of its input.
#[derive(Clone, Copy, Debug, PartialEq, Eq)]
pub enum ScriptFault {
    /// A read failed, 1,024 reads were interrupted within a line, or 18,446,744,073,709,551,615
    /// reads were made.
    Read,
    /// A write failed, or 1,024 writes were interrupted within a line.
    Write,
    /// There wasn't enough memory to begin.
    NoMemory,
}

/// Runs the commands that it reads, one on each line, over a world of 1 to 8 nodes that has no
/// facts yet, and writes what each prints. Ends with its input, or at a fault.
pub fn script<R: Source, W: Sink>(
    alloc: Global,
    reader: &mut R,
    writer: &mut W,
    nodes: u8,
) -> Result<(), ScriptFault>
    requires some { 1 ≤ nodes }
    requires few { nodes ≤ MAX_NODES }

    // What was written and flushed is the text of the whole input. The states that its lines lead
    // through are those of one run of the world, and the headline holds from each state to each
    // later one. No call failed, and fewer than 1,024 calls were interrupted for each line.
    ensures text { OnOk result (HasRun nodes
        (R.stream reader.old) (R.stream reader.new) (W.stream writer.old) (W.stream writer.new)
        (R.calls reader.old) (R.calls reader.new) (W.calls writer.old) (W.calls writer.new)) }
    // After a fault, what was written is a prefix of such a text, whatever would have followed the
    // input that was read. After a read fault, each line that was read whole has its whole answer.
    ensures part { OnErr result (WritesPart nodes
        (R.stream reader.old) (R.stream reader.new) (W.stream writer.old) (W.stream writer.new)) }
    ensures whole { result ≡ Err ScriptFault.Read → AnswersWhole nodes
        (R.stream reader.old) (R.stream reader.new) (W.stream writer.old) (W.stream writer.new) }
    // Each fault has its cause, and no call follows one that failed.
    ensures streams { IfErr result (HasStopped (R.calls reader.old)
        (R.calls reader.new) (W.calls writer.old) (W.calls writer.new) ((reader.new ≡ reader.old)
        × (writer.new ≡ writer.old))) }
{
    let Ok(mut line) = Vec::with_capacity(alloc, KEPT_OF_LINE) else {
        return Err(ScriptFault::NoMemory);
    };
    let Ok(mut world) = World::new(alloc, usize::from(nodes)) else {
        return Err(ScriptFault::NoMemory);
    };
    let mut reads_left = u64::MAX;
    'lines: loop {
        let Ok(more) = read_line(reader, &mut line, &mut reads_left) else {
            return Err(ScriptFault::Read);
        };
        let Ok(()) = print_line(alloc, &mut world, &line, nodes, writer) else {
            return Err(ScriptFault::Write);
        };
        if !more {
            return Ok(());
        }
    }
}

fn print_line<W: Sink>(
    alloc: Global,
    world: &mut World,
    line: &[u8],
    nodes: u8,
    writer: &mut W,
) -> Result<(), WriteFault>
    requires few { nodes ≤ MAX_NODES }
    requires nodes { length world.old.replicas ≡ nodes }
    ensures ok { (s : State) → IsWorldOf s world.old → OnOk result
        (Prints nodes s line.now world.new (IsPut (W.stream writer.old) (W.stream writer.new))) }
    ensures err { (s : State) → IsWorldOf s world.old → OnErr result (Prints
        nodes s line.now world.new (TakesPart (W.stream writer.old) (W.stream writer.new))) }
    ensures streams { LineCalls (W.calls writer.old) (W.calls writer.new) result }
{
    match answer(alloc, world, line, nodes) {
        Ok(text) => write_out(writer, text.as_bytes()),
        Err(_) => write_out(writer, b"refused E17 NoMemory\n"),
    }
}

fn write_out<W: Sink>(writer: &mut W, text: &[u8]) -> Result<(), WriteFault>
    ensures ok { OnOk result (IsPut (W.stream writer.old) (W.stream writer.new) text.now) }
    ensures part { OnErr result (TakesPart (W.stream writer.old) (W.stream writer.new) text.now) }
    ensures streams { LineCalls (W.calls writer.old) (W.calls writer.new) result }
{
    let mut interrupted = 0;
    write_all(writer, text, &mut interrupted)?;
    flush(writer, &mut interrupted)
}
