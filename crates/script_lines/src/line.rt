// Reading a line.
ghost use Rattle.std.specs.Prelude.{◌≡◌, ◌<◌, ◌≤◌, ◌+◌, ℕ, List, [], ◌∷◌, ◌++◌, take, vec_capacity, IfOk, OnOk, OnErr};
ghost use Rattle.script_lines.specs.ScriptEnds.{LineReads, ReadsLine, ReadsPart};

use wire_http::{ReadFault, Source, read_byte};

/// The most bytes of a line that is executed.
pub const MAX_LINE_BYTES: usize = 4096;

/// One byte more than a line may have is kept, so that a longer line is noticed.
pub const KEPT_OF_LINE: usize = 4097;

/// Reads the next line. Its first 4,097 bytes are kept, without taking memory. Returns true if a
/// line feed ended the line, false if the input did. 1,024 interrupted reads within a line are a
/// fault. So is a read when `reads_left` is zero: each byte takes one of these reads, and so does
/// the end.
pub fn read_line<R: Source>(
    reader: &mut R,
    line: &mut Vec<u8>,
    reads_left: &mut u64,
) -> Result<bool, ReadFault>
    requires { 4097 ≤ vec_capacity line.old }
    ensures room { 4097 ≤ vec_capacity line.new }
    ensures read { IfOk result
        (λ more. ReadsLine more line.new.items (R.stream reader.old) (R.stream reader.new)) }
    ensures cut { OnErr result (ReadsPart (R.stream reader.old) (R.stream reader.new)) }
    ensures streams { LineReads (R.calls reader.old) (R.calls reader.new) reads_left.new result }
    ensures fewer { OnOk result (reads_left.new < reads_left.old) }
    ensures spent { (R.calls reader.old).made + reads_left.old
        ≤ (R.calls reader.new).made + reads_left.new }
{
    line.clear();
    let mut interrupted = 0;
    'bytes: while *reads_left > 0 {
        let Ok(next) = read_byte(reader, &mut interrupted) else {
            return Err(ReadFault);
        };
        *reads_left -= 1;
        match next {
            Some(b'\n') => return Ok(true),
            Some(byte) => keep(line, byte),
            None => return Ok(false),
        }
    }
    Err(ReadFault)
}

fn keep(line: &mut Vec<u8>, byte: u8)
    requires { 4097 ≤ vec_capacity line.old }
    ensures room { 4097 ≤ vec_capacity line.new }
    ensures kept { (pending : List ℕ) →
        line.old.items ≡ take 4097 pending → line.new.items ≡ take 4097 (pending ++ byte ∷ []) }
{
    if line.len() < KEPT_OF_LINE {
        let _ = line.push(byte);
    }
}
