// Writes and reads the body of a pull.
ghost use Rattle.std.specs.Prelude.{◌≡◌, ◌++◌, ◌≤◌, ◌*◌, ℕ, List, Ok, IfErr, IfOk, OnOk, length};
ghost use Rattle.std.specs.Int.{from_be_bytes, w64};
ghost use Rattle.state_ids.specs.declared.TheConstants.{MAX_NODES};
ghost use Rattle.state_facts.specs.declared.refusal.Refusal.TheVariants.{BadFrame};
ghost use Rattle.wire_frames.specs.Rules.{are_counts};
ghost use Rattle.wire_frames.specs.Encoding.{vector};
ghost use Rattle.wire_pulls.specs.PullBodies.{IsAsked, asked, counts_in, front_in, pull_body};

use state_facts::Refusal;
use state_ids::{Front, LAST_NUMBER};
use std::alloc::{AllocError, Global};

/// Appends counts, each in 8 bytes.
fn push_counts(body: &mut Vec<u8>, counts: &[u64]) -> Result<(), AllocError>
    ensures { OnOk result (body.new.items ≡ body.old.items ++ vector counts.now) }
{
    for count in counts {
        body.extend_from_slice(&count.to_be_bytes())?;
    }
    Ok(())
}

/// Makes the body of a pull from a front: the number of nodes in 1 byte, and the front's count of
/// each node in 8.
pub fn pull_body(alloc: Global, front: &Front) -> Result<Vec<u8>, AllocError>
    ensures { IfOk result (λ body. body.items ≡ pull_body front.now) }
{
    let mut body = Vec::new(alloc);
    body.push(front.nodes() as u8)?;
    push_counts(&mut body, front.as_slice())?;
    Ok(body)
}

/// Reads a number of 8 bytes.
fn number_in(bytes: &[u8]) -> u64
    requires { length bytes.now ≡ 8 }
    ensures { result ≡ from_be_bytes w64 bytes.now }
{
    let mut cells = [0; 8];
    cells.copy_from_slice(bytes);
    u64::from_be_bytes(cells)
}

/// Reads this many numbers of 8 bytes each from the start of the bytes.
fn counts_in(nodes: usize, bytes: &[u8]) -> Front
    requires some { 1 ≤ nodes }
    requires few { nodes ≤ MAX_NODES }
    requires there { 8 * nodes ≤ length bytes.now }
    ensures value { result ≡ counts_in nodes bytes.now }
    ensures nodes { length result ≡ nodes }
{
    let mut counts = [0; 8];
    let mut rest = bytes;
    for place in 0..nodes {
        let (number, after) = rest.split_at(8);
        counts[place] = number_in(number);
        rest = after;
    }
    Front::from_counts(&counts[..nodes])
}

fn are_counts(counts: &[u64]) -> bool
    ensures { result ≡ are_counts counts.now }
{
    counts.iter().all(|count| *count <= LAST_NUMBER)
}

/// Reads the front that all of the bytes behind the number of nodes encode.
fn front_in(nodes: usize, bytes: &[u8]) -> Result<Front, Refusal>
    requires some { 1 ≤ nodes }
    requires few { nodes ≤ MAX_NODES }
    ensures value { result ≡ front_in nodes bytes.now }
    ensures nodes { IfOk result (λ front. length front ≡ nodes) }
    ensures cause { IfErr result (λ refusal. (place : ℕ) × (refusal ≡ BadFrame place)) }
{
    if bytes.len() < 8 * nodes {
        return Err(Refusal::BadFrame(1));
    }
    let front = counts_in(nodes, bytes);
    if !are_counts(front.as_slice()) {
        return Err(Refusal::BadFrame(1));
    }
    if 8 * nodes < bytes.len() {
        return Err(Refusal::BadFrame(1 + 8 * nodes as u64));
    }
    Ok(front)
}

fn front_of_body(nodes: usize, body: &[u8]) -> Result<Front, Refusal>
    requires some { 1 ≤ nodes }
    requires few { nodes ≤ MAX_NODES }
    ensures value { result ≡ asked nodes body.now }
    ensures nodes { IfOk result (λ front. length front ≡ nodes) }
    ensures cause { IfErr result (λ refusal. (place : ℕ) × (refusal ≡ BadFrame place)) }
{
    let Some((count, counts)) = body.split_first() else {
        return Err(Refusal::BadFrame(0));
    };
    if usize::from(*count) != nodes {
        return Err(Refusal::BadFrame(0));
    }
    front_in(nodes, counts)
}

/// Returns the front from which the body of a pull asks. The node that reads it counts 1 to 8
/// nodes. It takes no memory. E16 at place 0 if the body counts another number of nodes, at 1 if
/// the front isn't whole or has a count of more than 48 bits, and just past the front if bytes are
/// left over.
pub fn front_of_pull(nodes: usize, body: &[u8]) -> Result<Front, Refusal>
    requires some { 1 ≤ nodes }
    requires few { nodes ≤ MAX_NODES }
    // Which front, or which place, the result is.
    ensures exact { result ≡ asked nodes body.now }
    // The refusal is a place, whatever other refusals there are.
    ensures cause { IfErr result (λ refusal. (place : ℕ) × (refusal ≡ BadFrame place)) }
    // A front that is read keeps the rules, and the body encodes it.
    ensures found { IfOk result (λ front. IsAsked nodes front × (body.now ≡ pull_body front)) }
    // A front that the body encodes is read.
    ensures only { (front : List ℕ) →
        IsAsked nodes front → body.now ≡ pull_body front → result ≡ Ok front }
{
    front_of_body(nodes, body)
}
