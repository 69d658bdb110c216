// Writes the counts of a node in the text format of Prometheus, version 0.0.4.

use node_core::{CALL_NAMES, HEARD, KINDS, NodeCounts, PULLS, REFUSALS, RUNS, SWEPT};
use node_sockets::now;
use node_threads::{Build, Node};
use state_forest::MAX_HELD;
use state_ids::{LraStatus, MAX_NODES, NodeId};
use std::alloc::{AllocError, Global};
use std::sync::Wait;
use std::time::{Clock, Duration};

/// The statuses, in the order of their ranks.
const STATUSES: [LraStatus; 7] = [
    LraStatus::Active,
    LraStatus::Closing,
    LraStatus::Closed,
    LraStatus::FailedToClose,
    LraStatus::Cancelling,
    LraStatus::Cancelled,
    LraStatus::FailedToCancel,
];

/// A text that grows line by line.
#[derive(Drop)]
struct MetricsPage {
    alloc: Global,
    node: u8,
    text: Vec<u8>,
}

impl MetricsPage {
    fn push(&mut self, text: &str) -> Result<(), AllocError> {
        self.text.extend_from_slice(text.as_bytes())
    }

    fn push_number(&mut self, number: u64) -> Result<(), AllocError> {
        let digits = number.to_string(self.alloc)?;
        self.push(digits.as_str())
    }

    /// Begins a family: what it counts, and its type.
    fn family(&mut self, name: &str, kind: &str, help: &str) -> Result<(), AllocError> {
        self.push("# HELP ")?;
        self.push(name)?;
        self.push(" ")?;
        self.push(help)?;
        self.push("\n# TYPE ")?;
        self.push(name)?;
        self.push(" ")?;
        self.push(kind)?;
        self.push("\n")
    }

    /// Writes a line's name, with the node's number.
    fn open(&mut self, name: &str) -> Result<(), AllocError> {
        self.push(name)?;
        self.push("{node=\"")?;
        self.push_number(u64::from(self.node))?;
        self.push("\"")
    }

    /// Writes one more label.
    fn label(&mut self, name: &str, value: &str) -> Result<(), AllocError> {
        self.push(",")?;
        self.push(name)?;
        self.push("=\"")?;
        self.push(value)?;
        self.push("\"")
    }

    /// Writes one more label, with a number.
    fn label_number(&mut self, name: &str, value: u64) -> Result<(), AllocError> {
        let digits = value.to_string(self.alloc)?;
        self.label(name, digits.as_str())
    }

    /// Ends a line.
    fn close(&mut self, value: u64) -> Result<(), AllocError> {
        self.push("} ")?;
        self.push_number(value)?;
        self.push("\n")
    }

    /// Writes a family of one line.
    fn single(&mut self, name: &str, kind: &str, help: &str, value: u64) -> Result<(), AllocError> {
        self.family(name, kind, help)?;
        self.open(name)?;
        self.close(value)
    }

    /// Writes a line for each of some names.
    fn named(
        &mut self,
        name: &str,
        label: &str,
        names: &[&str],
        values: &[u64],
    ) -> Result<(), AllocError> {
        for (word, value) in names.iter().zip(values) {
            self.open(name)?;
            self.label(label, *word)?;
            self.close(*value)?;
        }
        Ok(())
    }
}

fn push_refusals(page: &mut MetricsPage, numbers: &NodeCounts) -> Result<(), AllocError> {
    let name = "lra_refused_total";
    page.family(name, "counter", "Calls that were refused.")?;
    for place in 0..REFUSALS {
        let number = (place as u64).saturating_add(1).to_string(page.alloc)?;
        page.open(name)?;
        page.push(",refusal=\"E")?;
        page.push(number.as_str())?;
        page.push("\"")?;
        page.close(numbers.refused[place])?;
    }
    Ok(())
}

fn push_callbacks(page: &mut MetricsPage, numbers: &NodeCounts) -> Result<(), AllocError> {
    let name = "lra_callbacks_total";
    page.family(name, "counter", "Calls of participants, by their answers.")?;
    for (kind, row) in KINDS.iter().zip(&numbers.callbacks) {
        for (heard, value) in HEARD.iter().zip(row) {
            page.open(name)?;
            page.label("kind", *kind)?;
            page.label("heard", *heard)?;
            page.close(*value)?;
        }
    }
    Ok(())
}

fn push_pulls_from(page: &mut MetricsPage, other: u64, row: &[u64; 4]) -> Result<(), AllocError> {
    for (came, value) in PULLS.iter().zip(row) {
        page.open("lra_pulls_total")?;
        page.label_number("from", other)?;
        page.label("came", *came)?;
        page.close(*value)?;
    }
    Ok(())
}

fn push_pulls(page: &mut MetricsPage, node: &Node, numbers: &NodeCounts) -> Result<(), AllocError> {
    page.family("lra_pulls_total", "counter", "Pulls from other nodes.")?;
    for other in 1..=node.nodes {
        if other != node.number() {
            let row = &numbers.pulls[usize::from(other.clamp(1, MAX_NODES) - 1)];
            push_pulls_from(page, u64::from(other), row)?;
        }
    }
    Ok(())
}

fn push_ages(
    page: &mut MetricsPage,
    node: &Node,
    numbers: &NodeCounts,
    now: Duration,
) -> Result<(), AllocError> {
    let name = "lra_pulled_seconds";
    page.family(
        name,
        "gauge",
        "How long ago a pull last succeeded, or since the start if none did.",
    )?;
    for other in 1..=node.nodes {
        if other != node.number() {
            let pulled = numbers.pulled[usize::from(other.clamp(1, MAX_NODES) - 1)];
            let since = now.saturating_sub(pulled.unwrap_or(node.started()));
            page.open(name)?;
            page.label_number("from", u64::from(other))?;
            page.close(since.as_secs())?;
        }
    }
    Ok(())
}

fn push_front<R: Wait>(page: &mut MetricsPage, rt: &R, node: &Node) -> Result<(), AllocError> {
    let name = "lra_front";
    page.family(name, "gauge", "Facts of each node that this node has.")?;
    let front = node.core.front(rt);
    let mut of = 0u64;
    for count in front.as_slice() {
        of = of.saturating_add(1);
        page.open(name)?;
        page.label_number("of", of)?;
        page.close(*count)?;
    }
    Ok(())
}

fn push_held<R: Wait>(page: &mut MetricsPage, rt: &R, node: &Node) -> Result<(), AllocError> {
    let name = "lra_held";
    page.family(name, "gauge", "LRAs of the node's home, by what they show.")?;
    let held = node.core.held(rt);
    for (status, value) in STATUSES.iter().zip(&held) {
        page.open(name)?;
        page.label("status", status.name())?;
        page.close(*value)?;
    }
    page.single(
        "lra_held_limit",
        "gauge",
        "The most LRAs that the home may hold.",
        MAX_HELD as u64,
    )
}

/// Writes which build of the program runs, if that is known.
fn push_build(page: &mut MetricsPage, build: Option<&Build>) -> Result<(), AllocError> {
    let Some(build) = build else {
        return Ok(());
    };
    let name = "lra_build_info";
    page.family(name, "gauge", "Which build of the program runs.")?;
    page.open(name)?;
    page.label("version", build.version.as_str())?;
    page.label("commit", build.commit.as_str())?;
    page.label("kit", build.kit.as_str())?;
    page.close(1)
}

/// Writes the families of calls and runs.
fn push_calls(page: &mut MetricsPage, numbers: &NodeCounts) -> Result<(), AllocError> {
    page.family("lra_calls_total", "counter", "Calls at the desk, by kind.")?;
    page.named("lra_calls_total", "call", &CALL_NAMES, &numbers.calls)?;
    push_refusals(page, numbers)?;
    page.family("lra_runs_total", "counter", "Runs that ended, by cause.")?;
    page.named("lra_runs_total", "why", &RUNS, &numbers.runs)?;
    let failures = numbers.failures;
    let help = "Failures of the journal, and failed attempts to reopen it.";
    page.single("lra_journal_failures_total", "counter", help, failures)
}

/// Writes the families of participants.
fn push_participants<R: Wait>(
    page: &mut MetricsPage,
    rt: &R,
    node: &Node,
    numbers: &NodeCounts,
    now: Duration,
) -> Result<(), AllocError> {
    push_callbacks(page, numbers)?;
    let help =
        "Participants that wait for a call, are being called, or pause before the next call.";
    page.single("lra_callbacks_due", "gauge", help, node.core.due(rt))?;
    let (count, oldest) = node.core.in_vain(rt, now);
    let help = "Participants whose calls fail.";
    page.single("lra_callbacks_vain", "gauge", help, count)?;
    let help = "The longest time for which a participant's calls have failed.";
    page.single(
        "lra_callbacks_oldest_seconds",
        "gauge",
        help,
        oldest.as_secs(),
    )
}

fn push_told<R: Wait>(page: &mut MetricsPage, rt: &R, node: &Node) -> Result<(), AllocError> {
    let name = "lra_told";
    let help = "Facts of this node that another node says it has stored.";
    page.family(name, "gauge", help)?;
    for number in 1..=node.nodes {
        let Ok(other) = NodeId::new(number) else {
            continue;
        };
        if other != node.me {
            page.open(name)?;
            page.label_number("by", u64::from(number))?;
            page.close(node.core.acknowledged(rt, other))?;
        }
    }
    Ok(())
}

/// Writes the families of requests and calls that wait until other nodes have what is stored here.
fn push_waiting<R: Wait>(page: &mut MetricsPage, rt: &R, node: &Node) -> Result<(), AllocError> {
    let help = "Pulls from other nodes that wait until there is something new.";
    page.single("lra_pulls_held", "gauge", help, node.queue.holding())?;
    if node.nodes > 1 {
        push_told(page, rt, node)?;
    }
    let help = "Answers that wait until other nodes have stored what they show.";
    page.single("lra_answers_waiting", "gauge", help, node.queue.promises())?;
    let name = "lra_answers_waited_total";
    let help =
        "Answers and lists of callbacks that waited for copies, by whether these came in time.";
    page.family(name, "counter", help)?;
    let waited = node.core.waited(rt);
    page.named(
        name,
        "came",
        &["copied", "late"],
        &[waited.copied, waited.late],
    )?;
    let help = "Whether other nodes have been behind for longer than an answer waits.";
    let short = u64::from(node.core.is_short(rt));
    page.single("lra_copies_short", "gauge", help, short)
}

/// Writes the families of other nodes and connections.
fn push_others<R: Wait>(
    page: &mut MetricsPage,
    rt: &R,
    node: &Node,
    numbers: &NodeCounts,
    now: Duration,
) -> Result<(), AllocError> {
    if node.nodes > 1 {
        push_pulls(page, node, numbers)?;
        push_ages(page, node, numbers, now)?;
    }
    push_waiting(page, rt, node)?;
    push_front(page, rt, node)?;
    push_held(page, rt, node)?;
    page.single(
        "lra_queue",
        "gauge",
        "Connections that wait for a worker.",
        node.queue.waiting(rt),
    )?;
    let help = "Accepted connections.";
    page.single("lra_connections_total", "counter", help, numbers.accepted)?;
    let help = "Connections that were closed because no file descriptor was left.";
    page.single("lra_closed_total", "counter", help, numbers.closed)?;
    page.family(
        "lra_swept_total",
        "counter",
        "Purges that the node made on its own.",
    )?;
    page.named("lra_swept_total", "came", &SWEPT, &numbers.swept)
}

/// Returns the counts of a node, in the text format of Prometheus.
pub fn metrics_of<R: Wait + Clock>(
    rt: &R,
    alloc: Global,
    node: &Node,
) -> Result<Vec<u8>, AllocError> {
    let now = now(rt);
    let numbers = node.counts.numbers(rt);
    let mut page = MetricsPage {
        alloc,
        node: node.number(),
        text: Vec::new(alloc),
    };
    page.single("lra_up", "gauge", "Whether the node runs.", 1)?;
    push_build(&mut page, node.build())?;
    let ready = u64::from(node.unready(rt).is_none());
    page.single(
        "lra_ready",
        "gauge",
        "Whether the node accepts commands.",
        ready,
    )?;
    let help = "When the node started, in seconds since 1970.";
    page.single("lra_start_seconds", "gauge", help, node.start_seconds())?;
    push_calls(&mut page, &numbers)?;
    push_participants(&mut page, rt, node, &numbers, now)?;
    push_others(&mut page, rt, node, &numbers, now)?;
    Ok(page.text)
}
