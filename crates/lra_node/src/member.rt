// Members of a group: one node, or some, whose other nodes run in processes of their own.

ghost use Rattle.state_ids.specs.declared.TheConstants.{MAX_NODES};
ghost use Rattle.node_worker.specs.Groups.{is_group_name};
ghost use Rattle.std.specs.Prelude.{◌≡◌, ◌≤◌, IfNone, IfOk, IfSome, IsFalse, IsSomeAnd, min, option_map, string_bytes, unwrap_or, vec_len};

use node_agenda::Keep;
use node_server::LocalMembers;
use node_threads::{Build, Wants};
use node_worker::GroupName;
use program_args::{COMMIT, KIT, MemberArgs, MemberError, VERSION, asked_by, is_version};
use std::alloc::Global;

const USAGE: &str =
    "usage: lra_node member I|I-J DIR [listen=IP:PORT] [operate=IP:PORT] [names=NAME,..] [keep=MS] [keep-failed=MS] [group=NAME] [copies=K] [patience=MS] [strict] [anew] HOST:PORT.. | lra_node member --version";

/// How many milliseconds an answer waits for copies, if the words don't say it.
const PATIENCE_MS: u64 = 1_000;

/// Makes the settings for copies: how many are wanted, how long an answer waits for them, and
/// whether it is withheld after that.
fn wants_of(copies: Option<u64>, patience: Option<u64>, is_strict: bool) -> Wants
    ensures { result ≡ record { copies = min (unwrap_or copies 0) 7; patience_ms = unwrap_or patience 1000; is_strict = is_strict } }
{
    Wants {
        copies: copies.unwrap_or(0).min(7) as u8,
        patience_ms: patience.unwrap_or(PATIENCE_MS),
        is_strict,
    }
}

/// Returns the members that are asked for, and the folder in which their journals lie; `None` if the
/// group's name is no such name.
fn members_from(asked: MemberArgs, build: Build) -> Option<(LocalMembers, String)>
    ensures nodes { IfSome result (λ made. (made.0.first ≡ asked.first) × (made.0.last ≡ asked.last)
        × (made.0.peers ≡ asked.peers) × (made.1 ≡ asked.folder)) }
    ensures choices { IfSome result (λ made. (made.0.listen ≡ asked.listen) × (made.0.operate ≡ asked.operate)
        × (made.0.names ≡ asked.names) × (made.0.keep.ended ≡ asked.ended) × (made.0.keep.failed ≡ asked.failed)
        × (made.0.group ≡ option_map string_bytes asked.group)
        × (made.0.wants.copies ≡ min (unwrap_or asked.copies 0) 7) × (made.0.wants.patience_ms ≡ unwrap_or asked.patience 1000)
        × (made.0.wants.is_strict ≡ asked.strict) × (made.0.anew ≡ asked.anew)
        × (made.0.build ≡ build)) }
    ensures none { IfNone result (IsSomeAnd asked.group (λ name. IsFalse (is_group_name (string_bytes name)))) }
{
    let MemberArgs {
        first,
        last,
        folder,
        listen,
        operate,
        names,
        ended,
        failed,
        group,
        copies,
        patience,
        strict,
        anew,
        peers,
    } = asked;
    let group = match group {
        Some(text) => {
            let Some(name) = GroupName::new(text) else {
                return None;
            };
            Some(name)
        }
        None => None,
    };
    let members = LocalMembers {
        first,
        last,
        peers,
        listen,
        operate,
        names,
        keep: Keep { ended, failed },
        group,
        wants: wants_of(copies, patience, strict),
        anew,
        build,
    };
    Some((members, folder))
}

/// Returns the members of this build that are asked for, and the folder in which their journals lie;
/// `None` if memory ran out, or if the group's name is no such name, which `asked_by` has refused.
fn built(alloc: Global, asked: MemberArgs) -> Option<(LocalMembers, String)>
    ensures { IfSome result (λ made. made.0.peers ≡ asked.peers) }
{
    let Ok(build) = Build::said(alloc, VERSION, COMMIT, KIT) else {
        return None;
    };
    members_from(asked, build)
}

/// Returns the members that the words ask for, with the folder in which their journals lie. If there is
/// nothing to run, it prints which build this is, or the wrong word and the usage, and returns the
/// exit status: 0 if the words ask for the version, 2 if they ask for nothing, 1 if memory ran out.
pub fn members_of(rt: &HostRuntime, words: &[String]) -> Result<(LocalMembers, String), u8>
    ensures { IfOk result (λ made. (1 ≤ vec_len made.0.peers) × (vec_len made.0.peers ≤ MAX_NODES)) }
{
    if is_version(words) {
        let _ = println!(rt; "lra_node {}, commit {}, {}", VERSION, COMMIT, KIT);
        return Err(0);
    }
    match asked_by(rt.alloc(), words) {
        Ok(asked) => built(rt.alloc(), asked).ok_or(1),
        Err(MemberError::NoMemory) => Err(1),
        Err(MemberError::Wrong(wrong)) => {
            let _ = eprintln!(rt; "lra_node: {}", wrong);
            let _ = eprintln!(rt; "{}", USAGE);
            Err(2)
        }
    }
}
