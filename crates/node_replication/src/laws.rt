// Laws of replication: whose answers wait for copies, and when another node is asked. Each function
// does nothing, and its contract is the law. The laws over steps, or over pulls, speak of everything
// that may happen to a node since its start, with the last event first in a list. The others speak
// of one step, from any state.
ghost use Rattle.std.specs.Prelude.{◌≡◌, ◌≢◌, ◌⊎◌, ◌<◌, ◌≤◌, ◌+◌, ◌++◌, ◌∷◌, [], ℕ, All, Bool, IfSome, List, None, Option, Some, false, length, replicate, true};
ghost use Rattle.std.specs.Duration.{as_nanos};
ghost use Rattle.std.specs.declared.time.Duration.{Duration as TheDuration};
ghost use Rattle.state_ids.specs.Fronts.{count};
ghost use Rattle.node_replication.specs.Outlooks.{Failure, Trouble, after_failures, is_due, none, since_of, with_failure};
ghost use Rattle.node_replication.specs.Paces.{Pace, at_rest, given_at, moment_of, verdict_of, with_begin, with_end};
ghost use Rattle.node_replication.specs.Pulls.{Came, HoldsNone, behind, behind_all, nothing_at_once, round_after};
ghost use Rattle.node_replication.specs.Spreads.{Spread, is_covered, last_ticket, looked, put, standing_of, target};
ghost use Rattle.node_replication.specs.declared.mark.Mark.{Mark as TheMark};
ghost use Rattle.node_replication.specs.Steps.{Asks, Begins, Ends, Gives, Hears, Looks, Node, Step, WasCopied, after_all, at_start, begins_in, copied_at, drawn_by, ends_in, first_of_three, last_told, second};
ghost use Rattle.node_replication.specs.declared.pulls.NextPull.{NextPull as ThePull};
ghost use Rattle.node_replication.specs.declared.pulls.Pulled.{Pulled as ThePulled};
ghost use Rattle.node_replication.specs.declared.pulls.Pulled.TheVariants.{Kept, New, Nothing, Untaken};
ghost use Rattle.node_replication.specs.Waits.{Wait, after_of, fate_of, nobody, with_calls, with_question};
ghost use Rattle.node_replication.specs.declared.standing.CallbackFate.TheVariants.{Called, OnHold, Outdated};
ghost use Rattle.node_replication.specs.declared.standing.Standing.TheVariants.{Late as IsLate, Waits as DoesWait};
ghost use Rattle.node_replication.specs.declared.standing.PullDecision.TheVariants.{Later as ToLater, Soon as ToSoon};
ghost use Rattle.node_replication.specs.declared.waiters.CallsHeld.{CallsHeld as TheCalls};

/// Of two drawn tickets the later is greater, unless the earlier is the last ticket that there is.
/// So a fact's ticket is above each that was drawn before it, and below that of each frame that is
/// asked for after it.
pub fn a_later_ticket_is_greater()
    ensures { (node : Node) (between earlier : List Step) (one later : Step) →
        0 < drawn_by one (after_all earlier (at_start node)) →
        drawn_by one (after_all earlier (at_start node)) < last_ticket →
        0 < drawn_by later (after_all (between ++ one ∷ earlier) (at_start node)) →
        drawn_by one (after_all earlier (at_start node)) < drawn_by later (after_all (between ++ one ∷ earlier) (at_start node)) }
{}

/// What is covered was copied. The covered ticket is either 0 or that of a frame that was given,
/// and at some moment since then as many other nodes as are wanted had reported all facts that the
/// frame counts. What a node reported is its last report, or nothing if that was more than there
/// was.
pub fn what_is_covered_was_copied()
    ensures covered { (node : Node) (steps : List Step) →
        ((after_all steps (at_start node)).covered ≡ 0)
        ⊎ WasCopied (after_all steps (at_start node)).covered steps (at_start node) }
    ensures told { (node : Node) (other : ℕ) (steps : List Step) →
        1 ≤ other → other ≤ node.nodes → other ≢ node.me →
        count (after_all steps (at_start node)).others.told other ≡ last_told other steps (at_start node) }
{}

/// A fact isn't covered by a frame that was asked for before the fact was stored.
pub fn what_came_later_is_not_covered()
    ensures { (node : Node) (later between earlier : List Step) → 0 < node.wanted →
        (after_all (later ++ (Ends true ∷ (between ++ (Asks ∷ earlier)))) (at_start node)).covered ≡ drawn_by Asks (after_all earlier (at_start node)) →
        is_covered (drawn_by (Ends true) (after_all (between ++ (Asks ∷ earlier)) (at_start node)))
        (after_all (later ++ (Ends true ∷ (between ++ (Asks ∷ earlier)))) (at_start node)) ≡ false }
{}

/// Sixty-four given frames are remembered. Only one more takes the place of the last.
pub fn sixty_four_frames_are_remembered()
    ensures { (mark : TheMark) (marks : List TheMark) → length marks < 64 → put mark marks ≡ marks ++ mark ∷ [] }
{}

/// An answer waits for each fact that was stored before it looked, unless that fact is covered.
/// While more calls have begun than are over, a new ticket is drawn for what those may have stored.
pub fn who_looks_waits_for_what_was_stored()
    ensures stored { (node : Node) (later earlier : List Step) →
        (is_covered (drawn_by (Ends true) (after_all earlier (at_start node))) (looked (after_all (later ++ (Ends true ∷ earlier)) (at_start node))) ≡ true)
        ⊎ (drawn_by (Ends true) (after_all earlier (at_start node)) ≤ target (looked (after_all (later ++ (Ends true ∷ earlier)) (at_start node)))) }
    ensures under_way { (node : Node) (steps : List Step) → 0 < node.wanted → length steps ≤ last_ticket → ends_in steps < begins_in steps →
        0 < drawn_by Looks (after_all steps (at_start node)) }
{}

/// Nothing waits for ever. An answer waits no longer than the patience, and neither does a list of
/// duties unless it is strict. A pull without news waits at most four seconds, and one with news
/// until 50 ms after the last frame that its asker got.
pub fn nobody_waits_for_ever()
    ensures answers { (ticket : ℕ) (since now : TheDuration) (is_strict : Bool) (s : Spread) →
        as_nanos since + as_nanos s.patience ≤ as_nanos now →
        standing_of ticket since now is_strict s ≢ DoesWait }
    ensures pulls { (nodes other : ℕ) (since now : TheDuration) (has_news lacks_others : Bool) (p : Pace) →
        as_nanos since + 4_000_000_000 ≤ as_nanos now →
        verdict_of nodes other since has_news lacks_others now p ≢ ToLater }
    ensures apart { (nodes other : ℕ) (since now at : TheDuration) (has_news lacks_others : Bool) (p : Pace) →
        moment_of p.given other ≡ Some at → as_nanos at + 50_000_000 ≤ as_nanos now →
        verdict_of nodes other since has_news lacks_others now p ≢ ToSoon }
    ensures first { (nodes other : ℕ) (since now : TheDuration) (has_news lacks_others : Bool) (p : Pace) →
        moment_of p.given other ≡ None →
        verdict_of nodes other since has_news lacks_others now p ≢ ToSoon }
    ensures lists { (calls : TheCalls) (now : TheDuration) (s : Spread) (asks_again : Bool) →
        as_nanos calls.since + as_nanos s.patience ≤ as_nanos now →
        fate_of (Some calls) now false s asks_again ≢ OnHold }
{}

/// If calls are strict, no participant is called before other nodes have what was seen. What was
/// seen then may no longer be so: from the moment a list is late it is too old, and no participant
/// is called by it.
pub fn nobody_is_called_by_a_list_that_was_late()
    ensures strict { (calls : TheCalls) (now : TheDuration) (s : Spread) (asks_again : Bool) → is_covered calls.ticket s ≡ false →
        (fate_of (Some calls) now true s asks_again ≡ OnHold) ⊎ (fate_of (Some calls) now true s asks_again ≡ Outdated) }
    ensures outdated { (calls : TheCalls) (now : TheDuration) (is_strict : Bool) (s : Spread) (w : Wait) →
        fate_of (Some calls) now is_strict s w.asks_again ≡ Outdated →
        IfSome (after_of (Some calls) now is_strict s w).calls (λ (left : TheCalls). left.is_old ≡ true) }
    ensures kept { (calls : TheCalls) (now : TheDuration) (is_strict : Bool) (s : Spread) (w : Wait) → calls.is_old ≡ true →
        IfSome (after_of (Some calls) now is_strict s w).calls (λ (left : TheCalls). left.is_old ≡ true) }
    ensures old { (calls : TheCalls) (now : TheDuration) (is_strict : Bool) (s : Spread) (asks_again again : Bool) → calls.is_old ≡ true →
        fate_of (Some calls) now is_strict s asks_again ≢ Called again }
{}

/// If asking for a new list was put off because participants waited, it is made up for once they no
/// longer wait: they aren't called without it.
pub fn what_was_put_off_is_asked()
    ensures { (now : TheDuration) (is_strict : Bool) (s : Spread) (w : Wait) →
        fate_of (with_question w).calls now is_strict s (with_question w).asks_again ≢ Called false }
{}

/// What was received and isn't taken yet is soon asked for once more: the next pull waits neither
/// at the other node nor for its news.
pub fn what_is_untaken_is_asked_for_soon()
    ensures pause { (is_held asks_waiting : Bool) (p : ThePull) → (behind Untaken is_held asks_waiting p).pause_ms ≤ 50 }
    ensures wait { (is_held asks_waiting : Bool) (p : ThePull) → (behind Untaken is_held asks_waiting p).wait_ms ≡ 0 }
    ensures waits { (is_held asks_waiting : Bool) (p : ThePull) → (behind Untaken is_held asks_waiting p).waits ≡ false }
{}

/// What the journal can't store isn't sent again and again: the next pull pauses for a round, and
/// each round is twice as long as the one before, up to five seconds.
pub fn what_can_not_be_stored_is_asked_for_after_a_round()
    ensures { (is_held asks_waiting : Bool) (p : ThePull) →
        ((behind Kept is_held asks_waiting p).pause_ms ≡ round_after Kept p.round_ms)
        × ((behind Kept is_held asks_waiting p).round_ms ≡ round_after Kept p.round_ms)
        × ((behind Kept is_held asks_waiting p).waits ≡ false) }
{}

/// A node of an older version, which holds no pull and sends none that waits, isn't asked in a
/// rush. After 33 pulls in a row that brought nothing and returned at once, if none before them was
/// held, the next one waits five seconds for news of that node.
pub fn one_of_an_older_version_is_not_asked_in_a_rush()
    ensures { (number : ℕ) (earlier : List Came) → 33 ≤ number → All HoldsNone earlier →
        (behind_all (replicate number nothing_at_once ++ earlier)).wait_ms ≡ 5_000 }
{}

/// Each node is asked again: a pause takes at most five seconds, and so does the wait for news. A
/// node that holds pulls is asked soon: at once after a pull that brought something or was held,
/// and after at most 50 ms after any other that brought nothing. The same holds for a node that
/// sends pulls that wait, even if it never held any: its answers may wait for what the next pull
/// reports to it.
pub fn each_node_is_asked_again()
    ensures again { (pulled : ThePulled) (is_held asks_waiting : Bool) (p : ThePull) →
        ((behind pulled is_held asks_waiting p).pause_ms ≤ 5_000) × ((behind pulled is_held asks_waiting p).wait_ms ≤ 5_000) }
    ensures brought { (is_held asks_waiting : Bool) (p : ThePull) →
        ((behind New is_held asks_waiting p).pause_ms ≡ 0) × ((behind New is_held asks_waiting p).wait_ms ≡ 0) }
    ensures held { (asks_waiting : Bool) (p : ThePull) →
        ((behind Nothing true asks_waiting p).pause_ms ≡ 0) × ((behind Nothing true asks_waiting p).wait_ms ≡ 0)
        × ((behind Nothing true asks_waiting p).holds ≡ true) }
    ensures known { (is_held asks_waiting : Bool) (p : ThePull) → p.holds ≡ true →
        ((behind Nothing is_held asks_waiting p).pause_ms ≤ 50) × ((behind Nothing is_held asks_waiting p).wait_ms ≡ 0) }
    ensures listens { (is_held : Bool) (p : ThePull) →
        ((behind Nothing is_held true p).pause_ms ≤ 50) × ((behind Nothing is_held true p).wait_ms ≡ 0) × ((behind Nothing is_held true p).holds ≡ true) }
{}

/// Trouble with another node is logged once nothing was received from it for five seconds, and then
/// not again, however many pulls fail, until it answers: that is logged too.
pub fn what_is_wrong_is_told_once()
    ensures soon { (began now : TheDuration) (t : Trouble) → t.is_told ≡ false →
        as_nanos (since_of t.since began) + 5_000_000_000 ≤ as_nanos now → is_due began now t ≡ true }
    ensures once { (first again : Failure) (between : List Failure) (t : Trouble) → is_due first.began first.now t ≡ true →
        is_due again.began again.now (after_failures between (with_failure first.began first.now t)) ≡ false }
    ensures told { (first : Failure) (between : List Failure) (t : Trouble) → is_due first.began first.now t ≡ true →
        (after_failures between (with_failure first.began first.now t)).is_told ≡ true }
{}

/// What these laws speak of does happen. Node 1 of three stores a fact, gives a frame that was
/// asked for after it, and node 2 reports that it has it. The same with a frame that was asked for
/// before the fact was stored. An answer that waits a second for it waits, and is late then. A node
/// that got a frame got it at that moment.
pub fn these_happen()
    ensures drawn { (patience : TheDuration) →
        (drawn_by (Ends true) (after_all (Begins ∷ []) (at_start (first_of_three patience))) ≡ 1)
        × (drawn_by Asks (after_all (Ends true ∷ (Begins ∷ [])) (at_start (first_of_three patience))) ≡ 2)
        × (drawn_by Looks (after_all (Begins ∷ []) (at_start (first_of_three patience))) ≡ 1) }
    ensures covered { (patience now : TheDuration) →
        (after_all (copied_at now) (at_start (first_of_three patience))).covered ≡ 2 }
    ensures told { (patience now : TheDuration) →
        last_told 2 (copied_at now) (at_start (first_of_three patience)) ≡ 1 }
    ensures uncovered { (patience now : TheDuration) →
        (after_all (Hears 2 1 now ∷ (Gives (record { ticket = 1; count = 1; at = now }) ∷ (Ends true ∷ (Begins ∷ (Asks ∷ [])))))
        (at_start (first_of_three patience))).covered
        ≡ drawn_by Asks (at_start (first_of_three patience)) }
    ensures waits { standing_of 1 (second 0) (second 0) true (after_all (Ends true ∷ (Begins ∷ [])) (at_start (first_of_three (second 1)))) ≡ DoesWait }
    ensures late { standing_of 1 (second 0) (second 1) true (after_all (Ends true ∷ (Begins ∷ [])) (at_start (first_of_three (second 1)))) ≡ IsLate }
    ensures had { (now : TheDuration) → moment_of (given_at 2 now at_rest).given 2 ≡ Some now }
    ensures soon { verdict_of 3 2 (second 0) true false (second 0) (given_at 2 (second 0) (with_begin (second 1) (with_end (second 0) at_rest))) ≡ ToSoon }
    ensures later { verdict_of 3 2 (second 0) false false (second 3) at_rest ≡ ToLater }
    ensures rush { ((behind_all (replicate 33 nothing_at_once)).wait_ms ≡ 5_000) × ((behind_all (replicate 32 nothing_at_once)).wait_ms ≡ 0) }
    ensures outdated { fate_of (with_calls 1 (second 0) nobody).calls (second 1) true
        (after_all (Ends true ∷ (Begins ∷ [])) (at_start (first_of_three (second 1)))) false ≡ Outdated }
    ensures called { (patience now : TheDuration) →
        fate_of (with_calls 2 now nobody).calls now true (after_all (copied_at now) (at_start (first_of_three patience))) false ≡ Called false }
    ensures due { is_due (second 0) (second 5) none ≡ true }
{}
