// Laws of what other nodes have of a node's facts. Each function does nothing, and its contract is
// the law.
ghost use Rattle.std.specs.Prelude.{◌≡◌, ◌≤◌, ◌<◌, ◌+◌, ◌==◌, ◌∷◌, [], ℕ, Bool, List, length, true};
ghost use Rattle.state_ids.specs.Fronts.{IsBelow, count};
ghost use Rattle.theory_history.specs.Views.{View, empty_view};
ghost use Rattle.wire_frames.specs.Frames.{Frame};
ghost use Rattle.script_world.specs.Worlds.{State};
ghost use Rattle.state_book.specs.declared.calls.Call.TheVariants.{Pull};
ghost use Rattle.state_book.specs.declared.calls.Reply.TheVariants.{Gave};
ghost use Rattle.state_book.specs.declared.calls.Call.TheVariants.{Take};
ghost use Rattle.state_book.specs.declared.calls.Entry.{Entry};
ghost use Rattle.state_book.specs.declared.calls.Reply.TheVariants.{Took};
ghost use Rattle.state_book.specs.Next.{IsNext};
ghost use Rattle.state_book.specs.Trails.{LeadsTo};
ghost use Rattle.node_replication.specs.Spreads.{holders};
ghost use Rattle.theory_trail.specs.Copies.{HearsEach, TakesIn, missed};
ghost use Rattle.theory_trail.specs.NodeTrails.{Arrival, IsPlayed, IsServed, Item, WasSent, trail_of};

/// A frame that a node gives counts, for each node, at least as many facts as the giving node held
/// at any earlier moment. So it has each fact that was stored before it was asked for.
pub fn a_frame_has_what_was_stored_before_it()
    ensures { (me now : ℕ) (s t : State) (a b c : View) (items : List Item) (body : List ℕ) (delta : Frame) →
        IsPlayed me s a items t b → IsNext me b (Pull body) now (Gave delta) c → IsBelow a.front delta.front }
{}

/// From the moment a node gives or takes a frame, it holds what that frame counts. So it has stored
/// what it tells by its next pull, which is what these frames counted.
pub fn a_front_that_is_told_is_held()
    ensures gave { (me now : ℕ) (s t : State) (a b c : View) (items : List Item) (body : List ℕ) (delta : Frame) →
        IsNext me c (Pull body) now (Gave delta) a → IsPlayed me s a items t b → IsBelow delta.front b.front }
    ensures took { (me : ℕ) (s t : State) (a b : View) (items : List Item) (delta : Frame) →
        IsPlayed me s a items t b → TakesIn (trail_of items) delta → IsBelow delta.front b.front }
{}

/// A lost node gets its facts back. If at least `wanted` other nodes told that they have n facts of
/// a node, and its trail takes a frame of all other nodes but fewer than `wanted`, the node has its
/// first n facts again, whatever it began with. A lost disk is such a case (`disk`): node 1 of two begins
/// with nothing, and takes a frame of node 2 that counts as many of its facts as node 2 had told.
pub fn a_lost_node_takes_back_what_was_copied()
    ensures taken_back { (me wanted n : ℕ) (told : List ℕ) (heard : ℕ → Bool) (a b : View) (trail : List Entry) →
        LeadsTo me a trail b → wanted ≤ holders me n told → missed me (length told) heard < wanted →
        HearsEach me heard told trail → n ≤ count b.front me }
    ensures disk { (now : ℕ) (delta : Frame) (b : View) → IsNext 1 (empty_view 2) (Take delta) now Took b →
        (trail : List Entry) × LeadsTo 1 (empty_view 2) trail b
        × (1 ≤ holders 1 (count delta.front 1) (0 ∷ count delta.front 1 ∷ []))
        × (missed 1 2 (λ node. node == 2) < 1)
        × HearsEach 1 (λ node. node == 2) (0 ∷ count delta.front 1 ∷ []) trail }
{}

/// If a node takes a frame of each other node, the next number that it gives is new to all of them.
pub fn its_numbers_go_on()
    ensures { (me : ℕ) (told : List ℕ) (heard : ℕ → Bool) (a b : View) (trail : List Entry) →
        LeadsTo me a trail b → ((node : ℕ) → (node ≡ me → ⊥) → heard node ≡ true) →
        HearsEach me heard told trail → (node : ℕ) → (node ≡ me → ⊥) →
        count told node < count b.front me + 1 }
{}

/// A node of a world lacks none of its own facts: no frame brings it any that it doesn't have. So a node
/// that lost its journal is none of a world until it has taken its facts back, and the two laws above
/// speak of its trail alone.
pub fn a_node_of_a_world_lacks_none_of_its_own_facts()
    ensures { (me : ℕ) (s : State) (a : View) (delta : Frame) (frame : Arrival) →
        IsServed me s a → WasSent s frame (Take delta) Took → count delta.front me ≤ count a.front me }
{}
