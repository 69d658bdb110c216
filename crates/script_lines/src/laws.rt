// Laws of scripts: how lines and scripts are read, and that a script is one run of the world. Each
// function does nothing, and its contract is the law.
ghost use Rattle.std.specs.Prelude.{◌≡◌, ◌≤◌, ◌∷◌, ℕ, List, IfSome};
ghost use Rattle.state_ids.specs.declared.TheConstants.{MAX_NODES};
ghost use Rattle.wire_http.specs.Streams.{Calls, GivenBytes, TakenBytes, TakesPart};
ghost use Rattle.script_world.specs.Worlds.{IsWorld, State, nodes_of};
ghost use Rattle.script_lines.specs.declared.asking.Ask.{Ask};
ghost use Rattle.script_lines.specs.Asks.{Spells};
ghost use Rattle.script_lines.specs.LineParts.{lines_of};
ghost use Rattle.script_lines.specs.ScriptEnds.{HasRun, IsPut, WritesPart};
ghost use Rattle.script_lines.specs.Scripts.{AreOneRun, Plays, ScriptText, TextInRoom};

/// A line spells at most one ask.
pub fn a_line_spells_one_ask()
    ensures { (nodes : ℕ) (line : List ℕ) (a b : Ask) →
        nodes ≤ MAX_NODES → Spells nodes line a → Spells nodes line b → a ≡ b }
{}

/// A script has only one text, unless memory runs out: if no line ran out of memory in two texts of
/// the same lines from the same state, the texts are equal, and so are the states that they lead
/// through.
pub fn a_script_has_one_text()
    ensures one { (nodes : ℕ) (s : State) (lines : List (List ℕ)) (a b : List ℕ)
        (states others : List State) → nodes ≤ MAX_NODES → TextInRoom nodes s lines a states →
        TextInRoom nodes s lines b others → (a ≡ b) × (states ≡ others) }
    ensures text { (nodes : ℕ)
        (s : State) (lines : List (List ℕ)) (a : List ℕ) (states : List State) →
        TextInRoom nodes s lines a states → ScriptText nodes s lines a states }
{}

/// Whatever the lines of a script are, the states that they lead through are those of one run of
/// the world: a line is an event of it or no event.
pub fn a_script_is_one_run()
    ensures { (nodes : ℕ) (s : State) (lines : List (List ℕ)) (out : List ℕ) (states : List State) →
        IsWorld s → nodes_of s ≡ nodes →
        ScriptText nodes s lines out states → AreOneRun (s ∷ states) }
{}

/// If the bytes of the input are known, a script that ended has written the text of all of them,
/// and one that stopped early a prefix of that text.
pub fn a_script_is_of_its_input()
    ensures text { (nodes : ℕ) (old new : GivenBytes)
        (before after : TakenBytes) (reads_before reads writes_before writes : Calls) →
        HasRun nodes old new before after reads_before reads writes_before writes → IfSome old.left
        (λ input. (out : List ℕ) × Plays nodes (lines_of input) out × IsPut before after out) }
    ensures part { (nodes : ℕ) (old new : GivenBytes) (before after : TakenBytes) →
        WritesPart nodes old new before after → IfSome old.left (λ input. (out : List ℕ)
        × Plays nodes (lines_of input) out × TakesPart before after out) }
{}
