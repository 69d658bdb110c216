// Laws of frames. Each function but one does nothing, and its contract is the law.
ghost use Rattle.std.specs.Prelude.{◌++◌, ◌≡◌, ◌≤◌, ℕ, List, Ok, true, false, length, nat_lt};
ghost use Rattle.state_ids.specs.declared.TheConstants.{MAX_NODES};
ghost use Rattle.state_ids.specs.Ids.{Id};
ghost use Rattle.state_ids.specs.Fronts.{IsBelow, count, join_fronts};
ghost use Rattle.state_facts.specs.declared.fact.Fact.{Fact};
ghost use Rattle.state_facts.specs.Lists.{In};
ghost use Rattle.state_facts.specs.Sets.{is_purge};
ghost use Rattle.state_forest.specs.declared.record.Record.{Record};
ghost use Rattle.state_forest.specs.Records.{is_about};
ghost use Rattle.theory_history.specs.Histories.{History, IsClosed, IsLawful, facts};
ghost use Rattle.theory_history.specs.Merging.{merged};
ghost use Rattle.theory_history.specs.ViewShape.{HasShape};
ghost use Rattle.theory_history.specs.Views.{IsCounted, StandsFor, View, purge_number, records_at};
ghost use Rattle.wire_frames.specs.Frames.{Frame, IsFrame, frame_of, has_news};
ghost use Rattle.wire_frames.specs.Grammar.{IsOfGrammar};
ghost use Rattle.wire_frames.specs.Rules.{IsDelta, IsDeltaAs};
ghost use Rattle.wire_frames.specs.OneRecord.{KeepsRulesUnder, IsRecordUnder, IsRecordUnderAs};
ghost use Rattle.wire_frames.specs.Reading.{frame_in};
ghost use Rattle.wire_frames.specs.Encoding.{record_text_as, encoding, encoding_as};
ghost use Rattle.wire_frames.specs.FrameSizes.{IsShort, frame_size};
ghost use Rattle.wire_frames.specs.TakenFrames.{IsTaken};
ghost use Rattle.wire_frames.specs.Versions.{needs_two};
ghost use Rattle.wire_frames.specs.declared.version.Version.{Version};
ghost use Rattle.wire_frames.specs.declared.version.Version.TheVariants.{One};
ghost use Rattle.wire_frames.specs.Typed.{IsTyped, IsTypedRecord};

pub use crate::scan::since_by_scan;

/// The frame of a view that stands for a set is the frame of that set.
pub fn the_frame_of_a_view_is_that_of_its_set()
    ensures { (S : List Fact) (view : View) (base : List ℕ) →
        StandsFor S view → IsFrame S base (frame_of view base) }
{}

/// A set has only one frame since a base, for a given number of nodes.
#[tactic(auto, using(crate::proofs::OneFrameOfASet::one_frame))]
pub fn a_set_has_one_frame()
    ensures { (S : List Fact) (base : List ℕ) (a b : Frame) →
        length a.front ≡ length b.front → IsFrame S base a → IsFrame S base b → a ≡ b }
{}

/// A set that a front counts has a view with that front.
pub fn a_set_has_a_view()
    ensures { (S : List Fact) (front : List ℕ) →
        IsCounted S front → (view : View) × (view.front ≡ front) × StandsFor S view }
{}

/// If a base counts nothing that a closed set lacks, that set lacks nothing that the frame of
/// another set since the base leaves out: no purge of a home whose live list is left out, and no
/// fact about an LRA whose record is left out.
pub fn a_base_below_leaves_out_nothing()
    ensures purges { (h : History) (v w base : List ℕ) (home : ℕ) (f : Fact) (a : Id) →
        IsLawful h → IsClosed h v → IsClosed h w →
        IsBelow base v → nat_lt (count base home) (purge_number (facts h w) home) ≡ false →
        In f (facts h w) → is_purge a f.body ≡ true → a.home ≡ home → In f (facts h v) }
    ensures facts { (h : History) (v w base : List ℕ) (l : Id) (f : Fact) → IsLawful h →
        IsClosed h v → IsClosed h w → IsBelow base v → has_news (facts h w) base l ≡ false →
        In f (facts h w) → is_about l f ≡ true → In f (facts h v) }
{}

/// If the view of a closed set takes the frame of another closed set since a base below its front,
/// the result is the view of the sets' union. Such a view exists, and it has the shape. Merging the
/// other's view gives the same.
pub fn a_taken_frame_is_the_union()
    ensures view { (h : History) (v w base : List ℕ) (a c : View) (frame : Frame) → IsLawful h →
        IsClosed h v → IsClosed h w → StandsFor (facts h v) a → IsFrame (facts h w) base frame →
        IsBelow base a.front → IsTaken a frame c → StandsFor (facts h (join_fronts v w)) c }
    ensures some { (h : History) (v w base : List ℕ) (a : View) (frame : Frame) →
        IsLawful h → IsClosed h v → IsClosed h w → StandsFor (facts h v) a →
        IsFrame (facts h w) base frame → length a.front ≡ length frame.front →
        IsBelow base a.front → (c : View) × IsTaken a frame c × HasShape c }
    ensures merge { (h : History) (v w base : List ℕ) (a b : View) → IsLawful h → IsClosed h v →
        IsClosed h w → StandsFor (facts h v) a → StandsFor (facts h w) b → length a.front
        ≡ length b.front → IsBelow base a.front → IsTaken a (frame_of b base) (merged a b) }
{}

/// The frames of the views of closed sets of a lawful history keep the rules of the frame grammar.
#[tactic(auto, using(crate::proofs::Grammar::grammar_law))]
pub fn frames_of_a_history_keep_the_rules()
    ensures { (h : History) (w base : List ℕ) (view : View) →
        IsLawful h → IsClosed h w → StandsFor (facts h w) view → length base ≡ length view.front →
        IsBelow base view.front → IsOfGrammar (frame_of view base) }
{}

/// A frame that keeps the rules is no longer than a frame can be, if no link is longer than links
/// can be.
#[tactic(auto, using(crate::proofs::FrameSizes::frame_most))]
pub fn frames_are_not_too_long()
    ensures { (version : Version) (frame : Frame) →
        IsOfGrammar frame → length frame.front ≤ MAX_NODES → IsShort frame →
        frame_size version frame ≤ 67108855 }
{}

/// A frame that keeps the rules that the frames of a history's nodes keep, and has the types of a
/// delta, keeps the rules of a frame. So what a node of a lawful history sends has an encoding,
/// which is read as the same frame again.
pub fn frames_of_a_history_have_an_encoding()
    ensures rules { (frame : Frame) → IsTyped frame → IsOfGrammar frame → IsDelta frame }
    ensures first { (frame : Frame) → IsTyped frame → IsOfGrammar frame →
        needs_two frame ≡ false → IsDeltaAs One frame }
    ensures read { (h : History) (w base : List ℕ) (view : View) →
        IsLawful h → IsClosed h w → StandsFor (facts h w) view →
        length base ≡ length view.front → IsBelow base view.front → IsTyped (frame_of view base) →
        frame_in (encoding (frame_of view base)) ≡ Ok (frame_of view base) }
{}

/// A record that a node of a lawful history keeps has an encoding of its own, under the node's
/// front. It fits under the front, and a record that fits there and has the types of a record keeps
/// the rules.
pub fn records_of_a_history_have_an_encoding()
    ensures fit { (h : History) (w : List ℕ) (view : View) (home : ℕ) (kept : Record) →
        IsLawful h → IsClosed h w →
        StandsFor (facts h w) view → length view.front ≤ MAX_NODES →
        1 ≤ home → home ≤ length view.front →
        In kept (records_at view.records home) → KeepsRulesUnder view.front kept }
    ensures rules { (front : List ℕ) (kept : Record) →
        IsTypedRecord kept → KeepsRulesUnder front kept → IsRecordUnder front kept }
{}

/// A record that keeps the rules of version 1 under a front also keeps those of version 2. So a
/// record that was read in version 1 and is written in version 2 is read as the same record again.
#[tactic(auto, using(crate::proofs::FirstVersion::record_first))]
pub fn a_record_of_version_1_keeps_the_rules_of_version_2()
    ensures { (front : List ℕ) (kept : Record) →
        IsRecordUnderAs One front kept → IsRecordUnder front kept }
{}

/// A frame that keeps the rules of a version has one encoding of that version. No prefix of an
/// encoding is the encoding of another frame, of any version. The same holds for a record under a
/// front.
pub fn one_encoding()
    ensures frame { (v w : Version) (a b : Frame) (x y : List ℕ) → IsDeltaAs v a → IsDeltaAs w b →
        encoding_as v a ++ x ≡ encoding_as w b ++ y → (v ≡ w) × (a ≡ b) × (x ≡ y) }
    ensures one { (v : Version) (front : List ℕ) (a b : Record) (x y : List ℕ) →
        IsRecordUnderAs v front a → IsRecordUnderAs v front b →
        record_text_as v a ++ x ≡ record_text_as v b ++ y → (a ≡ b) × (x ≡ y) }
{}
