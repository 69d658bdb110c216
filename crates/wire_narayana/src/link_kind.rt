// What a participant is called for, and how a carried link tells it.
ghost use Rattle.std.specs.Prelude.{◌≡◌, ◌≢◌, ◌∷◌, [], MatchOption};
ghost use Rattle.wire_narayana.specs.Kinds.{kind_method, kind_name, letter_of, query_text};
ghost use Rattle.wire_narayana.specs.declared.link_kind.LinkKind.{LinkKind};
ghost use Rattle.wire_narayana.specs.declared.link_kind.Query.{Query};
ghost use Rattle.wire_narayana.specs.declared.link_kind.Query.TheVariants.{Jakarta, Javax};

/// What a participant is called for (MicroProfile LRA 2.0, the annotations of its methods).
#[derive(Clone, Copy, PartialEq, Eq, Debug)]
pub enum LinkKind {
    Compensate,
    Complete,
    Status,
    Forget,
    After,
}

/// The query of a participant's link. Narayana's client adds the annotation of the method to nearly
/// every link, as `method=jakarta.ws.rs.PUT`, and a carried link has a letter in its place.
#[derive(Clone, Copy, PartialEq, Eq, Debug)]
pub enum Query {
    /// Any other query, or none: it is carried unchanged.
    Own,
    /// The method of the kind, in the package `jakarta.ws.rs`.
    Jakarta,
    /// The method of the kind, in the package `javax.ws.rs`.
    Javax,
}

impl LinkKind {
    /// Returns the kind's name in a `Link` field and in the body of a join.
    pub fn name(self) -> &'static str
        ensures { result.now ≡ kind_name self }
    {
        match self {
            LinkKind::Compensate => "compensate",
            LinkKind::Complete => "complete",
            LinkKind::Status => "status",
            LinkKind::Forget => "forget",
            LinkKind::After => "after",
        }
    }

    /// Returns the kind of a name, or `None` for any other text.
    pub fn from_name(name: &str) -> Option<LinkKind>
        ensures { MatchOption result ((kind : LinkKind) → name.now ≢ kind_name kind)
            (λ kind. name.now ≡ kind_name kind) }
    {
        match name {
            "compensate" => Some(LinkKind::Compensate),
            "complete" => Some(LinkKind::Complete),
            "status" => Some(LinkKind::Status),
            "forget" => Some(LinkKind::Forget),
            "after" => Some(LinkKind::After),
            _ => None,
        }
    }

    /// Returns the HTTP method of the kind's calls.
    pub fn method(self) -> &'static str
        ensures { result.now ≡ kind_method self }
    {
        match self {
            LinkKind::Compensate | LinkKind::Complete | LinkKind::After => "PUT",
            LinkKind::Status => "GET",
            LinkKind::Forget => "DELETE",
        }
    }

    /// Returns the text that this form of query adds to a link.
    #[tactic(auto, unfolding(crate::specs::Kinds::query_text))]
    pub fn query(self, form: Query) -> &'static str
        ensures { result.now ≡ query_text self form }
    {
        match form {
            Query::Own => "",
            Query::Jakarta => self.jakarta(),
            Query::Javax => self.javax(),
        }
    }

    #[tactic(auto, unfolding(crate::specs::Kinds::query_text))]
    fn jakarta(self) -> &'static str
        ensures { result.now ≡ query_text self Jakarta }
    {
        match self {
            LinkKind::Compensate | LinkKind::Complete | LinkKind::After =>
                "?method=jakarta.ws.rs.PUT",
            LinkKind::Status => "?method=jakarta.ws.rs.GET",
            LinkKind::Forget => "?method=jakarta.ws.rs.DELETE",
        }
    }

    #[tactic(auto, unfolding(crate::specs::Kinds::query_text))]
    fn javax(self) -> &'static str
        ensures { result.now ≡ query_text self Javax }
    {
        match self {
            LinkKind::Compensate | LinkKind::Complete | LinkKind::After =>
                "?method=javax.ws.rs.PUT",
            LinkKind::Status => "?method=javax.ws.rs.GET",
            LinkKind::Forget => "?method=javax.ws.rs.DELETE",
        }
    }

    /// Returns the letter for this kind and a form of query in a carried link.
    pub fn letter(self, form: Query) -> &'static str
        ensures { result.now ≡ letter_of self form ∷ [] }
    {
        match (self, form) {
            (LinkKind::Compensate, Query::Own) => "c",
            (LinkKind::Compensate, Query::Jakarta) => "C",
            (LinkKind::Compensate, Query::Javax) => "D",
            (LinkKind::Complete, Query::Own) => "k",
            (LinkKind::Complete, Query::Jakarta) => "K",
            (LinkKind::Complete, Query::Javax) => "L",
            (LinkKind::Status, Query::Own) => "s",
            (LinkKind::Status, Query::Jakarta) => "S",
            (LinkKind::Status, Query::Javax) => "T",
            (LinkKind::Forget, Query::Own) => "f",
            (LinkKind::Forget, Query::Jakarta) => "F",
            (LinkKind::Forget, Query::Javax) => "G",
            (LinkKind::After, Query::Own) => "a",
            (LinkKind::After, Query::Jakarta) => "A",
            (LinkKind::After, Query::Javax) => "B",
        }
    }

    /// Returns the kind and the form of query that a letter (an ASCII byte) stands for, or `None`
    /// for any other byte.
    pub fn from_letter(letter: u8) -> Option<(LinkKind, Query)>
        ensures { MatchOption result ((kind : LinkKind) (form : Query) → letter ≢ letter_of kind form)
            (λ said. letter ≡ letter_of said.0 said.1) }
    {
        match letter {
            b'c' => Some((LinkKind::Compensate, Query::Own)),
            b'C' => Some((LinkKind::Compensate, Query::Jakarta)),
            b'D' => Some((LinkKind::Compensate, Query::Javax)),
            b'k' => Some((LinkKind::Complete, Query::Own)),
            b'K' => Some((LinkKind::Complete, Query::Jakarta)),
            b'L' => Some((LinkKind::Complete, Query::Javax)),
            b's' => Some((LinkKind::Status, Query::Own)),
            b'S' => Some((LinkKind::Status, Query::Jakarta)),
            b'T' => Some((LinkKind::Status, Query::Javax)),
            b'f' => Some((LinkKind::Forget, Query::Own)),
            b'F' => Some((LinkKind::Forget, Query::Jakarta)),
            b'G' => Some((LinkKind::Forget, Query::Javax)),
            b'a' => Some((LinkKind::After, Query::Own)),
            b'A' => Some((LinkKind::After, Query::Jakarta)),
            b'B' => Some((LinkKind::After, Query::Javax)),
            _ => None,
        }
    }
}
