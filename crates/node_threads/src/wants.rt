// What a node wants of those that pull from it.

/// The least time to wait for copies, in milliseconds: in less time no node may acknowledge.
pub(crate) const LEAST_MS: u64 = 50;

/// How many other nodes are to have a fact before answers that may show it are sent, and how long
/// these wait for that.
#[derive(Clone, Copy)]
pub struct Wants {
    /// 0 if nothing waits.
    pub copies: u8,
    pub patience_ms: u64,
    /// Whether, after that time, nothing is acknowledged, and nothing is stored while too few nodes
    /// have what is already stored.
    pub is_strict: bool,
}

impl Wants {
    /// Makes it that nothing waits.
    pub fn none() -> Wants {
        Wants {
            copies: 0,
            patience_ms: 0,
            is_strict: false,
        }
    }

    /// Whether anything waits.
    pub fn any(&self) -> bool {
        self.copies > 0
    }
}

/// How the answers and lists that waited went on.
#[derive(Clone, Copy)]
pub struct Waited {
    /// How many had as many copies as are wanted, and how many hadn't.
    pub copied: u64,
    pub late: u64,
}
