// Numbers that a seed decides, the same on every machine.
ghost use Rattle.std.specs.Prelude.{◌<◌, max};

/// SplitMix64 (Steele, Lea and Flood, 2014).
#[derive(Drop)]
pub struct Luck {
    state: u64,
}

impl Luck {
    pub fn new(seed: u64) -> Luck {
        Luck { state: seed }
    }

    fn next(&mut self) -> u64 {
        self.state = self.state.wrapping_add(0x9E37_79B9_7F4A_7C15);
        let mut mixed = self.state;
        mixed = (mixed ^ (mixed >> 30)).wrapping_mul(0xBF58_476D_1CE4_E5B9);
        mixed = (mixed ^ (mixed >> 27)).wrapping_mul(0x94D0_49BB_1331_11EB);
        mixed ^ (mixed >> 31)
    }

    /// Returns a number below `sides`, or 0.
    pub fn below(&mut self, sides: u64) -> u64
        ensures { result < max sides 1 }
    {
        self.next() % sides.max(1)
    }

    /// Returns true in one of `cases` cases.
    pub fn is_one_in(&mut self, cases: u64) -> bool {
        self.below(cases) == 0
    }

    /// Returns a place in a list of this length, or 0.
    pub fn place(&mut self, count: usize) -> usize
        ensures { result < max count 1 }
    {
        self.below(count as u64) as usize
    }
}
