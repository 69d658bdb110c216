// The output to which a frame is written.
ghost use Rattle.std.specs.Prelude.{◌≡◌, ◌++◌, ℕ, List};
ghost use Rattle.wire_frames.specs.WrittenSoFar.{Start};

/// An output to which a frame is written field by field. If it meets a fault, it remembers that,
/// and from then on only `text` grows.
pub trait Output {
    /// Everything that was put so far, including what was put after a fault.
    ghost text: { Self → List ℕ };

    /// The sink behind this output, and its state at the start.
    ghost start: { Self → Start };

    /// Appends these bytes.
    fn put(&mut self, bytes: &[u8])
        ensures same { start self.new ≡ start self.old }
        ensures text { text self.new ≡ text self.old ++ bytes.now };
}
