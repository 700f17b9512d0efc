ghost use Rattle.std.specs.Prelude.{Option, List, ℕ, ◌≡◌};
ghost use Rattle.rt_io.specs.Streams.{WritePuts, WriteCause};

/// What one write took.
#[derive(Clone, Copy, Debug, PartialEq, Eq)]
pub enum Wrote {
    /// The first so many bytes of the piece, at least one of a piece that isn't empty.
    Bytes(usize),
    /// None, for a fault of the sink, which counts it.
    Failed,
}

/// Where bytes go.
pub trait Sink {
    /// The bytes that it took, where the sink can tell them.
    ghost held: { Self → Option (List ℕ) };

    /// How often it has failed, a number that never falls.
    ghost faults: { Self → ℕ };

    /// Puts the first bytes of the piece behind those that it took before.
    fn write(&mut self, piece: &[u8]) -> Wrote
        ensures bytes { WritePuts (held self.old) (held self.new) result piece.now }
        ensures cause { WriteCause (faults self.old) (faults self.new) result };

    /// How often it has failed.
    fn faults(&self) -> u64
        ensures { result ≡ faults self.now };
}
