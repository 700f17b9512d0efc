ghost use Rattle.std.specs.Prelude.{Option, List, ℕ, ◌≡◌};
ghost use Rattle.rt_io.specs.Streams.{ReadTakes, ReadCause};

/// What one read gave.
#[derive(Clone, Copy, Debug, PartialEq, Eq)]
pub enum Read {
    /// So many bytes, which stand at the beginning of the buffer. 0 for a buffer that isn't empty
    /// is the end.
    Bytes(usize),
    /// None, for a fault of the source, which counts it.
    Failed,
}

/// Where bytes come from.
pub trait Source {
    /// The bytes that are left, where the source can tell them.
    ghost left: { Self → Option (List ℕ) };

    /// How often it has failed, a number that never falls.
    ghost faults: { Self → ℕ };

    /// Takes the first bytes that are left into the beginning of the buffer, at most as many as it
    /// holds. A source that tries again after a failure of its own and then answers bytes counts no
    /// fault.
    fn read(&mut self, buf: &mut [u8]) -> Read
        ensures bytes { ReadTakes (left self.old) (left self.new) result buf.new }
        ensures cause { ReadCause (faults self.old) (faults self.new) result };

    /// How often it has failed.
    fn faults(&self) -> u64
        ensures { result ≡ faults self.now };
}
