ghost use Rattle.std.specs.Prelude.{◌≡◌, IfOk};

use std::alloc::{AllocError, Global};
use std::marker::Model;

/// A `Vec<u8>` that contracts see as the list of its bytes.
#[derive(Debug, Drop)]
pub struct Bytes {
    inner: Vec<u8>,
}

impl Model for Bytes {
    ghost use Rattle.std.specs.Prelude.{List, ℕ};

    ghost Value = { List ℕ };

    ghost view = { λ b. b.inner.items };
}

impl Bytes {
    /// The bytes of a vector, which is moved.
    pub fn new(inner: Vec<u8>) -> Self
        ensures { result ≡ inner.items }
    {
        Bytes { inner }
    }

    /// Lends the bytes.
    pub fn get(&self) -> &[u8]
        ensures { result.now ≡ self.now }
    {
        self.inner.as_slice()
    }

    /// Gives the vector back.
    pub fn into_inner(self) -> Vec<u8>
        ensures { result.items ≡ self }
    {
        let Bytes { inner } = self;
        inner
    }

    /// Equal bytes in a vector of their own. Fails for want of memory alone.
    pub fn copy(&self, alloc: Global) -> Result<Self, AllocError>
        ensures { IfOk result (λ b. b ≡ self.now) }
    {
        let inner = Vec::from_slice(alloc, self.inner.as_slice())?;
        Ok(Bytes { inner })
    }
}
