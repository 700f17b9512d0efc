ghost use Rattle.std.specs.Prelude.{◌≡◌, IfOk};
ghost use Rattle.std.specs.Arc.{arc_value};

use std::alloc::AllocError;
use std::marker::Model;
use std::sync::Arc;

/// A value behind an `Arc` that contracts see as the value, so that two equal ones are equal.
#[derive(Debug, Drop)]
pub struct Shared<T> {
    inner: Arc<T>,
}

impl<T> Model for Shared<T> {
    ghost use Rattle.std.specs.Arc.{arc_value};

    ghost Value = { T };

    ghost coded = { T.code };

    ghost view = { λ a. arc_value a.inner };
}

impl<T> Shared<T> {
    /// The value of an `Arc`, which is moved.
    pub fn new(inner: Arc<T>) -> Self
        ensures { result ≡ arc_value inner }
    {
        Shared { inner }
    }

    /// The same value with one owner more; nothing of it is copied. Fails for want of memory
    /// alone.
    pub fn copy(&self) -> Result<Self, AllocError>
        ensures { IfOk result (λ s. s ≡ self.now) }
    {
        Ok(Shared {
            inner: Arc::try_clone(&self.inner)?,
        })
    }

    /// Lends the value.
    pub fn get(&self) -> &T
        ensures { result.now ≡ self.now }
    {
        &self.inner
    }

    /// Gives the `Arc` back.
    pub fn into_inner(self) -> Arc<T>
        ensures { arc_value result ≡ self }
    {
        let Shared { inner } = self;
        inner
    }
}
