ghost use Rattle.std.specs.Prelude.{◌≡◌, IfOk};

use std::alloc::{AllocError, Global};
use std::marker::Model;

/// A `Vec` that contracts see as the list of its elements.
#[derive(Debug, Drop)]
pub struct List<T> {
    inner: Vec<T>,
}

impl<T> Model for List<T> {
    ghost use Rattle.std.specs.Prelude as p;
    ghost use Rattle.std.specs.Coded.{coded_list};

    ghost Value = { p.List T };

    ghost coded = { coded_list T.code };

    ghost view = { λ a. a.inner.items };
}

impl<T> List<T> {
    /// The elements of a vector, which is moved.
    pub fn new(inner: Vec<T>) -> Self
        ensures { result ≡ inner.items }
    {
        List { inner }
    }

    /// Lends the elements.
    pub fn get(&self) -> &[T]
        ensures { result.now ≡ self.now }
    {
        self.inner.as_slice()
    }

    /// Gives the vector back.
    pub fn into_inner(self) -> Vec<T>
        ensures { result.items ≡ self }
    {
        let List { inner } = self;
        inner
    }

    /// An equal list, of the copies that `copy` makes of the elements. Fails for want of memory
    /// alone.
    pub fn copy_by<F: Fn(&T) -> Result<T, AllocError>>(
        &self,
        alloc: Global,
        copy: F,
    ) -> Result<Self, AllocError>
    where
        T: Drop,
        F: Drop,
        requires callable { F.IsAlwaysCallable copy }
        requires equal { (x : _) (r : _) → F.post copy x r → IfOk r (λ y. y ≡ x.now) }
        ensures { IfOk result (λ l. l ≡ self.now) }
    {
        let mut inner = Vec::with_capacity(alloc, self.inner.len())?;
        for x in &self.inner {
            inner.push(copy(x)?)?;
        }
        Ok(List { inner })
    }
}
