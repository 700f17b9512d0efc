ghost use Rattle.std.specs.Prelude.{◌≡◌, [], ◌∷◌, length, reverse, MatchOption, IfOk};

use std::alloc::{AllocError, Global};
use std::marker::Model;

/// A stack that contracts see as a list, its top first.
#[derive(Drop)]
pub struct Stack<T> {
    items: Vec<T>,
}

impl<T> Model for Stack<T> {
    ghost use Rattle.std.specs.Prelude.{List, reverse};
    ghost use Rattle.std.specs.Coded.{coded_list};

    ghost Value = { List T };

    ghost coded = { coded_list T.code };

    ghost view = { λ s. reverse s.items.items };
}

impl<T> Stack<T> {
    /// A stack of nothing.
    pub fn new(alloc: Global) -> Stack<T>
        ensures { result ≡ [] }
    {
        Stack {
            items: Vec::new(alloc),
        }
    }

    /// How many stand on it.
    pub fn len(&self) -> usize
        ensures { result ≡ length self.now }
    {
        self.items.len()
    }

    /// Lends what stands on it, its top last.
    pub fn items(&self) -> &[T]
        ensures { self.now ≡ reverse result.now }
    {
        self.items.as_slice()
    }

    /// Takes the top off.
    pub fn pop(&mut self) -> Option<T>
        ensures { MatchOption result ((self.old ≡ []) × (self.new ≡ []))
            (λ top. self.old ≡ top ∷ self.new) }
    {
        self.items.pop()
    }
}

impl<T: Drop> Stack<T> {
    /// With one more on it. Fails for want of memory alone.
    pub fn push(self, top: T) -> Result<Stack<T>, AllocError>
        ensures { IfOk result (λ s. s ≡ top ∷ self) }
    {
        let Stack { mut items } = self;
        items.push(top)?;
        Ok(Stack { items })
    }
}
