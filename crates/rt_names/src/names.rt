ghost use Rattle.std.specs.Prelude.{◌≡◌, IfOk, map};
ghost use Rattle.rt_names.specs.Places.{IsIndexOf, place_in};

use std::alloc::{AllocError, Global};
use std::collections::HashMap;

/// An index of lent names: the first place at which each stands among them.
#[derive(Drop)]
pub struct Names<'a> {
    places: HashMap<&'a str, usize>,
}

impl<'a> Names<'a> {
    /// The index of these names. Goes over them once; fails for want of memory alone.
    pub fn new(alloc: Global, names: &[&'a str]) -> Result<Self, AllocError>
        ensures { IfOk result (λ index. IsIndexOf index (map (λ name. name.now) names.now)) }
    {
        let mut places = HashMap::with_capacity(alloc, names.len())?;
        // From the last on, so that the first of equal names stays.
        for place in (0..names.len()).rev() {
            places.insert(names[place], place)?;
        }
        Ok(Names { places })
    }

    /// The first place of a name, if it stands anywhere.
    pub fn place(&self, name: &str) -> Option<usize>
        ensures { result ≡ place_in self.now name.now }
    {
        self.places.get(name).copied()
    }
}
