ghost use Rattle.std.specs.Prelude.{◌≡◌, ◌&&◌, ℕ, List, false, cond, Some, map, IfOk, OnOk};
ghost use Rattle.std.specs.Str.{bytes_eq};
ghost use Rattle.std.specs.HashMap.{get_by_text};
ghost use Rattle.rt_names.specs.Numbers.{IsNumbered, number_in, number_of};

use std::alloc::{AllocError, Global};
use std::collections::HashMap;

/// The numbers of a schema's names.
type Within = HashMap<String, usize>;

/// An index of names within schemas: the first place at which each stands among them. It keeps
/// copies of the names.
#[derive(Drop)]
pub struct Numbers {
    schemas: HashMap<String, Within>,
}

/// Takes a schema's names out.
fn taken(alloc: Global, schemas: &mut HashMap<String, Within>, schema: &str) -> Within
    ensures taken { (q : List ℕ) →
        get_by_text result q ≡ number_of (get_by_text schemas.old schema.now) q }
    ensures others { (s : List ℕ) → bytes_eq schema.now s ≡ false →
        get_by_text schemas.new s ≡ get_by_text schemas.old s }
{
    match schemas.remove(schema) {
        Some(within) => within,
        None => HashMap::new(alloc),
    }
}

impl Numbers {
    /// The index of these names, each with its schema. Goes over them once; fails for want of
    /// memory alone.
    pub fn new(alloc: Global, names: &[(&str, &str)]) -> Result<Self, AllocError>
        ensures { IfOk result (λ numbers.
            IsNumbered numbers (map (λ name. (name.0.now, name.1.now)) names.now)) }
    {
        let mut numbers = Numbers {
            schemas: HashMap::new(alloc),
        };
        // From the last on, so that the first of equal names stays.
        for number in (0..names.len()).rev() {
            let (schema, name) = names[number];
            numbers.put(alloc, schema, name, number)?;
        }
        Ok(numbers)
    }

    /// Gives a name the number, whichever it had. Where memory runs out the schema may lose its
    /// names.
    fn put(
        &mut self,
        alloc: Global,
        schema: &str,
        name: &str,
        number: usize,
    ) -> Result<(), AllocError>
        ensures { OnOk result ((s q : List ℕ) → number_in self.new s q
            ≡ cond (bytes_eq schema.now s && bytes_eq name.now q) (Some number)
            (number_in self.old s q)) }
    {
        let mut within = taken(alloc, &mut self.schemas, schema);
        within.insert(String::from_str(alloc, name)?, number)?;
        self.schemas
            .insert(String::from_str(alloc, schema)?, within)?;
        Ok(())
    }

    /// The first place of a name within a schema, if it stands anywhere.
    pub fn number(&self, schema: &str, name: &str) -> Option<usize>
        ensures { result ≡ number_in self.now schema.now name.now }
    {
        self.schemas.get(schema)?.get(name).copied()
    }
}
