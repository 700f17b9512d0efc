//! Laws of the definitions, for the proofs of the crates above. Each is a function with an empty
//! body.

ghost use Rattle.std.specs.Prelude.{◌≡◌, ◌↔◌, ℕ, List, Some};
ghost use Rattle.rt_filter.specs.declared.filter.Filter.{Filter};
ghost use Rattle.rt_filter.specs.Written.{IsFilter, filter_of};

/// A text is a filter in at most one way, and `filter_of` computes it.
pub fn one_reading()
    ensures one { (text : List ℕ) (f g : Filter) → IsFilter text f → IsFilter text g → f ≡ g }
    ensures computed { (text : List ℕ) (f : Filter) → IsFilter text f ↔ (filter_of text ≡ Some f) }
{}
