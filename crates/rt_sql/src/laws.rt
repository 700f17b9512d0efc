//! Laws of the cut, each on a function that does nothing.

ghost use Rattle.std.specs.Prelude.{◌≡◌, ℕ, List, take, All, IsUtf8, IsCharBoundary};
ghost use Rattle.rt_sql.specs.declared.lexeme.Token as token;
ghost use Rattle.rt_sql.specs.Cut.{Leads, IsCut, IsUncut};
ghost use Rattle.rt_sql.specs.Lexeme.{IsTokenOf, unquoted};
ghost use Rattle.rt_sql.specs.Piece.{in_quotes};

/// A text has one list of tokens at most.
pub fn one_cut()
    ensures { (text : List ℕ) (a b : List token.Token) → IsCut text a → IsCut text b → a ≡ b }
{}

/// A text that has tokens has no fault, and one that has none has a fault at one place at most.
pub fn one_fault()
    ensures cut { (text : List ℕ) (tokens : List token.Token) (at : ℕ) → IsCut text tokens → IsUncut text at → ⊥ }
    ensures place { (text : List ℕ) (at other : ℕ) → IsUncut text at → IsUncut text other → at ≡ other }
{}

/// Each token of a text in UTF-8 stands between borders of its characters and is a piece of its
/// kind. A fault stands on such a border too.
pub fn tokens_of_the_text()
    ensures each { (text : List ℕ) (tokens : List token.Token) → IsUtf8 text → IsCut text tokens → All (IsTokenOf text) tokens }
    ensures fault { (text : List ℕ) (at : ℕ) → IsUtf8 text → IsUncut text at → IsCharBoundary text at }
{}

/// The text before a place that the tokens lead to has the same tokens, whatever follows it.
pub fn front_is_cut()
    ensures { (text : List ℕ) (tokens : List token.Token) (at : ℕ) → Leads text 0 tokens at → IsCut (take at text) tokens }
{}

/// What was put in quotes is what they hold.
pub fn quotes_keep()
    ensures { (quote : ℕ) (inner : List ℕ) → unquoted quote (in_quotes quote inner) ≡ inner }
{}
