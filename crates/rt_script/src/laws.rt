//! What the definitions of scripts mean.
ghost use Rattle.std.specs.Prelude.{◌≡◌, ℕ, List};
ghost use Rattle.rt_catalog.specs.declared.catalog.Catalog.{Catalog as Lists};
ghost use Rattle.rt_script.specs.declared.fault.LineWhy.{LineWhy as Why};
ghost use Rattle.rt_script.specs.declared.script.Script.{Script as Lines};
ghost use Rattle.rt_script.specs.Reading.{IsBadLine, IsScript};
ghost use Rattle.rt_script.specs.Serving.{ServedStatuses, StreamsEndOnce};

/// A text is one script at most, or has one first bad line with one reason, and not both. It never
/// has neither.
pub fn one_script()
    ensures one { (c : Lists) (text : List ℕ) (a b : Lines) → IsScript c text a → IsScript c text b → a ≡ b }
    ensures bad { (c : Lists) (text : List ℕ) (m n : ℕ) (a b : Why) → IsBadLine c text m a → IsBadLine c text n b
        → (m ≡ n) × (a ≡ b) }
    ensures apart { (c : Lists) (text : List ℕ) (s : Lines) (n : ℕ) (why : Why) → IsScript c text s
        → IsBadLine c text n why → ⊥ }
    ensures some { (c : Lists) (text : List ℕ) → ((s : Lines) → IsScript c text s → ⊥)
        → ((n : ℕ) (why : Why) → IsBadLine c text n why → ⊥) → ⊥ }
{}

/// The lines of a stream that is served, with what stands behind them, end in one way: at the first
/// line that is refused or whose poll fills the tables, or at the end, at a fault or at a line that
/// is too long.
pub fn one_stream()
    ensures { StreamsEndOnce }
{}

/// A server ends well, or with the status of a catalogue, a line, a source, a size, the rows, the
/// doors, the inputs or the spawner; never with that of a fault of writing.
pub fn served_statuses()
    ensures { ServedStatuses }
{}
