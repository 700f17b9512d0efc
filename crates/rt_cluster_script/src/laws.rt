ghost use Rattle.std.specs.Prelude.{◌≡◌, ℕ, List};
ghost use Rattle.rt_cluster_script.specs.Script.{Refuses, Shows};

/// A text shows one list of bytes, or has one first refused line, and not both.
pub fn one_end()
    ensures shown { (text a b : List ℕ) → Shows text a → Shows text b → a ≡ b }
    ensures refused { (text : List ℕ) (m n : ℕ) → Refuses text m → Refuses text n → m ≡ n }
    ensures apart { (text a : List ℕ) (n : ℕ) → Shows text a → Refuses text n → ⊥ }
{}
