//! What the definitions of the contracts mean.
ghost use Rattle.std.specs.Prelude.{◌≡◌, ℕ, List};
ghost use Rattle.rt_wal.specs.declared.records.Record.{Record as Entry};
ghost use Rattle.rt_wal.specs.declared.faults.RecordWhy.{RecordWhy as Why};
ghost use Rattle.rt_wal.specs.Batches.{IsCut};
ghost use Rattle.rt_wal.specs.Records.{IsRecordText, IsRefusedText};
ghost use Rattle.rt_wal.specs.Times.{IsMoment};

/// A text names one commit time at most.
pub fn one_moment()
    ensures { (text a b : List ℕ) → IsMoment text a → IsMoment text b → a ≡ b }
{}

/// Records are cut into batches in one way at most.
pub fn one_cut()
    ensures { (max : ℕ) (records : List Entry) (a b : List (List Entry)) → IsCut max records a → IsCut max records b → a ≡ b }
{}

/// A text is one record at most, or is refused for one reason at most, and not both. It is never
/// neither.
pub fn one_record()
    ensures one { (text : List ℕ) (a b : Entry) → IsRecordText text a → IsRecordText text b → a ≡ b }
    ensures reason { (text : List ℕ) (a b : Why) → IsRefusedText text a → IsRefusedText text b → a ≡ b }
    ensures apart { (text : List ℕ) (a : Entry) (why : Why) → IsRecordText text a → IsRefusedText text why → ⊥ }
    ensures some { (text : List ℕ) → ((a : Entry) → IsRecordText text a → ⊥)
        → ((why : Why) → IsRefusedText text why → ⊥) → ⊥ }
{}
