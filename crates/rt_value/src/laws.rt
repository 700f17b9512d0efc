//! Laws of the definitions, for the proofs of the crates above. Each is a function with an empty
//! body.

ghost use Rattle.std.specs.Prelude.{◌≡◌, ◌≢◌, ◌↔◌, ℕ, ℤ, IsUtf8, true, ◌∷◌, List};
ghost use Rattle.std.specs.Prelude.{Option, None, Some, option_map};
ghost use Rattle.std.specs.Prelude.{Contains, IsPermutation};
ghost use Rattle.std.specs.List.{AllByRecursion, IsDistinct, list_any};
ghost use Rattle.std.specs.List.Sorted.{IsSorted, IsStrictlySortedBy};
ghost use Rattle.std.specs.Ordering.{eq_by_cmp};
ghost use Rattle.std.specs.Cmp.{IsTotalOrder};
ghost use Rattle.std.specs.declared.cmp.Ordering.{Ordering};
ghost use Rattle.rt_value.specs.declared.value.Value.{Value};
ghost use Rattle.rt_value.specs.declared.row.Key.{Key};
ghost use Rattle.rt_value.specs.declared.row.Row.{Row};
ghost use Rattle.rt_value.specs.declared.edit.Edit.{Edit};
ghost use Rattle.rt_value.specs.declared.edit.Edit.TheVariants.{Put, Remove, Clear, Nothing};
ghost use Rattle.rt_value.specs.Moments.{IsMoment, moment_in_text, moment_shown};
ghost use Rattle.rt_value.specs.Order.{compared, value_cmp, key_cmp, same_key};
ghost use Rattle.rt_value.specs.Ordered.{in_order};
ghost use Rattle.rt_value.specs.Rows.{is_rising, row_at};
ghost use Rattle.rt_value.specs.Edits.{TableEdit, filled, old_values, row_after, row_of};
ghost use Rattle.rt_value.specs.Edits.{edited_rows, tables_after};

/// The order of keys is total, and only equal keys tie.
pub fn keys_are_ordered()
    ensures total { IsTotalOrder key_cmp }
    ensures same { (k l : Key) → (same_key k l ≡ true) ↔ (k ≡ l) }
    // In it values stand as they compare.
    ensures compares { (a b : Value) (order : Ordering) →
        compared a b ≡ Some order → value_cmp a b ≡ order }
{}

/// An edit leaves the other tables as they are.
pub fn edit_of_another_table()
    ensures { (before : List TableEdit) (table other : ℕ) (edit : Edit) (key : Key) →
        table ≢ other → row_after ((table, edit) ∷ before) other key ≡ row_after before other key }
{}

/// What one more put does to the table: at the new key it leaves its cells, those that it does not
/// give from the row that it moves, and at the old key no row, where that is another.
pub fn one_more_put()
    ensures new { (before : List TableEdit) (table : ℕ)
        (old : Option Key) (new : Key) (cells : List (Option Value)) →
        row_after ((table, Put old new cells) ∷ before) table new
        ≡ Some (filled cells (old_values old (row_after before table))) }
    ensures moved { (before : List TableEdit) (table : ℕ)
        (old new : Key) (cells : List (Option Value)) →
        old ≢ new → row_after ((table, Put (Some old) new cells) ∷ before) table old ≡ None }
    ensures others { (before : List TableEdit) (table : ℕ)
        (old : Option Key) (new key : Key) (cells : List (Option Value)) →
        key ≢ new → old ≢ Some key →
        row_after ((table, Put old new cells) ∷ before) table key ≡ row_after before table key }
{}

/// What one more removal does to the table.
pub fn one_more_remove()
    ensures gone { (before : List TableEdit) (table : ℕ) (key : Key) →
        row_after ((table, Remove key) ∷ before) table key ≡ None }
    ensures others { (before : List TableEdit) (table : ℕ) (gone key : Key) → key ≢ gone →
        row_after ((table, Remove gone) ∷ before) table key ≡ row_after before table key }
{}

/// What a clearing does to the table, and what an edit that does nothing.
pub fn one_more_clear()
    ensures cleared { (before : List TableEdit) (table : ℕ) (key : Key) →
        row_after ((table, Clear) ∷ before) table key ≡ None }
    ensures nothing { (before : List TableEdit) (table : ℕ) (key : Key) →
        row_after ((table, Nothing) ∷ before) table key ≡ row_after before table key }
{}

/// The rows of a table after edits: their keys rise strictly, and at each key stands the row that
/// the edits leave there.
pub fn rows_after_edits()
    ensures rising { (edits : List TableEdit) (table : ℕ) →
        is_rising (tables_after edits table) ≡ true }
    ensures at_key { (edits : List TableEdit) (table : ℕ) (key : Key) →
        row_at key (tables_after edits table) ≡ option_map (row_of key) (row_after edits table key) }
{}

/// The tables after one more edit: its table's rows are edited, and the other tables are left as
/// they are.
pub fn tables_after_one_more()
    ensures edited { (before : List TableEdit) (table : ℕ) (edit : Edit) →
        tables_after ((table, edit) ∷ before) table
        ≡ edited_rows edit (tables_after before table) }
    ensures others { (before : List TableEdit) (table other : ℕ) (edit : Edit) → table ≢ other →
        tables_after ((table, edit) ∷ before) other ≡ tables_after before other }
{}

/// Two lists of rows with strictly rising keys are equal where they have the same row at each key.
pub fn rows_by_their_keys()
    ensures { (xs ys : List Row) → is_rising xs ≡ true → is_rising ys ≡ true →
        ((key : Key) → row_at key xs ≡ row_at key ys) → xs ≡ ys }
{}

/// In a total order: the keys in order rise strictly, each is one of the list, and each of the list
/// ties with one of them. Where no two tie, they are the list sorted.
pub fn in_order_sorts<K>()
    ensures rises { (cmp : K → K → Ordering) (keys : List K) → IsTotalOrder cmp →
        IsStrictlySortedBy cmp (in_order cmp keys) }
    ensures among { (cmp : K → K → Ordering) (keys : List K) → IsTotalOrder cmp →
        AllByRecursion (Contains keys) (in_order cmp keys) }
    ensures each { (cmp : K → K → Ordering) (keys : List K) → IsTotalOrder cmp →
        AllByRecursion (λ key. list_any (eq_by_cmp cmp key) (in_order cmp keys) ≡ true) keys }
    ensures permutes { (cmp : K → K → Ordering) (keys : List K) → IsTotalOrder cmp →
        IsDistinct (eq_by_cmp cmp) keys → IsPermutation keys (in_order cmp keys) }
    ensures only { (cmp : K → K → Ordering) (keys sorted : List K) → IsTotalOrder cmp →
        IsDistinct (eq_by_cmp cmp) keys → IsPermutation keys sorted → IsSorted cmp sorted →
        sorted ≡ in_order cmp keys }
{}

/// What is shown of a moment is read as that moment, and is UTF-8.
pub fn shown_moments_are_read()
    ensures same { (m : ℤ) → IsMoment m → moment_in_text (moment_shown m) ≡ Some m }
    ensures utf8 { (m : ℤ) → IsUtf8 (moment_shown m) }
{}
