//! Laws of the tables after edits, for the proofs of the crates above. Each is a function with an
//! empty body.

ghost use Rattle.std.specs.Prelude.{◌≡◌, ◌∷◌, ℕ, List, map, true};
ghost use Rattle.std.specs.List.{list_all, range_with_len};
ghost use Rattle.rt_value.specs.declared.edit.Edit.{Edit};
ghost use Rattle.rt_value.specs.declared.row.Row.{Row};
ghost use Rattle.rt_value.specs.Edits.{TableEdit, edited_rows, tables_after};
ghost use Rattle.rt_value.specs.Rows.{is_rising};
ghost use Rattle.rt_value.specs.Tables.{rows_of_table};
ghost use Rattle.rt_replica.specs.Changed.{changed_at, rows_seen};

/// Tables that stand for the edits of a journal stand, with one edit more made, for the edits and
/// that one.
pub fn one_more_edit()
    ensures { (before : List TableEdit) (table : ℕ) (edit : Edit) (tables : ℕ) →
        map (tables_after ((table, edit) ∷ before)) (range_with_len 0 tables)
        ≡ changed_at table (edited_rows edit) (map (tables_after before) (range_with_len 0 tables)) }
{}

/// Where the keys of each table rise strictly, a walk sees the rows of the tables.
pub fn rows_are_seen()
    ensures { (tables : List (List Row)) → list_all is_rising tables ≡ true → (n : ℕ) →
        rows_seen tables n ≡ rows_of_table tables n }
{}
