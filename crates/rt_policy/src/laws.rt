//! Laws of the definitions, for the proofs of the crates above. Each is a function with an empty
//! body.

ghost use Rattle.std.specs.Prelude.{◌≡◌, ℕ, List, Option, Ok, map};
ghost use Rattle.rt_value.specs.declared.row.Row.{Row};
ghost use Rattle.rt_policy.specs.declared.caller.Seen.{Seen};
ghost use Rattle.rt_policy.specs.declared.expr.Expr.{Expr as Written};
ghost use Rattle.rt_policy.specs.declared.judge.Judge.{Judge};
ghost use Rattle.rt_policy.specs.declared.meaning.Meaning.{Meaning};
ghost use Rattle.rt_value.specs.declared.value.Value.{Value};
ghost use Rattle.rt_policy.specs.Worth.{Who, View, Place, IsWorth, worth};
ghost use Rattle.rt_policy.specs.Visibility.{visibility, IsVisibility};
ghost use Rattle.rt_policy.specs.Resolution.{Reading, IsMeaning, meaning_in, resolved};
ghost use Rattle.rt_policy.specs.Readings.{Named, IsNaming, named_in, readings_of, tables_of};
ghost use Rattle.rt_sql.specs.Lexeme.{Lexeme};
ghost use Rattle.rt_policy.specs.Grammar as grammar;
ghost use Rattle.rt_policy.specs.Parse.{Reads, Fails, HasAnswer};

use crate::{Expr, Rules, Scope};

/// The value of an expression is what its form says of the values of its parts.
pub fn worth_by_forms()
    ensures rule { (who : Who) (view : View) → IsWorth who view (worth who view) }
    // Nothing else meets that rule.
    ensures only { (who : Who) (view : View) (value : Judge → Place → Value) →
        IsWorth who view value →
        (judge : Judge) (at : Place) → value judge at ≡ worth who view judge at }
{}

/// What is visible is what the table's policies say, where an EXISTS reads the rows of its table that
/// are visible by the same rule.
pub fn visible_by_policies(rules: &Rules)
    ensures rule { (who : Who) (rows : ℕ → List Row) →
        IsVisibility rules.now.tables who rows (visibility rules.now.tables who rows) }
    // Nothing else meets that rule.
    ensures only { (who : Who) (rows : ℕ → List Row) (seen : ℕ → Row → Seen) →
        IsVisibility rules.now.tables who rows seen →
        (table : ℕ) (row : Row) → seen table row ≡ visibility rules.now.tables who rows table row }
{}

/// The meaning of an expression is what its form says of the meanings of its parts.
pub fn meaning_by_forms(scope: &Scope)
    ensures rule { IsMeaning scope.now (meaning_in scope.now) }
    // Nothing else meets that rule.
    ensures only { (mean : Written → Option Reading → Meaning) → IsMeaning scope.now mean →
        (e : Written) (at : Option Reading) → mean e at ≡ meaning_in scope.now e at }
{}

/// What an expression names is what its form says of what its parts name.
pub fn naming_by_forms(scope: &Scope)
    ensures rule { IsNaming scope.now (named_in scope.now) }
    // Nothing else meets that rule.
    ensures only { (named : Written → Named) → IsNaming scope.now named →
        (e : Written) → named e ≡ named_in scope.now e }
{}

/// The EXISTS of a resolved expression read the tables of its readings, in their order.
pub fn tables_are_read(scope: &Scope, expr: &Expr)
    ensures { (judge : Judge) → resolved scope.now expr.now ≡ Ok judge →
        tables_of judge ≡ map (λ r. r.table) (readings_of scope.now expr.now) }
{}

/// Tokens are one expression at most.
pub fn one_expression()
    ensures { (xs : List Lexeme) (a b : Written) →
        grammar.Written a xs → grammar.Written b xs → a ≡ b }
{}

/// The tokens from a place on are one expression with one end, or fail at one place, and never
/// both.
pub fn one_answer()
    ensures one { (xs : List Lexeme) (from : ℕ) (e f : Written) (m n : ℕ) →
        Reads xs from e m → Reads xs from f n → (e ≡ f) × (m ≡ n) }
    ensures fault { (xs : List Lexeme) (from m n : ℕ) →
        Fails xs from m → Fails xs from n → m ≡ n }
    ensures either { (xs : List Lexeme) (from : ℕ) (e : Written) (m n : ℕ) →
        Reads xs from e m → Fails xs from n → ⊥ }
    ensures some { (xs : List Lexeme) (from : ℕ) → HasAnswer xs from }
{}
