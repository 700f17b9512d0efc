//! The words of a catalogue's statements, read from the first on. What reads a part answers it and
//! the words behind it.
ghost use Rattle.std.specs.Prelude.{◌≡◌, ◌≢◌, ◌↔◌, ◌∷◌, ℕ, Bool, List, codes, not, true, IsTrue};
ghost use Rattle.std.specs.Prelude.{MatchOption};
ghost use Rattle.rt_form.specs.Lexing as lexing;
ghost use Rattle.rt_form.specs.Messages.{shown_type};
ghost use Rattle.rt_form.specs.Statements.{AreColumns, AreNamed, IsRole, column_words};
ghost use Rattle.rt_form.specs.Statements.{columns_words, grant_words, key_words, role_words};
ghost use Rattle.rt_form.specs.Statements.{table_words};
ghost use Rattle.rt_form.specs.declared.catalogue.ColumnType as t;

use crate::ColumnType;
use crate::lexing::is_name;
use rt_value::Text;

/// A column as a statement writes it.
#[derive(Clone, Copy)]
struct ColumnWords<'a> {
    name: &'a Text,
    column_type: ColumnType,
    is_key: bool,
}

/// The two columns of a table, in the order of the statement. The first is the key where the second
/// isn't.
#[derive(Clone, Copy)]
pub struct TwoColumns<'a> {
    pub first: &'a Text,
    pub first_type: ColumnType,
    pub second: &'a Text,
    pub second_type: ColumnType,
    pub second_is_key: bool,
}

/// A table as a statement writes it.
#[derive(Clone, Copy)]
pub struct TableWords<'a> {
    pub name: &'a Text,
    pub columns: TwoColumns<'a>,
}

/// What the three statements name: a table, and the role that may read it.
#[derive(Clone, Copy)]
pub struct Names<'a> {
    pub table: TableWords<'a>,
    pub role: &'a Text,
}

fn is_word(word: &Text, wanted: &str) -> bool
    ensures { IsTrue result ↔ (word.now ≡ wanted.now) }
{
    word.get() == wanted
}

/// The words behind the first one, which has to be this one.
fn first_word<'a>(words: &'a [Text], wanted: &str) -> Option<&'a [Text]>
    ensures { MatchOption result ((rest : List (List ℕ)) → words.now ≡ wanted.now ∷ rest → ⊥)
        (λ rest. words.now ≡ wanted.now ∷ rest.now) }
{
    match words {
        [first, rest @ ..] => {
            if is_word(first, wanted) {
                Some(rest)
            } else {
                None
            }
        }
        [] => None,
    }
}

/// The words behind the first two, which have to be these.
fn two_words<'a>(words: &'a [Text], one: &str, two: &str) -> Option<&'a [Text]>
    ensures { MatchOption result ((rest : List (List ℕ)) → words.now ≡ one.now ∷ two.now ∷ rest → ⊥)
        (λ rest. words.now ≡ one.now ∷ two.now ∷ rest.now) }
{
    let rest = first_word(words, one)?;
    first_word(rest, two)
}

/// The first word, which has to be a name.
fn first_name(words: &[Text]) -> Option<(&Text, &[Text])>
    ensures { MatchOption result ((name : List ℕ) (rest : List (List ℕ))
        → lexing.is_name name ≡ true → words.now ≡ name ∷ rest → ⊥)
        (λ found. (lexing.is_name found.0.now ≡ true) × (words.now ≡ found.0.now ∷ found.1.now)) }
{
    match words {
        [first, rest @ ..] => {
            if is_name(first.get()) {
                Some((first, rest))
            } else {
                None
            }
        }
        [] => None,
    }
}

fn column_type_of(word: &str) -> Option<ColumnType>
    ensures { MatchOption result
        ((column_type : t.ColumnType) → word.now ≡ shown_type column_type → ⊥)
        (λ column_type. word.now ≡ shown_type column_type) }
{
    match word {
        "int4" => Some(ColumnType::Int4),
        "text" => Some(ColumnType::Text),
        _ => None,
    }
}

/// The type that the first word names.
fn first_type(words: &[Text]) -> Option<(ColumnType, &[Text])>
    ensures { MatchOption result ((column_type : t.ColumnType) (rest : List (List ℕ))
        → words.now ≡ shown_type column_type ∷ rest → ⊥)
        (λ found. words.now ≡ shown_type found.0 ∷ found.1.now) }
{
    match words {
        [first, rest @ ..] => {
            let column_type = column_type_of(first.get())?;
            Some((column_type, rest))
        }
        [] => None,
    }
}

/// Whether the column is the key, up to the sign that ends it.
fn key_and_rest<'a>(words: &'a [Text], end: &str) -> Option<(bool, &'a [Text])>
    requires { end.now ≢ codes "primary" }
    ensures { MatchOption result ((is_key : Bool) (rest : List (List ℕ))
        → words.now ≡ key_words is_key (end.now ∷ rest) → ⊥)
        (λ found. words.now ≡ key_words found.0 (end.now ∷ found.1.now)) }
{
    match two_words(words, "primary", "key") {
        Some(behind) => {
            let rest = first_word(behind, end)?;
            Some((true, rest))
        }
        None => {
            let rest = first_word(words, end)?;
            Some((false, rest))
        }
    }
}

/// A column's name, its type and whether it is the key, up to the sign that ends it.
fn column<'a>(words: &'a [Text], end: &str) -> Option<(ColumnWords<'a>, &'a [Text])>
    requires { end.now ≢ codes "primary" }
    ensures { MatchOption result
        ((name : List ℕ) (column_type : t.ColumnType) (is_key : Bool) (rest : List (List ℕ))
        → lexing.is_name name ≡ true
        → words.now ≡ column_words name column_type is_key (end.now ∷ rest) → ⊥)
        (λ found. let c = found.0 in (lexing.is_name c.name.now ≡ true)
        × (words.now ≡ column_words c.name.now c.column_type c.is_key (end.now ∷ found.1.now))) }
{
    let (name, rest) = first_name(words)?;
    let (column_type, rest) = first_type(rest)?;
    let (is_key, rest) = key_and_rest(rest, end)?;
    let column = ColumnWords {
        name,
        column_type,
        is_key,
    };
    Some((column, rest))
}

fn is_other(one: bool, other: bool) -> bool
    ensures { IsTrue result ↔ (one ≡ not other) }
{
    one != other
}

fn differ(one: &str, other: &str) -> bool
    ensures { IsTrue result ↔ (one.now ≢ other.now) }
{
    one != other
}

/// Two columns of different names, one of them the key, and the parenthesis behind them.
fn two_columns(words: &[Text]) -> Option<(TwoColumns<'_>, &[Text])>
    ensures { MatchOption result
        ((first : List ℕ) (first_type : t.ColumnType) (second : List ℕ) (second_type : t.ColumnType)
        (is_key : Bool) (rest : List (List ℕ)) → AreColumns first second
        → words.now ≡ columns_words first first_type second second_type is_key rest → ⊥)
        (λ found. let c = found.0 in AreColumns c.first.now c.second.now
        × (words.now ≡ columns_words c.first.now c.first_type c.second.now c.second_type
        c.second_is_key found.1.now)) }
{
    let (first, rest) = column(words, ",")?;
    let (second, rest) = column(rest, ")")?;
    if !is_other(first.is_key, second.is_key) {
        return None;
    }
    if !differ(first.name.get(), second.name.get()) {
        return None;
    }
    let columns = TwoColumns {
        first: first.name,
        first_type: first.column_type,
        second: second.name,
        second_type: second.column_type,
        second_is_key: second.is_key,
    };
    Some((columns, rest))
}

/// `create table NAME (NAME TYPE, NAME TYPE);`: the table's name and its two columns.
fn table(words: &[Text]) -> Option<(TableWords<'_>, &[Text])>
    ensures { MatchOption result
        ((table first : List ℕ) (first_type : t.ColumnType)
        (second : List ℕ) (second_type : t.ColumnType) (is_key : Bool) (rest : List (List ℕ))
        → lexing.is_name table ≡ true → AreColumns first second
        → words.now ≡ table_words table first first_type second second_type is_key rest → ⊥)
        (λ found. let n = found.0.name in let c = found.0.columns in (lexing.is_name n.now ≡ true)
        × AreColumns c.first.now c.second.now
        × (words.now ≡ table_words n.now c.first.now c.first_type c.second.now c.second_type
        c.second_is_key found.1.now)) }
{
    let behind = two_words(words, "create", "table")?;
    let (name, named) = first_name(behind)?;
    let inside = first_word(named, "(")?;
    let (columns, end) = two_columns(inside)?;
    let rest = first_word(end, ";")?;
    Some((TableWords { name, columns }, rest))
}

/// `create role NAME;`: the role's name.
fn role(words: &[Text]) -> Option<(&Text, &[Text])>
    ensures { MatchOption result ((role : List ℕ) (rest : List (List ℕ)) → IsRole role
        → words.now ≡ role_words role rest → ⊥)
        (λ found. IsRole found.0.now × (words.now ≡ role_words found.0.now found.1.now)) }
{
    let behind = two_words(words, "create", "role")?;
    let (role, named) = first_name(behind)?;
    let rest = first_word(named, ";")?;
    if differ(role.get(), "public") {
        Some((role, rest))
    } else {
        None
    }
}

/// `grant select on NAME to NAME;`, with these names.
fn grant<'a>(words: &'a [Text], table: &str, role: &str) -> Option<&'a [Text]>
    ensures { MatchOption result ((rest : List (List ℕ))
        → words.now ≡ grant_words table.now role.now rest → ⊥)
        (λ rest. words.now ≡ grant_words table.now role.now rest.now) }
{
    let behind = two_words(words, "grant", "select")?;
    let granted = two_words(behind, "on", table)?;
    let end = two_words(granted, "to", role)?;
    first_word(end, ";")
}

/// The names in the three statements.
pub fn names_in(words: &[Text]) -> Option<Names<'_>>
    ensures { MatchOption result
        ((table first : List ℕ) (first_type : t.ColumnType)
        (second : List ℕ) (second_type : t.ColumnType) (is_key : Bool) (role : List ℕ)
        → AreNamed words.now table first first_type second second_type is_key role → ⊥)
        (λ found. let c = found.table.columns in AreNamed words.now found.table.name.now
        c.first.now c.first_type c.second.now c.second_type c.second_is_key found.role.now) }
{
    let (table, behind) = table(words)?;
    let (role, granted) = role(behind)?;
    let rest = grant(granted, table.name.get(), role.get())?;
    if rest.is_empty() {
        Some(Names { table, role })
    } else {
        None
    }
}
