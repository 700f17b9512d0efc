//! The words and signs of a catalogue's text.
ghost use Rattle.std.specs.Prelude.{◌≡◌, ◌↔◌, All, ℕ, List, true, map, codes, IfOk, IfErr, IsTrue};
ghost use Rattle.std.specs.Prelude.{MatchResult};
ghost use Rattle.std.specs.List.{list_all, list_any};
ghost use Rattle.std.specs.Str.{bytes_eq};
ghost use Rattle.std.specs.Str.Iter.{HasSubslice};
ghost use Rattle.rt_sql.specs.Cut.{IsCut};
ghost use Rattle.rt_sql.specs.Lexeme.{IsTokenOf};
ghost use Rattle.rt_sql.specs.declared.lexeme.Token as token;
ghost use Rattle.rt_form.specs.Lexing.{AreWords, begins_name, is_name, is_plain, reserved};
ghost use Rattle.rt_form.specs.Lexing.{word_of};

use crate::fault::FormFault;
use rt_sql::{SqlFault, Token, TokenKind, tokens};
use rt_value::Text;
use std::alloc::Global;

/// Words of expressions, which are no names.
const RESERVED: [&str; 12] = [
    "and", "or", "not", "in", "is", "null", "true", "false", "exists", "select", "from", "where",
];

/// The most bytes of a name.
const MOST_NAME_BYTES: usize = 63;

/// The tokens of a text. `NotBuilt` where it has none.
fn cut(alloc: Global, text: &str) -> Result<Vec<Token>, FormFault>
    ensures found { IfOk result (λ tokens. IsCut text.now tokens.items) }
    ensures each { IfOk result (λ tokens. All (IsTokenOf text.now) tokens.items) }
    ensures only { (list : List token.Token) → IsCut text.now list → MatchResult result
        (λ tokens. tokens.items ≡ list) (λ fault. fault ≡ FormFault.NoMemory) }
{
    match tokens(alloc, text) {
        Ok(tokens) => Ok(tokens),
        Err(SqlFault::NoMemory) => Err(FormFault::NoMemory),
        Err(SqlFault::BadToken { .. }) => Err(FormFault::NotBuilt),
    }
}

/// The word that a token is, in lower case, or the sign. `NotBuilt` for another kind of token.
fn word_in(alloc: Global, text: &str, token: &Token) -> Result<Text, FormFault>
    requires { IsTokenOf text.now token.now }
    ensures found { IfOk result (λ word. word ≡ word_of text.now token.now) }
    ensures plain { IfOk result (λ word. is_plain token.now.kind ≡ true) }
    ensures only { IfErr result (λ fault. is_plain token.now.kind ≡ true
        → fault ≡ FormFault.NoMemory) }
{
    match token.kind {
        TokenKind::Word => Ok(Text::new(token.name(alloc, text)?)),
        TokenKind::Sign => Ok(Text::new(String::from_str(alloc, token.slice(text))?)),
        _ => Err(FormFault::NotBuilt),
    }
}

/// Each token's word.
fn words_in(alloc: Global, text: &str, tokens: &[Token]) -> Result<Vec<Text>, FormFault>
    requires { All (IsTokenOf text.now) tokens.now }
    ensures found { IfOk result (λ words. words.items ≡ map (word_of text.now) tokens.now) }
    ensures plain { IfOk result (λ words. list_all (λ t. is_plain t.kind) tokens.now ≡ true) }
    ensures only { IfErr result (λ fault. list_all (λ t. is_plain t.kind) tokens.now ≡ true
        → fault ≡ FormFault.NoMemory) }
{
    let mut words = Vec::new(alloc);
    for token in tokens {
        words.push(word_in(alloc, text, token)?)?;
    }
    Ok(words)
}

/// Whether a comment begins somewhere, if no token of the text has quotes.
fn has_comment(text: &str) -> bool
    ensures { IsTrue result ↔ HasSubslice text.now (codes "--") }
{
    text.contains("--")
}

/// The words of a text in lower case, and its signs. `NotBuilt` where another kind of token stands
/// in it, or a comment.
pub fn words_of(alloc: Global, text: &str) -> Result<Vec<Text>, FormFault>
    ensures found { IfOk result (λ words. AreWords text.now words.items) }
    ensures only { (words : List (List ℕ)) → AreWords text.now words → MatchResult result
        (λ found. found.items ≡ words) (λ fault. fault ≡ FormFault.NoMemory) }
{
    if has_comment(text) {
        return Err(FormFault::NotBuilt);
    }
    let tokens = cut(alloc, text)?;
    words_in(alloc, text, tokens.as_slice())
}

fn begins_name(word: &str) -> bool
    ensures { result ≡ begins_name word.now }
{
    match word.as_bytes() {
        [first, ..] => first.is_ascii_alphabetic() || *first == b'_',
        [] => false,
    }
}

fn is_reserved(word: &str) -> bool
    ensures { result ≡ list_any (λ r. bytes_eq r word.now) reserved }
{
    RESERVED.contains(&word)
}

/// Whether a word or sign is a name: a word that has at most 63 bytes and is none of those of
/// expressions.
pub fn is_name(word: &str) -> bool
    ensures { result ≡ is_name word.now }
{
    word.len() <= MOST_NAME_BYTES && begins_name(word) && !is_reserved(word)
}
