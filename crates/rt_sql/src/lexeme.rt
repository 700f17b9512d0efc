ghost use Rattle.std.specs.Prelude.{◌≡◌, ◌↔◌, ◌<◌, IsTrue, IfOk, string_bytes};
ghost use Rattle.rt_sql.specs.Front.{IsQuoted};
ghost use Rattle.rt_sql.specs.Lexeme.{unquoted};

use std::alloc::{AllocError, Global};

/// The kinds of tokens.
#[derive(Clone, Copy, Debug, PartialEq, Eq)]
pub enum TokenKind {
    /// A letter or `_`, then letters, digits and `_`, of ASCII.
    Word,
    /// `"` .. `"`, not empty, a quote inside doubled.
    Quoted,
    /// `'` .. `'`, a quote inside doubled.
    Text,
    /// One or more digits.
    Number,
    /// One of `( ) , ; . = <> != < <= > >= :: ->> * [ ] -`.
    Sign,
}

/// A token of a text, from its first byte to the byte after its last, counted from 0.
#[derive(Clone, Copy, Debug, PartialEq, Eq)]
pub struct Token {
    pub kind: TokenKind,
    pub from: usize,
    pub to: usize,
}

impl Token {
    ghost use Rattle.std.specs.Str.{str_to_ascii_lowercase};
    ghost use Rattle.rt_sql.specs.declared.lexeme.TokenKind.TheVariants as kind;
    ghost use Rattle.rt_sql.specs.Lexeme.{IsTokenOf, MayName, IsKeyword, IsSign, bytes_of, lexeme_of, kept_name, content};

    /// Lends the token as it stands in its text.
    pub fn slice<'a>(&self, text: &'a str) -> &'a str
        requires { IsTokenOf text.now self.now }
        ensures { result.now ≡ bytes_of text.now self.now }
    {
        &text[self.from..self.to]
    }

    /// Whether the token is a keyword, in whatever case. A quoted name is none.
    pub fn is_keyword(&self, text: &str, keyword: &str) -> bool
        requires { IsTokenOf text.now self.now }
        ensures { IsTrue result ↔ IsKeyword (str_to_ascii_lowercase keyword.now) (lexeme_of text.now self.now) }
    {
        self.kind == TokenKind::Word && self.slice(text).eq_ignore_ascii_case(keyword)
    }

    /// Whether the token is a sign.
    pub fn is_sign(&self, text: &str, sign: &str) -> bool
        requires { IsTokenOf text.now self.now }
        ensures { IsTrue result ↔ IsSign sign.now (lexeme_of text.now self.now) }
    {
        self.kind == TokenKind::Sign && self.slice(text) == sign
    }

    /// Whether the token may be a name: it is a word or a quoted name.
    pub fn may_name(&self) -> bool
        ensures { IsTrue result ↔ MayName self.now.kind }
    {
        matches!(self.kind, TokenKind::Word | TokenKind::Quoted)
    }

    /// The name that a word keeps, in lower case, or a quoted name, without its quotes and with each
    /// doubled quote once. Fails for want of memory alone.
    pub fn name(&self, alloc: Global, text: &str) -> Result<String, AllocError>
        requires of_text { IsTokenOf text.now self.now }
        requires names { MayName self.now.kind }
        ensures { IfOk result (λ name. string_bytes name ≡ kept_name (lexeme_of text.now self.now)) }
    {
        match self.kind {
            TokenKind::Quoted => unquoted(alloc, self.slice(text), '"'),
            _ => self.slice(text).to_ascii_lowercase(alloc),
        }
    }

    /// The content of a text, without its quotes and with each doubled quote once. Fails for want of
    /// memory alone.
    pub fn content(&self, alloc: Global, text: &str) -> Result<String, AllocError>
        requires of_text { IsTokenOf text.now self.now }
        requires is_text { self.now.kind ≡ kind.Text }
        ensures { IfOk result (λ inner. string_bytes inner ≡ content (lexeme_of text.now self.now)) }
    {
        unquoted(alloc, self.slice(text), '\'')
    }
}

/// What stands between the quotes, each doubled quote once.
fn unquoted(alloc: Global, quoted: &str, quote: char) -> Result<String, AllocError>
    requires ascii { quote < 128 }
    requires in_quotes { IsQuoted quote quoted.now }
    ensures { IfOk result (λ inner. string_bytes inner ≡ unquoted quote quoted.now) }
{
    let mut inner = String::new(alloc);
    let mut rest = &quoted[1..quoted.len() - 1];
    while let Some((before, after)) = rest.split_once(quote) {
        inner.push_str(before)?;
        inner.push(quote)?;
        rest = &after[1..];
    }
    inner.push_str(rest)?;
    Ok(inner)
}
