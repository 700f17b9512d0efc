ghost use Rattle.std.specs.Prelude.{◌≡◌, ◌⊎◌, ℕ, List, All, IfOk, IfErr, MatchResult};
ghost use Rattle.rt_sql.specs.declared.lexeme.Token as token;
ghost use Rattle.rt_sql.specs.Cut.{IsCut, IsUncut};
ghost use Rattle.rt_sql.specs.Lexeme.{IsTokenOf};
ghost use Rattle.rt_sql.specs.Answers.{NamesUncut};

use crate::fault::SqlFault;
use crate::lexeme::Token;
use crate::piece::{Piece, longest_piece};
use std::alloc::Global;

/// The tokens of the text: blanks and comments stand between them, and each is the longest that
/// begins at its place. Places count bytes from 0.
///
/// `BadToken` names the first place at which no token, blank or comment begins.
pub fn tokens(alloc: Global, text: &str) -> Result<Vec<Token>, SqlFault>
    ensures ok { IfOk result (λ tokens. IsCut text.now tokens.items) }
    ensures each { IfOk result (λ tokens. All (IsTokenOf text.now) tokens.items) }
    ensures bad { IfErr result (NamesUncut text.now) }

    ensures cut { (list : List token.Token) → IsCut text.now list → MatchResult result (λ tokens. tokens.items ≡ list) (λ fault. fault ≡ SqlFault.NoMemory) }
    ensures uncut { (at : ℕ) → IsUncut text.now at → MatchResult result (λ _. ⊥) (λ fault. (fault ≡ SqlFault.BadToken at) ⊎ (fault ≡ SqlFault.NoMemory)) }
{
    byte_tokens(alloc, text.as_bytes())
}

/// The tokens of bytes that need not be UTF-8, as `tokens` gives those of a text.
pub fn byte_tokens(alloc: Global, text: &[u8]) -> Result<Vec<Token>, SqlFault>
    ensures ok { IfOk result (λ tokens. IsCut text.now tokens.items) }
    ensures bad { IfErr result (NamesUncut text.now) }

    ensures cut { (list : List token.Token) → IsCut text.now list → MatchResult result (λ tokens. tokens.items ≡ list) (λ fault. fault ≡ SqlFault.NoMemory) }
    ensures uncut { (at : ℕ) → IsUncut text.now at → MatchResult result (λ _. ⊥) (λ fault. (fault ≡ SqlFault.BadToken at) ⊎ (fault ≡ SqlFault.NoMemory)) }
{
    let mut tokens = Vec::new(alloc);
    let mut at = 0;
    while at < text.len() {
        let Some((piece, length)) = longest_piece(&text[at..]) else {
            return Err(SqlFault::BadToken { at });
        };
        let to = at + length;
        if let Piece::Token(kind) = piece {
            tokens.push(Token { kind, from: at, to })?;
        }
        at = to;
    }
    Ok(tokens)
}
