ghost use Rattle.std.specs.Prelude.{◌≡◌, All, IfOk};
ghost use Rattle.std.specs.List.{list_any};
ghost use Rattle.rt_sql.specs.Lexeme.{IsTokenOf, lexeme_of, lexemes};
ghost use Rattle.rt_lexeme.specs.Long.{is_long_token};

use rt_sql::Token;
use std::alloc::{AllocError, Global};

/// Whether the token keeps a name of more than 63 bytes.
fn is_long(alloc: Global, text: &str, token: Token) -> Result<bool, AllocError>
    requires { IsTokenOf text.now token }
    ensures { IfOk result (λ b. b ≡ is_long_token (lexeme_of text.now token)) }
{
    if token.may_name() {
        Ok(token.name(alloc, text)?.len() > 63)
    } else {
        Ok(false)
    }
}

/// Whether some token of the text keeps a name of more than 63 bytes. Fails for want of memory
/// alone.
pub fn any_long(alloc: Global, text: &str, tokens: &[Token]) -> Result<bool, AllocError>
    requires { All (IsTokenOf text.now) tokens.now }
    ensures { IfOk result (λ b. b ≡ list_any is_long_token (lexemes text.now tokens.now)) }
{
    for token in tokens {
        if is_long(alloc, text, *token)? {
            return Ok(true);
        }
    }
    Ok(false)
}
