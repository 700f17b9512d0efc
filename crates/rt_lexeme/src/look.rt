ghost use Rattle.std.specs.Prelude.{◌≡◌, [], Some, None, IfOk};
ghost use Rattle.rt_sql.specs.Lexeme.{IsTokenOf, MayName, content, kept_name, lexeme_of};
ghost use Rattle.rt_policy.specs.Parts.{name_next};
ghost use Rattle.rt_policy.specs.declared.words.Class.TheVariants as class;
ghost use Rattle.rt_lexeme.specs.Look.{IsLook, lexeme_in, seen_in};

use crate::classes::{class_of, is_name};
use rt_policy::words::Class;
use rt_sql::Token;
use rt_value::Text;
use std::alloc::{AllocError, Global};

/// The token that is looked at with its class, or the end.
#[derive(Clone, Copy)]
pub struct Look {
    pub token: Option<Token>,
    pub class: Option<Class>,
}

/// Looks at a token of the text.
pub fn at_token(text: &str, token: Token) -> Look
    requires { IsTokenOf text.now token }
    ensures look { IsLook text.now result }
    ensures seen { seen_in text.now result ≡ Some (lexeme_of text.now token) }
{
    let class = class_of(text, token);
    Look {
        token: Some(token),
        class: Some(class),
    }
}

/// Looks at the end of the tokens.
pub fn at_end(text: &str) -> Look
    ensures look { IsLook text.now result }
    ensures seen { seen_in text.now result ≡ None }
{
    let _ = text;
    Look {
        token: None,
        class: None,
    }
}

fn empty(alloc: Global) -> Text
    ensures { result ≡ [] }
{
    Text::new(String::new(alloc))
}

fn name_of(alloc: Global, text: &str, token: Token) -> Result<Option<Text>, AllocError>
    requires of_text { IsTokenOf text.now token }
    requires names { MayName token.kind }
    ensures { IfOk result (λ n. n ≡ Some (kept_name (lexeme_of text.now token))) }
{
    Ok(Some(Text::new(token.name(alloc, text)?)))
}

/// The name that the token is, lower case where it isn't quoted; none where it is no name or there
/// is no token. Fails for want of memory alone.
pub fn name(alloc: Global, text: &str, look: Look) -> Result<Option<Text>, AllocError>
    requires { IsLook text.now look }
    ensures { IfOk result (λ n. n ≡ name_next look.class (lexeme_in text.now look)) }
{
    match look.class {
        None => Ok(None),
        Some(class) => {
            if !is_name(class) {
                return Ok(None);
            }
            match look.token {
                None => Ok(None),
                Some(token) => name_of(alloc, text, token),
            }
        }
    }
}

/// The content of the token, which is a text in quotes. Fails for want of memory alone.
pub fn content(alloc: Global, text: &str, look: Look) -> Result<Text, AllocError>
    requires look { IsLook text.now look }
    requires quoted { look.class ≡ Some class.Text }
    ensures { IfOk result (λ t. t ≡ content (lexeme_in text.now look)) }
{
    match look.token {
        None => Ok(empty(alloc)),
        Some(token) => Ok(Text::new(token.content(alloc, text)?)),
    }
}

/// The token as it stands in the text. Fails for want of memory alone.
pub fn digits(alloc: Global, text: &str, look: Look) -> Result<Text, AllocError>
    requires { IsLook text.now look }
    ensures { IfOk result (λ t. t ≡ (lexeme_in text.now look).bytes) }
{
    match look.token {
        None => Ok(empty(alloc)),
        Some(token) => Ok(Text::new(String::from_str(alloc, token.slice(text))?)),
    }
}
