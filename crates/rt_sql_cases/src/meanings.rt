use crate::cuts::answered;
use rt_sql::{SqlFault, TokenKind, tokens};
use std::alloc::Global;
use std::fmt::Write;
use std::io;

/// What each token keeps: a word and a quoted name their name, a text its content, another nothing;
/// each in brackets.
pub fn names(alloc: Global, text: &str) -> io::Result<String> {
    answered(alloc, kept(alloc, text))
}

/// Whether each token is the keyword.
pub fn keywords(alloc: Global, keyword: &str, text: &str) -> io::Result<String> {
    answered(alloc, which_keywords(alloc, keyword, text))
}

/// Whether each token is the sign.
pub fn signs(alloc: Global, sign: &str, text: &str) -> io::Result<String> {
    answered(alloc, which_signs(alloc, sign, text))
}

fn kept(alloc: Global, text: &str) -> Result<String, SqlFault> {
    let mut answer = String::new(alloc);
    for token in &tokens(alloc, text)? {
        let kept = if token.may_name() {
            token.name(alloc, text)?
        } else if token.kind == TokenKind::Text {
            token.content(alloc, text)?
        } else {
            String::new(alloc)
        };
        write!(answer, "[{kept}]")?;
    }
    Ok(answer)
}

fn which_keywords(alloc: Global, keyword: &str, text: &str) -> Result<String, SqlFault> {
    let mut answer = String::new(alloc);
    for token in &tokens(alloc, text)? {
        answer.push_str(if token.is_keyword(text, keyword) {
            "[yes]"
        } else {
            "[no]"
        })?;
    }
    Ok(answer)
}

fn which_signs(alloc: Global, sign: &str, text: &str) -> Result<String, SqlFault> {
    let mut answer = String::new(alloc);
    for token in &tokens(alloc, text)? {
        answer.push_str(if token.is_sign(text, sign) {
            "[yes]"
        } else {
            "[no]"
        })?;
    }
    Ok(answer)
}
