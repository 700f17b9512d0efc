ghost use Rattle.std.specs.Prelude.{◌≡◌};
ghost use Rattle.std.specs.Str.{bytes_eq, str_to_ascii_lowercase};
ghost use Rattle.rt_sql.specs.Lexeme.{IsTokenOf, lexeme_of};
ghost use Rattle.rt_policy.specs.Words.{word_text, word_of, is_spelled, sign_of, class_of};
ghost use Rattle.rt_policy.specs.Words.{is_reserved, is_name};
ghost use Rattle.rt_policy.specs.Machine.{tested_of};
ghost use Rattle.rt_policy.specs.Parts.{word_next, is_auth};
ghost use Rattle.rt_lexeme.specs.Among.{word_among, sign_among};

use rt_policy::words::{Class, Sign, Word};
use rt_policy::{Comparison, Tested};
use rt_sql::{Token, TokenKind};

fn word_text(word: Word) -> &'static str
    ensures { result.now ≡ word_text word }
{
    match word {
        Word::And => "and",
        Word::Or => "or",
        Word::Not => "not",
        Word::In => "in",
        Word::Is => "is",
        Word::Null => "null",
        Word::True => "true",
        Word::False => "false",
        Word::Exists => "exists",
        Word::Select => "select",
        Word::From => "from",
        Word::Where => "where",
        Word::As => "as",
        Word::Auth => "auth",
        Word::Uid => "uid",
        Word::Role => "role",
        Word::Jwt => "jwt",
        Word::Unknown => "unknown",
        Word::Timestamp => "timestamp",
        Word::With => "with",
        Word::Without => "without",
        Word::Time => "time",
        Word::Zone => "zone",
        Word::Double => "double",
        Word::Precision => "precision",
        Word::Character => "character",
        Word::Varying => "varying",
        Word::Other => "",
    }
}

/// Whether bytes are the word, in whatever case.
fn is_word(bytes: &str, word: Word) -> bool
    ensures { result ≡ bytes_eq (str_to_ascii_lowercase bytes.now) (word_text word) }
{
    bytes.eq_ignore_ascii_case(word_text(word))
}

/// The first of the words that bytes are.
fn word_among(words: &[Word], bytes: &str) -> Word
    ensures { result ≡ word_among (str_to_ascii_lowercase bytes.now) words.now }
{
    for word in words {
        if is_word(bytes, *word) {
            return *word;
        }
    }
    Word::Other
}

#[tactic(none)]
fn word_of(bytes: &str) -> Word
    ensures { result ≡ word_of (str_to_ascii_lowercase bytes.now) }
{
    let words = [
        Word::And,
        Word::Or,
        Word::Not,
        Word::In,
        Word::Is,
        Word::Null,
        Word::True,
        Word::False,
        Word::Exists,
        Word::Select,
        Word::From,
        Word::Where,
        Word::As,
        Word::Auth,
        Word::Uid,
        Word::Role,
        Word::Jwt,
        Word::Unknown,
        Word::Timestamp,
        Word::With,
        Word::Without,
        Word::Time,
        Word::Zone,
        Word::Double,
        Word::Precision,
        Word::Character,
        Word::Varying,
    ];
    word_among(&words, bytes)
}

fn is_spelled(class: Class, bytes: &str) -> bool
    ensures { result ≡ is_spelled class bytes.now }
{
    match class {
        Class::Sign(Sign::Open) => bytes == "(",
        Class::Sign(Sign::Close) => bytes == ")",
        Class::Sign(Sign::Comma) => bytes == ",",
        Class::Sign(Sign::Dot) => bytes == ".",
        Class::Sign(Sign::Colons) => bytes == "::",
        Class::Sign(Sign::Minus) => bytes == "-",
        Class::Sign(Sign::Star) => bytes == "*",
        Class::Sign(Sign::LeftBracket) => bytes == "[",
        Class::Sign(Sign::RightBracket) => bytes == "]",
        Class::Sign(Sign::Arrow) => bytes == "->>",
        Class::Compared(Comparison::Equal) => bytes == "=",
        Class::Compared(Comparison::NotEqual) => bytes == "<>" || bytes == "!=",
        Class::Compared(Comparison::Less) => bytes == "<",
        Class::Compared(Comparison::LessOrEqual) => bytes == "<=",
        Class::Compared(Comparison::Greater) => bytes == ">",
        Class::Compared(Comparison::GreaterOrEqual) => bytes == ">=",
        _ => false,
    }
}

/// The first of the classes that bytes are spelled as.
fn sign_among(signs: &[Class], bytes: &str) -> Class
    ensures { result ≡ sign_among bytes.now signs.now }
{
    for class in signs {
        if is_spelled(*class, bytes) {
            return *class;
        }
    }
    Class::Sign(Sign::Other)
}

#[tactic(none)]
fn sign_of(bytes: &str) -> Class
    ensures { result ≡ sign_of bytes.now }
{
    let signs = [
        Class::Sign(Sign::Open),
        Class::Sign(Sign::Close),
        Class::Sign(Sign::Comma),
        Class::Sign(Sign::Dot),
        Class::Sign(Sign::Colons),
        Class::Sign(Sign::Minus),
        Class::Sign(Sign::Star),
        Class::Sign(Sign::LeftBracket),
        Class::Sign(Sign::RightBracket),
        Class::Sign(Sign::Arrow),
        Class::Compared(Comparison::Equal),
        Class::Compared(Comparison::NotEqual),
        Class::Compared(Comparison::Less),
        Class::Compared(Comparison::LessOrEqual),
        Class::Compared(Comparison::Greater),
        Class::Compared(Comparison::GreaterOrEqual),
    ];
    sign_among(&signs, bytes)
}

/// What a token is to an expression.
pub fn class_of(text: &str, token: Token) -> Class
    requires { IsTokenOf text.now token }
    ensures { result ≡ class_of (lexeme_of text.now token) }
{
    match token.kind {
        TokenKind::Word => Class::Word(word_of(token.slice(text))),
        TokenKind::Quoted => Class::Quoted,
        TokenKind::Text => Class::Text,
        TokenKind::Number => Class::Number,
        TokenKind::Sign => sign_of(token.slice(text)),
    }
}

fn is_reserved(word: Word) -> bool
    ensures { result ≡ is_reserved word }
{
    matches!(
        word,
        Word::And
            | Word::Or
            | Word::Not
            | Word::In
            | Word::Is
            | Word::Null
            | Word::True
            | Word::False
            | Word::Exists
            | Word::Select
            | Word::From
            | Word::Where
    )
}

/// Whether the token is a name in an expression.
pub fn is_name(class: Class) -> bool
    ensures { result ≡ is_name class }
{
    match class {
        Class::Quoted => true,
        Class::Word(word) => !is_reserved(word),
        _ => false,
    }
}

/// The word that the next token is, `Other` where it is none or there is no token.
pub fn word_next(class: Option<Class>) -> Word
    ensures { result ≡ word_next class }
{
    match class {
        Some(Class::Word(word)) => word,
        _ => Word::Other,
    }
}

/// Whether the token is the word `auth`.
pub fn is_auth(class: Class) -> bool
    ensures { result ≡ is_auth class }
{
    matches!(class, Class::Word(Word::Auth))
}

/// What IS asks where the next token comes behind it, or behind its NOT; none where the token
/// asks nothing.
pub fn tested_of(class: Option<Class>) -> Option<Tested>
    ensures { result ≡ tested_of class }
{
    match class {
        Some(Class::Word(Word::Null)) => Some(Tested::Null),
        Some(Class::Word(Word::True)) => Some(Tested::True),
        Some(Class::Word(Word::False)) => Some(Tested::False),
        Some(Class::Word(Word::Unknown)) => Some(Tested::Unknown),
        _ => None,
    }
}
