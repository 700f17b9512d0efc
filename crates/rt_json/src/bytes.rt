ghost use Rattle.std.specs.Prelude.{◌≡◌};
ghost use Rattle.rt_json.specs.Grammar.{is_blank};
ghost use Rattle.rt_json.specs.Text as text;
ghost use Rattle.rt_json.specs.Reads.{is_plain};
ghost use Rattle.rt_json.specs.Machine as spec;

/// A word of the grammar.
#[derive(Clone, Copy)]
pub enum Word {
    Null,
    True,
    False,
}

/// Where in a number: the part that was read last.
#[derive(Clone, Copy)]
pub enum Digits {
    Minus,
    Zero,
    Whole,
    Point,
    Fraction,
    Mark,
    Sign,
    Exponent,
}

/// What a byte may begin outside of words, numbers and texts.
#[derive(Clone, Copy)]
pub enum Class {
    Blank,
    Quote,
    Comma,
    NumberStart(Digits),
    Colon,
    LeftBracket,
    RightBracket,
    WordStart(Word),
    LeftBrace,
    RightBrace,
    Other,
}

/// Which bytes may follow within a character of several bytes.
#[derive(Clone, Copy)]
pub enum Tail {
    /// 80 to BF.
    Any,
    /// A0 to BF, since a lesser one would spell a shorter character longer.
    FromA0,
    /// 80 to 9F, since a greater one would spell a surrogate.
    UpTo9F,
    /// 90 to BF, since a lesser one would spell a shorter character longer.
    From90,
    /// 80 to 8F, since a greater one would spell no character.
    UpTo8F,
}

#[tactic(auto, unfolding(crate::specs::Machine::class_of))]
pub fn class_of(byte: u8) -> Class
    ensures { result ≡ spec.class_of byte }
{
    match byte {
        b' ' | b'\t' | b'\n' | b'\r' => Class::Blank,
        b'"' => Class::Quote,
        b',' => Class::Comma,
        b'-' => Class::NumberStart(Digits::Minus),
        b'0' => Class::NumberStart(Digits::Zero),
        b'1'..=b'9' => Class::NumberStart(Digits::Whole),
        b':' => Class::Colon,
        b'[' => Class::LeftBracket,
        b']' => Class::RightBracket,
        b'f' => Class::WordStart(Word::False),
        b'n' => Class::WordStart(Word::Null),
        b't' => Class::WordStart(Word::True),
        b'{' => Class::LeftBrace,
        b'}' => Class::RightBrace,
        _ => Class::Other,
    }
}

pub fn is_blank(byte: u8) -> bool
    ensures { result ≡ is_blank byte }
{
    byte == b' ' || byte == b'\t' || byte == b'\n' || byte == b'\r'
}

/// A byte of a text that is neither its quote nor begins an escape nor is a control character.
pub fn is_plain(byte: u8) -> bool
    ensures { result ≡ is_plain byte }
{
    byte >= 32 && byte != b'"' && byte != b'\\'
}

/// Where a number goes on with the byte, if it does.
pub fn digits_after(digits: Digits, byte: u8) -> Option<Digits>
    ensures { result ≡ spec.digits_after digits byte }
{
    match (digits, byte) {
        (Digits::Minus, b'0') => Some(Digits::Zero),
        (Digits::Minus | Digits::Whole, b'0'..=b'9') => Some(Digits::Whole),
        (Digits::Zero | Digits::Whole, b'.') => Some(Digits::Point),
        (Digits::Zero | Digits::Whole | Digits::Fraction, b'e' | b'E') => Some(Digits::Mark),
        (Digits::Point | Digits::Fraction, b'0'..=b'9') => Some(Digits::Fraction),
        (Digits::Mark, b'+' | b'-') => Some(Digits::Sign),
        (Digits::Mark | Digits::Sign | Digits::Exponent, b'0'..=b'9') => Some(Digits::Exponent),
        _ => None,
    }
}

/// Whether a number may end here.
pub fn may_end(digits: Digits) -> bool
    ensures { result ≡ spec.may_end digits }
{
    matches!(
        digits,
        Digits::Zero | Digits::Whole | Digits::Fraction | Digits::Exponent
    )
}

/// The value of a hexadecimal digit.
pub fn hex_value(byte: u8) -> Option<u8>
    ensures { result ≡ text.hex_value byte }
{
    match byte {
        b'0'..=b'9' => Some(byte - b'0'),
        b'a'..=b'f' => Some(byte - 87),
        b'A'..=b'F' => Some(byte - 55),
        _ => None,
    }
}

/// What a letter behind a backslash stands for.
pub fn short_escape(byte: u8) -> Option<u8>
    ensures { result ≡ text.short_escape byte }
{
    match byte {
        b'"' | b'\\' | b'/' => Some(byte),
        b'b' => Some(8),
        b'f' => Some(12),
        b'n' => Some(b'\n'),
        b'r' => Some(b'\r'),
        b't' => Some(b'\t'),
        _ => None,
    }
}

/// What follows the first byte of a character of several: the kind of the next, and how many more.
#[tactic(auto, unfolding(crate::specs::Machine::lead))]
pub fn lead(byte: u8) -> Option<(Tail, u8)>
    ensures { result ≡ spec.lead byte }
{
    match byte {
        0xC2..=0xDF => Some((Tail::Any, 0)),
        0xE0 => Some((Tail::FromA0, 1)),
        0xED => Some((Tail::UpTo9F, 1)),
        0xE1..=0xEF => Some((Tail::Any, 1)),
        0xF0 => Some((Tail::From90, 2)),
        0xF1..=0xF3 => Some((Tail::Any, 2)),
        0xF4 => Some((Tail::UpTo8F, 2)),
        _ => None,
    }
}

pub fn in_tail(tail: Tail, byte: u8) -> bool
    ensures { result ≡ spec.in_tail tail byte }
{
    match tail {
        Tail::Any => byte >= 0x80 && byte < 0xC0,
        Tail::FromA0 => byte >= 0xA0 && byte < 0xC0,
        Tail::UpTo9F => byte >= 0x80 && byte < 0xA0,
        Tail::From90 => byte >= 0x90 && byte < 0xC0,
        Tail::UpTo8F => byte >= 0x80 && byte < 0x90,
    }
}
