ghost use Rattle.std.specs.Prelude.{◌≡◌, ◌↔◌, not, IsTrue};
ghost use Rattle.std.specs.Char.{is_ascii_digit};
ghost use Rattle.rt_sql.specs.Piece.{IsPiece, is_blank, is_line_feed, begins_word, continues_word};
ghost use Rattle.rt_sql.specs.Front.{BeginsWithSign, IsRun, IsLongestFront, IsQuoted, LongestPiece};

use crate::lexeme::TokenKind;

/// What a text is cut into.
#[derive(Clone, Copy, Debug, PartialEq, Eq)]
pub enum Piece {
    Blanks,
    Comment,
    Token(TokenKind),
}

const PIECES: [Piece; 7] = [
    Piece::Blanks,
    Piece::Comment,
    Piece::Token(TokenKind::Word),
    Piece::Token(TokenKind::Quoted),
    Piece::Token(TokenKind::Text),
    Piece::Token(TokenKind::Number),
    Piece::Token(TokenKind::Sign),
];

/// The longest piece at the front of the text, and its length. None where no piece begins there.
pub fn longest_piece(text: &[u8]) -> Option<(Piece, usize)>
    ensures { LongestPiece text.now result }
{
    let mut longest = None;
    let mut most = 0;
    for piece in PIECES {
        let length = length_of(piece, text);
        if length > most {
            longest = Some((piece, length));
            most = length;
        }
    }
    longest
}

/// The length of the longest piece of a kind at the front of the text, or 0.
fn length_of(piece: Piece, text: &[u8]) -> usize
    ensures { IsLongestFront (IsPiece piece) text.now result }
{
    match piece {
        Piece::Blanks => blanks_length(text),
        Piece::Comment => comment_length(text),
        Piece::Token(TokenKind::Word) => word_length(text),
        Piece::Token(TokenKind::Quoted) => quoted_name_length(text),
        Piece::Token(TokenKind::Text) => text_length(text),
        Piece::Token(TokenKind::Number) => number_length(text),
        Piece::Token(TokenKind::Sign) => sign_length(text),
    }
}

/// How many bytes from the front on pass a test.
fn run_length<F: Fn(u8) -> bool + Drop>(text: &[u8], passes: F) -> usize
    requires { F.IsAlwaysCallable passes }
    ensures { IsRun (F.post passes) text.now result }
{
    for (i, byte) in text.iter().enumerate() {
        if !passes(*byte) {
            return i;
        }
    }
    text.len()
}

fn is_blank(byte: u8) -> bool
    ensures { result ≡ is_blank byte }
{
    matches!(byte, b' ' | b'\t' | b'\r' | b'\n')
}

fn blanks_length(text: &[u8]) -> usize
    ensures { IsLongestFront (IsPiece Piece.Blanks) text.now result }
{
    run_length(text, is_blank)
}

fn is_in_line(byte: u8) -> bool
    ensures { result ≡ not (is_line_feed byte) }
{
    byte != b'\n'
}

fn comment_length(text: &[u8]) -> usize
    ensures { IsLongestFront (IsPiece Piece.Comment) text.now result }
{
    match text {
        [b'-', b'-', inner @ ..] => 2 + run_length(inner, is_in_line),
        _ => 0,
    }
}

fn begins_word(byte: u8) -> bool
    ensures { result ≡ begins_word byte }
{
    byte.is_ascii_alphabetic() || byte == b'_'
}

fn continues_word(byte: u8) -> bool
    ensures { result ≡ continues_word byte }
{
    byte.is_ascii_alphanumeric() || byte == b'_'
}

fn word_length(text: &[u8]) -> usize
    ensures { IsLongestFront (IsPiece (Piece.Token TokenKind.Word)) text.now result }
{
    match text {
        [first, others @ ..] if begins_word(*first) => 1 + run_length(others, continues_word),
        _ => 0,
    }
}

fn is_digit(byte: u8) -> bool
    ensures { result ≡ is_ascii_digit byte }
{
    byte.is_ascii_digit()
}

fn number_length(text: &[u8]) -> usize
    ensures { IsLongestFront (IsPiece (Piece.Token TokenKind.Number)) text.now result }
{
    run_length(text, is_digit)
}

fn quoted_name_length(text: &[u8]) -> usize
    ensures { IsLongestFront (IsPiece (Piece.Token TokenKind.Quoted)) text.now result }
{
    let length = in_quotes_length(text, b'"');
    // Two quotes alone would be an empty name.
    if length > 2 { length } else { 0 }
}

fn text_length(text: &[u8]) -> usize
    ensures { IsLongestFront (IsPiece (Piece.Token TokenKind.Text)) text.now result }
{
    in_quotes_length(text, b'\'')
}

fn begins_with_long_sign(text: &[u8]) -> bool
    ensures { IsTrue result ↔ BeginsWithSign text.now 3 }
{
    matches!(text, [b'-', b'>', b'>', ..])
}

fn begins_with_double_sign(text: &[u8]) -> bool
    ensures { IsTrue result ↔ BeginsWithSign text.now 2 }
{
    matches!(
        text,
        [b'<', b'>', ..] | [b'!' | b'<' | b'>', b'=', ..] | [b':', b':', ..]
    )
}

fn begins_with_short_sign(text: &[u8]) -> bool
    ensures { IsTrue result ↔ BeginsWithSign text.now 1 }
{
    matches!(
        text,
        [
            b'(' | b')' | b',' | b';' | b'.' | b'=' | b'<' | b'>' | b'*' | b'[' | b']' | b'-',
            ..
        ]
    )
}

fn sign_length(text: &[u8]) -> usize
    ensures { IsLongestFront (IsPiece (Piece.Token TokenKind.Sign)) text.now result }
{
    if begins_with_long_sign(text) {
        3
    } else if begins_with_double_sign(text) {
        2
    } else if begins_with_short_sign(text) {
        1
    } else {
        0
    }
}

/// The length of the longest front of the text that stands in quotes, or 0.
fn in_quotes_length(text: &[u8], quote: u8) -> usize
    ensures { IsLongestFront (IsQuoted quote) text.now result }
{
    let mut rest = match text {
        [first, inner @ ..] if *first == quote => inner,
        _ => return 0,
    };
    let mut longest = 0;
    loop {
        match rest {
            [] => return longest,
            [first, others @ ..] if *first != quote => rest = others,
            [_] => return text.len(),
            [_, second, others @ ..] => {
                // This quote may be the closing one. It is, unless another follows.
                longest = text.len() - rest.len() + 1;
                if *second != quote {
                    return longest;
                }
                rest = others;
            }
        }
    }
}
