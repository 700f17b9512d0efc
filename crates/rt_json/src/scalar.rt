ghost use Rattle.std.specs.Prelude.{◌≡◌, ◌<◌, ◌≤◌, length, slice_index};
ghost use Rattle.rt_json.specs.Machine as spec;
ghost use Rattle.rt_json.specs.States.{ValueReads};
ghost use Rattle.rt_json.specs.Words.{word_rest, word_tree};

use crate::bytes::{Class, Digits, Word, may_end};
use crate::scan::past_digits;
use crate::stop::Stop;
use crate::tree::Json;
use rt_value::Text;
use std::alloc::Global;

/// The number that begins here, and the place behind it.
pub fn number(alloc: Global, bytes: &[u8], at: usize, start: Digits) -> Result<(Json, usize), Stop>
    requires within { at < length bytes.now }
    requires begins { spec.class_of (slice_index bytes.now at) ≡ Class.NumberStart start }
    ensures { ValueReads bytes.now at result }
{
    let (digits, to) = past_digits(bytes, at + 1, start);
    if !may_end(digits) {
        return Err(Stop::Bad(bytes.len() - to));
    }
    match std::str::from_utf8(&bytes[at..to]) {
        Ok(text) => {
            let text = String::from_str(alloc, text)?;
            Ok((Json::Num(Text::new(text)), to))
        }
        Err(_) => unreachable!(),
    }
}

/// A word without its first letter.
fn word_rest(word: Word) -> &'static [u8]
    ensures { result.now ≡ word_rest word }
{
    match word {
        Word::Null => b"ull",
        Word::True => b"rue",
        Word::False => b"alse",
    }
}

fn word_tree(word: Word) -> Json
    ensures { result ≡ word_tree word }
{
    match word {
        Word::Null => Json::Null,
        Word::True => Json::Bool(true),
        Word::False => Json::Bool(false),
    }
}

/// The value of the word that begins here, and the place behind it.
pub fn word(bytes: &[u8], at: usize, word: Word) -> Result<(Json, usize), Stop>
    requires within { at < length bytes.now }
    requires begins { spec.class_of (slice_index bytes.now at) ≡ Class.WordStart word }
    ensures { ValueReads bytes.now at result }
{
    let mut to = at + 1;
    for letter in word_rest(word) {
        if to == bytes.len() || bytes[to] != *letter {
            return Err(Stop::Bad(bytes.len() - to));
        }
        to += 1;
    }
    Ok((word_tree(word), to))
}
