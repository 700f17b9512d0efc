ghost use Rattle.std.specs.Prelude.{◌≡◌, ◌≤◌, ◌+◌, ◌<◌, ◌^◌, drop, length, string_bytes, IsUtf8, true};
ghost use Rattle.std.specs.List.{list_all, prefix_len};
ghost use Rattle.rt_json.specs.Machine as spec;
ghost use Rattle.rt_json.specs.Reads.{is_ascii_plain, is_plain, past_plain, char_step, TextReads, MoreReads, RunReads, StandsAt, Utf8Reads, BreaksAt, EscapeReads, CharReads, LowReads, UnitReads, FirstReads, FrontReads, DigitReads, ByteReads, PairReads};

use crate::bytes::{Tail, hex_value, in_tail, lead, short_escape};
use crate::scan::{past_ascii, past_plain};
use crate::stop::Stop;
use rt_value::Text;
use simdutf8::compat::from_utf8;
use std::alloc::Global;
use std::simd::prelude::*;

/// The bytes that are wanted within a character of several: the kind of the next, and how many more.
type Wanted = Option<(Tail, u8)>;

/// What is wanted behind the byte; None where it can't stand here.
fn char_step(wanted: Wanted, byte: u8) -> Option<Wanted>
    ensures { result ≡ char_step wanted byte }
{
    match wanted {
        None if byte < 128 => Some(None),
        None => match lead(byte) {
            Some(after) => Some(Some(after)),
            None => None,
        },
        Some((tail, more)) => {
            if !in_tail(tail, byte) {
                None
            } else if more == 0 {
                Some(None)
            } else {
                Some(Some((Tail::Any, more - 1)))
            }
        }
    }
}

/// The first byte of a run that can't go on in UTF-8, or its length where it ends within a character.
fn broken(run: &[u8]) -> usize
    requires plain { list_all is_plain run.now ≡ true }
    requires wrong { ¬ (IsUtf8 run.now) }
    ensures { BreaksAt run.now result }
{
    let mut wanted: Wanted = None;
    for (at, byte) in run.iter().enumerate() {
        match char_step(wanted, *byte) {
            Some(after) => wanted = after,
            None => return at,
        }
    }
    run.len()
}

/// A run of bytes that stand for themselves, as text.
fn utf8(bytes: &[u8], from: usize, to: usize) -> Result<&str, Stop>
    requires order { from ≤ to }
    requires within { to ≤ length bytes.now }
    requires run { drop to bytes.now ≡ past_plain (drop from bytes.now) }
    ensures { Utf8Reads bytes.now from to result }
{
    let run = &bytes[from..to];
    match std::str::from_utf8(run) {
        Ok(text) => Ok(text),
        Err(_) => Err(Stop::Bad(bytes.len() - from - broken(run))),
    }
}

/// What is known to be UTF-8 from a place on: all up to the other place, or nothing.
fn known(bytes: &[u8], from: usize, to: usize) -> &str
    requires order { from ≤ to }
    requires within { to ≤ length bytes.now }
    ensures { StandsAt result.now from bytes.now }
{
    match from_utf8(&bytes[from..to]) {
        Ok(text) => text,
        Err(_) => "",
    }
}

/// A run of bytes that stand for themselves, as text: a part of what is known, or else tested.
fn run<'a>(
    bytes: &'a [u8],
    known: &'a str,
    from: usize,
    at: usize,
    to: usize,
) -> Result<&'a str, Stop>
    requires known { StandsAt known.now from bytes.now }
    requires from { from ≤ at }
    requires order { at ≤ to }
    requires within { to ≤ length bytes.now }
    requires run { drop to bytes.now ≡ past_plain (drop at bytes.now) }
    ensures { Utf8Reads bytes.now at to result }
{
    match known.get(at - from..to - from) {
        Some(text) => {
            // Its clause says that a text is UTF-8.
            let _bytes = text.as_bytes();
            Ok(text)
        }
        None => utf8(bytes, at, to),
    }
}

/// A run of ASCII bytes that stand for themselves, as text. Its bytes need no test: each is a character.
fn ascii(bytes: &[u8], from: usize, to: usize) -> &str
    requires order { from ≤ to }
    requires within { to ≤ length bytes.now }
    requires run { to ≡ from + prefix_len is_ascii_plain (drop from bytes.now) }
    ensures { RunReads bytes.now from to result.now }
{
    unsafe { std::str::from_utf8_unchecked(&bytes[from..to]) }
}

fn digit(bytes: &[u8], at: usize) -> Result<u8, Stop>
    requires { at ≤ length bytes.now }
    ensures { DigitReads bytes.now at result }
{
    if at == bytes.len() {
        return Err(Stop::Bad(0));
    }
    match hex_value(bytes[at]) {
        Some(value) => Ok(value),
        None => Err(Stop::Bad(bytes.len() - at)),
    }
}

/// The first digit of a unit, which is the second of a pair or not: the second begins with `d`.
fn first_digit(bytes: &[u8], at: usize, second: bool) -> Result<u8, Stop>
    requires { at ≤ length bytes.now }
    ensures { FirstReads bytes.now at second result }
{
    let value = digit(bytes, at)?;
    if second && value != 13 {
        Err(Stop::Bad(bytes.len() - at))
    } else {
        Ok(value)
    }
}

fn is_low_front(value: u8) -> bool
    ensures { result ≡ spec.is_low_front value }
{
    value >= 220 && value < 224
}

/// The first two digits of a unit: those of the second of a pair are `dc` to `df`, and no others are.
fn front(bytes: &[u8], at: usize, second: bool) -> Result<u8, Stop>
    requires { at ≤ length bytes.now }
    ensures { FrontReads bytes.now at second result }
{
    let first = first_digit(bytes, at, second)?;
    let next = digit(bytes, at + 1)?;
    let value = first * 16 + next;
    if is_low_front(value) == second {
        Ok(value)
    } else {
        Err(Stop::Bad(bytes.len() - (at + 1)))
    }
}

/// The four digits of a unit, which is the second of a pair or not.
fn unit(bytes: &[u8], at: usize, second: bool) -> Result<u32, Stop>
    requires { at ≤ length bytes.now }
    ensures { UnitReads bytes.now at second result }
{
    let front = front(bytes, at, second)?;
    let third = digit(bytes, at + 2)?;
    let fourth = digit(bytes, at + 3)?;
    Ok((u32::from(front) * 16 + u32::from(third)) * 16 + u32::from(fourth))
}

fn byte(bytes: &[u8], at: usize, wanted: u8) -> Result<(), Stop>
    requires { at ≤ length bytes.now }
    ensures { ByteReads bytes.now at wanted result }
{
    if at < bytes.len() && bytes[at] == wanted {
        Ok(())
    } else {
        Err(Stop::Bad(bytes.len() - at))
    }
}

/// The low half behind a high one.
fn low_half(bytes: &[u8], at: usize) -> Result<u32, Stop>
    requires { at ≤ length bytes.now }
    ensures { PairReads bytes.now at result }
{
    byte(bytes, at, b'\\')?;
    byte(bytes, at + 1, b'u')?;
    unit(bytes, at + 2, true)
}

/// The character of a pair behind its high half, and the place behind it.
fn pair(bytes: &[u8], at: usize, high: u32) -> Result<(char, usize), Stop>
    requires within { at ≤ length bytes.now }
    requires from { 0xD800 ≤ high }
    requires below { high < 0xDC00 }
    ensures { LowReads high bytes.now at result }
{
    let low = low_half(bytes, at)?;
    match char::from_u32(0x10000 + ((high - 0xD800) * 0x400 + (low - 0xDC00))) {
        Some(ch) => Ok((ch, at + 6)),
        None => unreachable!(),
    }
}

/// The character behind `\u`, and the place behind it.
fn unit_char(bytes: &[u8], at: usize) -> Result<(char, usize), Stop>
    requires { at ≤ length bytes.now }
    ensures { CharReads bytes.now at result }
{
    let first = unit(bytes, at, false)?;
    match char::from_u32(first) {
        Some(ch) => Ok((ch, at + 4)),
        None => pair(bytes, at + 4, first),
    }
}

/// The character of an escape behind its backslash, and the place behind it.
fn escape(bytes: &[u8], at: usize) -> Result<(char, usize), Stop>
    requires { at ≤ length bytes.now }
    ensures { EscapeReads bytes.now at result }
{
    if at == bytes.len() {
        return Err(Stop::Bad(0));
    }
    match short_escape(bytes[at]) {
        Some(ch) => Ok((char::from(ch), at + 1)),
        None => {
            if bytes[at] == b'u' {
                unit_char(bytes, at + 1)
            } else {
                Err(Stop::Bad(bytes.len() - at))
            }
        }
    }
}

/// About how many bytes the text from here on has: up to a quote that stands behind no backslash. Where a text ends in an
/// escaped backslash this is more, and never past the quote that opens the next one.
fn room(bytes: &[u8], at: usize) -> usize
    requires { at ≤ length bytes.now }
    ensures { at + result ≤ length bytes.now }
{
    let mut to = at;
    while bytes.len() - to > 16 {
        let before = u8x16::from_slice(&bytes[to..]);
        let here = u8x16::from_slice(&bytes[to + 1..]);
        let quotes = here.simd_eq(u8x16::splat(b'"')) & before.simd_ne(u8x16::splat(b'\\'));
        let found = quotes.to_bitmask();
        if found != 0 {
            return to + 1 + (found.trailing_zeros() as usize).min(15) - at;
        }
        to += 16;
    }
    bytes.len() - at
}

/// The rest of a text, and the place behind its quote. What is known begins where the rest does.
fn more(bytes: &[u8], at: usize, front: String, known: &str) -> Result<(Text, usize), Stop>
    requires within { at ≤ length bytes.now }
    requires known { StandsAt known.now at bytes.now }
    ensures { MoreReads bytes.now at (string_bytes front) result }
{
    let mut text = front;
    let mut to = at;
    loop {
        let next = past_plain(bytes, to);
        let piece = run(bytes, known, at, to, next)?;
        text.push_str(piece)?;
        if next == bytes.len() {
            return Err(Stop::Bad(0));
        }
        let stop = bytes[next];
        if stop == b'"' {
            return Ok((Text::new(text), next + 1));
        }
        if stop != b'\\' {
            return Err(Stop::Bad(bytes.len() - next));
        }
        let (ch, after) = escape(bytes, next + 1)?;
        text.push(ch)?;
        to = after;
    }
}

/// The text behind an opening quote, and the place behind the closing one.
pub fn text(alloc: Global, bytes: &[u8], at: usize) -> Result<(Text, usize), Stop>
    requires { at ≤ length bytes.now }
    ensures { TextReads bytes.now at result }
{
    let to = past_ascii(bytes, at);
    let front = ascii(bytes, at, to);
    if to < bytes.len() && bytes[to] == b'"' {
        let text = String::from_str(alloc, front)?;
        return Ok((Text::new(text), to + 1));
    }
    let room = room(bytes, to);
    let known = known(bytes, to, to + room);
    let mut text = String::with_capacity(alloc, front.len().saturating_add(room))?;
    text.push_str(front)?;
    more(bytes, to, text, known)
}
