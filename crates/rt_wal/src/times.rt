ghost use Rattle.std.specs.Prelude.{◌≡◌, ◌↔◌, ◌+◌, ◌*◌, IsTrue, false, Some, ◌∷◌, ◌++◌, [], ◌<◌, ◌≤◌, ℕ, ℤ, pos, List, Option, MatchOption, MatchResult, IfOk, IfSome, IfNone, length};
ghost use Rattle.jiff_fmt.specs.Text.{pad2};
ghost use Rattle.jiff.specs.Types.{DateTime as Civil};
ghost use Rattle.jiff.specs.Words.{datetime_text, signed};
ghost use Rattle.rt_wal.specs.Times.{civil_length, IsCivilText, IsClockText, IsOffsetText, IsUtc, IsInstantOf, IsInstant, HasNoInstantAt, utc_text, IsTimeIn, IsTimeFault};

use crate::faults::{RecordWhy, WalFault};
use jiff::SignedDuration;
use jiff::civil::DateTime;
use jiff::fmt::temporal::{DateTimePrinter, parse_datetime};
use jiff_core::civil::DateTime as Plain;
use rt_json::{Json, member};
use rt_value::Text;
use std::alloc::{AllocError, Global};

/// How many places of the second a text of this length has.
fn places_in(length: usize) -> Option<u8>
    ensures { MatchOption result
        ((k : ℕ) → k ≤ 6 → length ≡ civil_length k → ⊥)
        (λ k. (k ≤ 6) × (length ≡ civil_length k)) }
{
    match length {
        19 => Some(0),
        21..=26 => Some((length - 20) as u8),
        _ => None,
    }
}

/// Whether a text spells the date and time of day with so many places of the second.
fn is_spelling(text: &[u8], local: Plain, places: u8) -> bool
    ensures { IsTrue result ↔ (text.now ≡ datetime_text false 32 (Some places) local) }
{
    let printer = DateTimePrinter::new()
        .separator(b' ')
        .precision(Some(places));
    printer.datetime_text(local).as_bytes() == text
}

/// The date and time of day that a text spells. The library's reader takes more forms: what it read has to be spelled
/// just so.
fn civil_time(text: &[u8]) -> Option<DateTime>
    ensures some { IfSome result (IsCivilText text.now) }
    ensures none { IfNone result ((local : Civil) → IsCivilText text.now local → ⊥) }
{
    let places = places_in(text.len())?;
    let Ok(local) = parse_datetime(text) else {
        return None;
    };
    if is_spelling(text, local, places) && local.date.year >= 1 {
        Some(DateTime::from_plain(local))
    } else {
        None
    }
}

/// The number that two digits spell.
fn two_digits(tens: u8, ones: u8) -> Option<u8>
    ensures { MatchOption result
        ((n : ℕ) → n < 100 → pad2 n ≡ tens ∷ ones ∷ [] → ⊥)
        (λ n. (n < 100) × (pad2 n ≡ tens ∷ ones ∷ [])) }
{
    if tens.is_ascii_digit() && ones.is_ascii_digit() {
        Some((tens - b'0') * 10 + (ones - b'0'))
    } else {
        None
    }
}

/// The hours and minutes of an offset.
fn clock_in(text: &[u8]) -> Option<(u8, u8)>
    ensures { MatchOption result
        ((hours minutes : ℕ) → hours ≤ 15 → minutes ≤ 59 → IsClockText text.now hours minutes → ⊥)
        (λ c. (c.0 ≤ 15) × (c.1 ≤ 59) × IsClockText text.now c.0 c.1) }
{
    let (hours, minutes) = match text {
        [a, b] => (two_digits(*a, *b)?, 0),
        [a, b, b':', c, d] => (two_digits(*a, *b)?, two_digits(*c, *d)?),
        _ => return None,
    };
    if hours <= 15 && minutes <= 59 {
        Some((hours, minutes))
    } else {
        None
    }
}

/// The seconds of an offset, negative west of UTC.
fn seconds_of(is_west: bool, hours: u8, minutes: u8) -> i32
    requires hours_in { hours ≤ 15 }
    requires minutes_in { minutes ≤ 59 }
    ensures { result ≡ signed is_west (hours * 3600 + minutes * 60) }
{
    let seconds = i32::from(hours) * 3600 + i32::from(minutes) * 60;
    if is_west { -seconds } else { seconds }
}

/// The seconds east of UTC of an offset.
fn offset_in(text: &[u8]) -> Option<i32>
    ensures some { IfSome result (IsOffsetText text.now) }
    ensures none { IfNone result ((seconds : ℤ) → IsOffsetText text.now seconds → ⊥) }
{
    let (sign, clock) = text.split_first()?;
    let (hours, minutes) = clock_in(clock)?;
    match sign {
        b'+' => Some(seconds_of(false, hours, minutes)),
        b'-' => Some(seconds_of(true, hours, minutes)),
        _ => None,
    }
}

/// What a clock at UTC shows when one at the offset, in seconds east, shows `local`, in the year 1 or later.
fn to_utc(local: DateTime, seconds: i32) -> Option<DateTime>
    ensures some { IfSome result (IsUtc local seconds) }
    ensures none { IfNone result ((utc : Civil) → IsUtc local seconds utc → ⊥) }
{
    let shift = SignedDuration::from_secs(i64::from(seconds));
    let Ok(utc) = local.checked_sub(shift) else {
        return None;
    };
    if utc.year() >= 1 { Some(utc) } else { None }
}

/// The instant of a date, a time of day and an offset.
fn instant_of(civil: &[u8], offset: &[u8]) -> Option<DateTime>
    ensures some { IfSome result (IsInstantOf civil.now offset.now) }
    ensures none { IfNone result ((utc : Civil) → IsInstantOf civil.now offset.now utc → ⊥) }
{
    let local = civil_time(civil)?;
    let seconds = offset_in(offset)?;
    to_utc(local, seconds)
}

/// The instant of a text whose last bytes, so many, are the offset.
fn instant_at(text: &[u8], offset: usize) -> Option<DateTime>
    ensures some { IfSome result (IsInstant text.now) }
    ensures none { IfNone result (HasNoInstantAt text.now offset) }
{
    let at = text.len().checked_sub(offset)?;
    let (civil, offset) = text.split_at(at);
    instant_of(civil, offset)
}

fn instant_in(text: &[u8]) -> Option<DateTime>
    ensures some { IfSome result (IsInstant text.now) }
    ensures none { IfNone result ((utc : Civil) → IsInstant text.now utc → ⊥) }
{
    match instant_at(text, 6) {
        Some(utc) => Some(utc),
        None => instant_at(text, 3),
    }
}

fn print_utc(alloc: Global, utc: DateTime) -> Result<Text, AllocError>
    ensures { IfOk result (λ t. t ≡ utc_text utc) }
{
    let printer = DateTimePrinter::new().precision(Some(3));
    let mut text = String::from_str(alloc, printer.datetime_text(utc.to_plain()).as_str())?;
    text.push_str("Z")?;
    Ok(Text::new(text))
}

/// The commit time of a record's tree, or `BadRecord` where there is one that has not its form.
pub fn time_in(alloc: Global, tree: &Json) -> Result<Option<Text>, WalFault>
    ensures { MatchResult result (IsTimeIn tree.now) (IsTimeFault tree.now) }
{
    let text = match member(tree, "timestamp") {
        None | Some(Json::Null) => return Ok(None),
        Some(Json::Text(text)) => text,
        Some(_) => {
            return Err(WalFault::BadRecord {
                why: RecordWhy::Time,
            });
        }
    };
    match instant_in(text.get().as_bytes()) {
        Some(utc) => Ok(Some(print_utc(alloc, utc)?)),
        None => Err(WalFault::BadRecord {
            why: RecordWhy::Time,
        }),
    }
}
