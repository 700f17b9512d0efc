ghost use Rattle.std.specs.Prelude.{◌≡◌, ◌↔◌, IsTrue, false, MatchOption, ◌-ℤ◌, ◌+ℤ◌, ◌*ℤ◌, ◌≤◌, ◌≤ℤ◌, pos, neg_ℤ, option_map, IfSome, take, length};
ghost use Rattle.std.specs.List.{position_or_len};
ghost use Rattle.rt_value.specs.Choice.{some_if};
ghost use Rattle.rt_value.specs.Calendar.{is_date, day_of, IsDateOf};
ghost use Rattle.rt_value.specs.Moments.{days_to_1970, is_in_years, is_like, looks_like, digit_at, two_at, day_in_text, clock as clock_of, civil_in_text, fraction_in_text, is_zone, zone_in_text, is_zone_sign, instant_of, instant_in_text, moment_in_text};

use jiff_core::civil::Date;

/// 0001-01-01 00:00:00, in microseconds from 1970-01-01 00:00:00 on.
pub(crate) const FIRST: i64 = -62_135_596_800_000_000;

/// The end of the year 9999.
pub(crate) const END: i64 = 253_402_300_800_000_000;

/// Whether a byte is what a mark of a picture stands for.
fn is_like(mark: u8, byte: u8) -> bool
    ensures { result ≡ is_like mark byte }
{
    match mark {
        b'0' => byte.is_ascii_digit(),
        b'T' => byte == b'T' || byte == b' ',
        b'+' => byte == b'+' || byte == b'-',
        _ => byte == mark,
    }
}

/// Whether a text looks like a picture.
#[tactic(auto, using(crate::proofs::Pictures::like_none, crate::proofs::Pictures::like_more, crate::proofs::Pictures::like_differs, crate::proofs::Pictures::like_all, crate::proofs::Pictures::not_as_long))]
fn looks_like(picture: &[u8], text: &[u8]) -> bool
    ensures { result ≡ looks_like picture.now text.now }
{
    if picture.len() != text.len() {
        return false;
    }
    for i in 0..picture.len() {
        if !is_like(picture[i], text[i]) {
            return false;
        }
    }
    true
}

/// Whether a text looks like the front of a picture.
#[tactic(auto, using(crate::proofs::Pictures::too_long))]
fn looks_like_front(picture: &[u8], text: &[u8]) -> bool
    ensures { result ≡ looks_like (take (length text.now) picture.now) text.now }
{
    if picture.len() < text.len() {
        return false;
    }
    looks_like(&picture[..text.len()], text)
}

/// The digit at a place of a text that looks like its picture; 0 behind the end.
fn digit_at(text: &[u8], at: usize) -> u32
    ensures value { result ≡ digit_at text.now at }
    ensures small { result ≤ 255 }
{
    match text.get(at) {
        Some(byte) => u32::from(byte.saturating_sub(b'0')),
        None => 0,
    }
}

/// The number of the two digits from a place on.
#[tactic(auto, unfolding(crate::specs::Moments::two_at))]
fn two_at(text: &[u8], at: usize) -> u32
    requires { at ≤ 100 }
    ensures value { result ≡ two_at text.now at }
    ensures small { result ≤ 2805 }
{
    10 * digit_at(text, at) + digit_at(text, at + 1)
}

/// Whether the numbers of a date are so small that the library takes them, and the year is one.
fn are_small(year: u32, month: u32, day: u32) -> bool
    ensures { IsTrue result ↔ (1 ≤ year) × (year ≤ 9999) × (month ≤ 12) × (day ≤ 31) }
{
    year >= 1 && year <= 9999 && month <= 12 && day <= 31
}

/// The date of these numbers, where the calendar has it.
fn date_of(year: u32, month: u32, day: u32) -> Option<Date>
    requires { (1 ≤ year) × (year ≤ 9999) × (month ≤ 12) × (day ≤ 31) }
    ensures { MatchOption result (is_date year month day ≡ false) (IsDateOf year month day) }
{
    match Date::new(year as i16, month as i8, day as i8) {
        Ok(date) => Some(date),
        Err(_) => None,
    }
}

/// The day of a date, from 1970-01-01 on, where the calendar has it.
fn day_of(year: u32, month: u32, day: u32) -> Option<i64>
    ensures value { result ≡ some_if (is_date year month day)
        (pos (day_of year month day) -ℤ pos days_to_1970) }
    ensures bound { IfSome result (λ d. (neg_ℤ (pos 4371587) ≤ℤ d) × (d ≤ℤ pos 2932896)) }
{
    if !are_small(year, month, day) {
        return None;
    }
    match date_of(year, month, day) {
        Some(date) => Some(i64::from(date.to_unix_epoch_day())),
        None => None,
    }
}

#[tactic(auto, unfolding(crate::specs::Moments::day_in_text))]
fn day(text: &[u8]) -> Option<i64>
    ensures value { result ≡ day_in_text text.now }
    ensures bound { IfSome result (λ d. (neg_ℤ (pos 4371587) ≤ℤ d) × (d ≤ℤ pos 2932896)) }
{
    let year = 100 * two_at(text, 0) + two_at(text, 2);
    day_of(year, two_at(text, 5), two_at(text, 8))
}

/// The seconds of hours, fewer than so many, minutes and seconds.
#[tactic(auto, unfolding(crate::specs::Moments::clock))]
fn clock(hours: u32, hour: u32, minute: u32, second: u32) -> Option<i64>
    requires { hours ≤ 24 }
    ensures value { result ≡ clock_of hours hour minute second }
    ensures bound { IfSome result (λ s. (pos 0 ≤ℤ s) × (s ≤ℤ pos 86399)) }
{
    if hour < hours && minute < 60 && second < 60 {
        Some(i64::from(hour * 3600 + minute * 60 + second))
    } else {
        None
    }
}

/// The seconds from 1970-01-01 00:00:00 to a date and a time of day.
#[tactic(auto, unfolding(crate::specs::Moments::civil_in_text))]
fn civil(text: &[u8]) -> Option<i64>
    ensures value { result ≡ civil_in_text text.now }
    ensures bound { IfSome result (λ s. (neg_ℤ (pos 400000000000) ≤ℤ s) × (s ≤ℤ pos 300000000000)) }
{
    if !looks_like(b"0000-00-00T00:00:00", text) {
        return None;
    }
    let day = day(text)?;
    let seconds = clock(24, two_at(text, 11), two_at(text, 14), two_at(text, 17))?;
    Some(day * 86_400 + seconds)
}

/// The microseconds of nothing, or of a dot and 1 to 6 digits.
#[tactic(auto, unfolding(crate::specs::Moments::fraction_in_text))]
fn fraction(text: &[u8]) -> Option<u32>
    ensures value { result ≡ fraction_in_text text.now }
    ensures bound { IfSome result (λ n. n ≤ 99999999) }
{
    if text.len() != 1 && looks_like_front(b".000000", text) {
        Some(10_000 * two_at(text, 1) + 100 * two_at(text, 3) + two_at(text, 5))
    } else {
        None
    }
}

/// Whether a text is `Z`, or an offset of hours, of hours and minutes, or of these and seconds.
#[tactic(auto, unfolding(crate::specs::Moments::is_zone))]
fn is_zone(text: &[u8]) -> bool
    ensures { result ≡ is_zone text.now }
{
    let is_offset = text.len() % 3 == 0 && !text.is_empty() && looks_like_front(b"+00:00:00", text);
    text == b"Z".as_slice() || is_offset
}

/// The seconds east of UTC, less than 16 hours.
#[tactic(auto, unfolding(crate::specs::Moments::zone_in_text))]
fn zone(text: &[u8]) -> Option<i64>
    ensures value { result ≡ zone_in_text text.now }
    ensures bound { IfSome result (λ s. (neg_ℤ (pos 86399) ≤ℤ s) × (s ≤ℤ pos 86399)) }
{
    if !is_zone(text) {
        return None;
    }
    let seconds = clock(16, two_at(text, 1), two_at(text, 4), two_at(text, 7))?;
    if text.first() == Some(&b'-') {
        Some(-seconds)
    } else {
        Some(seconds)
    }
}

/// Whether a byte begins a zone.
fn is_zone_sign(byte: u8) -> bool
    ensures { result ≡ is_zone_sign byte }
{
    matches!(byte, b'Z' | b'+' | b'-')
}

/// The place of the zone's sign, or the length.
#[tactic(auto, using(crate::proofs::Pictures::sign_none, crate::proofs::Pictures::sign_later, crate::proofs::Pictures::sign_here, crate::proofs::Pictures::sign_nowhere))]
fn zone_place(text: &[u8]) -> usize
    ensures value { result ≡ position_or_len is_zone_sign text.now }
    ensures bound { result ≤ length text.now }
{
    for i in 0..text.len() {
        if is_zone_sign(text[i]) {
            return i;
        }
    }
    text.len()
}

fn moment_of(seconds: i64, east: i64, micros: u32) -> i64
    requires local { (neg_ℤ (pos 400000000000) ≤ℤ seconds) × (seconds ≤ℤ pos 300000000000) }
    requires zone { (neg_ℤ (pos 86399) ≤ℤ east) × (east ≤ℤ pos 86399) }
    requires fraction { micros ≤ 99999999 }
    ensures { result ≡ (seconds -ℤ east) *ℤ pos 1000000 +ℤ pos micros }
{
    (seconds - east) * 1_000_000 + i64::from(micros)
}

/// The moment, where it lies in the years 1 to 9999.
#[tactic(auto, unfolding(crate::specs::Moments::is_in_years))]
fn in_years(moment: i64) -> Option<i64>
    ensures { result ≡ some_if (is_in_years moment) moment }
{
    if FIRST <= moment && moment < END {
        Some(moment)
    } else {
        None
    }
}

/// The moment of a date and a time of day, what stands behind them, and the zone.
#[tactic(auto, unfolding(crate::specs::Moments::instant_of))]
fn instant_of(civil_text: &[u8], fraction_text: &[u8], zone_text: &[u8]) -> Option<i64>
    ensures { result ≡ instant_of civil_text.now fraction_text.now zone_text.now }
{
    let seconds = civil(civil_text)?;
    let micros = fraction(fraction_text)?;
    let east = zone(zone_text)?;
    in_years(moment_of(seconds, east, micros))
}

#[tactic(auto, unfolding(crate::specs::Moments::instant_in_text))]
fn instant(text: &[u8]) -> Option<i64>
    ensures { result ≡ instant_in_text text.now }
{
    let (civil, rest) = text.split_at(text.len().min(19));
    let (fraction, zone) = rest.split_at(zone_place(rest));
    instant_of(civil, fraction, zone)
}

/// The moment that a text writes, in microseconds from 1970-01-01 00:00:00 UTC.
#[tactic(auto, unfolding(crate::specs::Moments::moment_in_text))]
pub(crate) fn moment(text: &str) -> Option<i64>
    ensures { result ≡ moment_in_text text.now }
{
    match text {
        "infinity" => Some(i64::MAX),
        "-infinity" => Some(i64::MIN),
        _ => instant(text.as_bytes()),
    }
}
