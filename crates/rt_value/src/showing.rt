ghost use Rattle.std.specs.Prelude.{◌≡◌, ◌<◌, ◌≤◌, ◌++◌, Some, IfOk, codes};
ghost use Rattle.jiff_fmt.specs.Text.{date_text, time_text};
ghost use Rattle.rt_value.specs.Moments.{fraction_places, fraction_shown, date_shown, clock_shown, instant_shown, moment_shown};

use crate::Text;
use crate::moments::{END, FIRST};
use jiff_core::civil::{Date, DateTime, Time};
use jiff_fmt::temporal::DateTimePrinter;
use std::alloc::{AllocError, Global};

/// The days from -9999-01-01, from which the library counts, to 0001-01-01.
const DAYS_BEFORE: u32 = 3_652_425;

/// How many digits microseconds need behind the dot.
#[tactic(auto, unfolding(crate::specs::Moments::fraction_places))]
fn fraction_places(micros: u32) -> u8
    ensures { result ≡ fraction_places micros }
{
    match micros {
        0 => 0,
        n if n % 100_000 == 0 => 1,
        n if n % 10_000 == 0 => 2,
        n if n % 1_000 == 0 => 3,
        n if n % 100 == 0 => 4,
        n if n % 10 == 0 => 5,
        _ => 6,
    }
}

/// The date of a day, counted from 0001-01-01.
fn date_at(day: u32) -> Date
    requires { day < 3652059 }
    ensures { date_text result ≡ date_shown day }
{
    Date::from_days_since_min(DAYS_BEFORE + day)
}

/// The time of day behind so many seconds, with the microseconds.
fn time_at(seconds: u32, micros: u32) -> Time
    requires in_day { seconds < 86400 }
    requires in_second { micros < 1000000 }
    ensures { time_text (Some (fraction_places micros)) result
        ≡ clock_shown seconds ++ fraction_shown micros }
{
    Time {
        hour: (seconds / 3600) as u8,
        minute: (seconds / 60 % 60) as u8,
        second: (seconds % 60) as u8,
        subsec_nanosecond: micros * 1000,
    }
}

/// The text of the moment so many microseconds behind 0001-01-01 00:00:00.
#[tactic(auto, unfolding(crate::specs::Moments::instant_shown))]
fn instant_text(alloc: Global, micros: u64) -> Result<Text, AllocError>
    requires { micros < 315537897600000000 }
    ensures { IfOk result (λ t. t ≡ instant_shown micros) }
{
    let seconds = micros / 1_000_000;
    let fraction = (micros % 1_000_000) as u32;
    let local = DateTime {
        date: date_at((seconds / 86_400) as u32),
        time: time_at((seconds % 86_400) as u32, fraction),
    };
    let printer = DateTimePrinter::new().precision(Some(fraction_places(fraction)));
    let mut text = String::from_str(alloc, printer.datetime_text(local).as_str())?;
    text.push_str("+00:00")?;
    Ok(Text::new(text))
}

/// How a moment, in microseconds from 1970-01-01 00:00:00 UTC, is shown: `YYYY-MM-DDTHH:MM:SS` in
/// UTC, a dot and the microseconds without trailing zeros where they aren't 0, and `+00:00`;
/// `infinity` for the greatest number and `-infinity` for the least. A number that is no moment of
/// the years 1 to 9999 is shown as an empty text.
///
/// Fails for want of memory alone.
#[tactic(auto, unfolding(crate::specs::Moments::moment_shown, crate::specs::Moments::is_in_years))]
pub fn shown_moment(alloc: Global, moment: i64) -> Result<Text, AllocError>
    ensures { IfOk result (λ t. t ≡ moment_shown moment) }
{
    match moment {
        i64::MAX => Ok(Text::new(String::from_str(alloc, "infinity")?)),
        i64::MIN => Ok(Text::new(String::from_str(alloc, "-infinity")?)),
        _ if FIRST <= moment && moment < END => instant_text(alloc, (moment - FIRST) as u64),
        _ => Ok(Text::new(String::new(alloc))),
    }
}
