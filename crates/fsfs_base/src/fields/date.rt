//! The stored form of a date, `YYYY-MM-DDTHH:MM:SS.uuuuuuZ` in UTC, as the property `svn:date` has it.
ghost use Rattle.std.specs.Prelude.{◌≡◌, ◌≤◌, ◌<◌, ◌+◌, ◌/◌, ◌%◌, ◌↔◌, length, IsOk, IfOk, IfSome, IsSomeAnd, Some};
ghost use Rattle.jiff_core.specs.Calendar.{IsDate};
ghost use Rattle.jiff_core.specs.Date.{IsYmd};
ghost use Rattle.jiff_core.specs.Time.{IsTime, IsHms};
ghost use Rattle.jiff_core.specs.declared.civil.datetime.DateTime.{DateTime as Shown};
ghost use Rattle.fsfs_base.specs.Fields.Dates.{IsDateAt, IsDateText, date_text};
ghost use Rattle.fsfs_base.specs.Fields.DateReading.{two_at, numbers_at, ReadAs, Numbers, HasNumbers, IsShownAs};

use jiff_core::civil::{Date, DateTime, Time};
use jiff_core::{Error, Timestamp};
use jiff_fmt::temporal::DateTimePrinter;
use std::alloc::{AllocError, Global};

/// The stored form of a moment, given in microseconds after 1970-01-01T00:00:00 UTC; its year is at most 2099.
pub fn write_date(alloc: Global, micros: u64) -> Result<Vec<u8>, AllocError>
    requires { micros ≤ 4102444799999999 }
    ensures { IfOk result (λ t. IsDateAt micros t.items) }
{
    let Ok(moment) = Timestamp::from_nanosecond((micros * 1_000) as i128) else {
        unreachable!();
    };
    let printer = DateTimePrinter::new().precision(Some(6));
    let text = printer.timestamp_text(moment);
    Vec::from_slice(alloc, text.as_str().as_bytes())
}

/// The date and time of day that the text shows, in the stored form; none for any other text.
///
/// Its year is from 0 to 9999, its second at most 59, and its fraction of whole microseconds.
pub fn read_date(text: &[u8]) -> Option<DateTime>
    ensures found { IfSome result (IsDateText text.now) }
    ensures only { (dt : Shown) → IsDateText text.now dt → result ≡ Some dt }
{
    let numbers = date_numbers(text)?;
    numbers.date_time()
}

// The date with the time of day, if the calendar and a clock have them.
fn date_time(
    year: i16,
    month: i8,
    day: i8,
    hour: i8,
    minute: i8,
    second: i8,
    nanos: i32,
) -> Result<DateTime, Error>
    ensures succeeds { IsOk result ↔ (IsDate year month day × IsTime hour minute second nanos) }
    ensures value { IfOk result (λ dt. IsYmd year month day dt.date × IsHms hour minute second nanos dt.time) }
{
    let date = Date::new(year, month, day)?;
    let time = Time::new(hour, minute, second, nanos)?;
    Ok(DateTime { date, time })
}

/// The numbers of a date's text.
#[derive(Clone, Copy)]
struct DateNumbers {
    year: u16,
    month: u8,
    day: u8,
    hour: u8,
    minute: u8,
    second: u8,
    micros: u32,
    ghost year_in: { year < 10_000 },
    ghost month_in: { month < 100 },
    ghost day_in: { day < 100 },
    ghost hour_in: { hour < 100 },
    ghost minute_in: { minute < 100 },
    ghost second_in: { second < 100 },
    ghost micros_in: { micros < 1_000_000 },
}

/// The number of the two decimal digits at this byte.
fn two(text: &[u8], at: usize) -> Option<u8>
    requires { at + 1 < length text.now }
    ensures value { result ≡ two_at text.now at }
    ensures small { IfSome result (λ n. n < 100) }
{
    let high = text[at];
    let low = text[at + 1];
    if high.is_ascii_digit() && low.is_ascii_digit() {
        Some((high - b'0') * 10 + (low - b'0'))
    } else {
        None
    }
}

/// The numbers at their places, whatever stands between them.
fn numbers_at(text: &[u8]) -> Option<DateNumbers>
    requires { length text.now ≡ 27 }
    ensures { ReadAs (λ d. (d.year, d.month, d.day, d.hour, d.minute, d.second, d.micros)) result (numbers_at text.now) }
{
    let century = two(text, 0)?;
    let year = two(text, 2)?;
    let month = two(text, 5)?;
    let day = two(text, 8)?;
    let hour = two(text, 11)?;
    let minute = two(text, 14)?;
    let second = two(text, 17)?;
    let high = two(text, 20)?;
    let middle = two(text, 22)?;
    let low = two(text, 24)?;
    Some(DateNumbers {
        year: century as u16 * 100 + year as u16,
        month,
        day,
        hour,
        minute,
        second,
        micros: high as u32 * 10_000 + middle as u32 * 100 + low as u32,
    })
}

fn tens(n: u8) -> u8
    requires { n < 100 }
    ensures { result ≡ 48 + n / 10 }
{
    b'0' + n / 10
}

fn units(n: u8) -> u8
    ensures { result ≡ 48 + n % 10 }
{
    b'0' + n % 10
}

impl DateNumbers {
    fn text(&self) -> [u8; 27]
        ensures { result ≡ date_text self.now.year self.now.month self.now.day self.now.hour self.now.minute self.now.second self.now.micros }
    {
        let century = (self.year / 100) as u8;
        let year = (self.year % 100) as u8;
        let high = (self.micros / 10_000) as u8;
        let middle = (self.micros % 10_000 / 100) as u8;
        let low = (self.micros % 10_000 % 100) as u8;
        [
            tens(century),
            units(century),
            tens(year),
            units(year),
            b'-',
            tens(self.month),
            units(self.month),
            b'-',
            tens(self.day),
            units(self.day),
            b'T',
            tens(self.hour),
            units(self.hour),
            b':',
            tens(self.minute),
            units(self.minute),
            b':',
            tens(self.second),
            units(self.second),
            b'.',
            tens(high),
            units(high),
            tens(middle),
            units(middle),
            tens(low),
            units(low),
            b'Z',
        ]
    }

    /// The date and time of day, if there is one with these numbers.
    fn date_time(&self) -> Option<DateTime>
        ensures found { IfSome result (HasNumbers self.now.year self.now.month self.now.day self.now.hour self.now.minute self.now.second self.now.micros) }
        ensures only { (dt : Shown) → HasNumbers self.now.year self.now.month self.now.day self.now.hour self.now.minute self.now.second self.now.micros dt → result ≡ Some dt }
    {
        date_time(
            self.year as i16,
            self.month as i8,
            self.day as i8,
            self.hour as i8,
            self.minute as i8,
            self.second as i8,
            (self.micros * 1_000) as i32,
        )
        .ok()
    }
}

/// The numbers of the text, in the stored form.
fn date_numbers(text: &[u8]) -> Option<DateNumbers>
    ensures found { IfSome result (λ d. text.now ≡ date_text d.year d.month d.day d.hour d.minute d.second d.micros) }
    ensures only { (numbers : Numbers) → IsShownAs text.now numbers → IsSomeAnd result (λ d. (d.year, d.month, d.day, d.hour, d.minute, d.second, d.micros) ≡ numbers) }
{
    if text.len() != 27 {
        return None;
    }
    let numbers = numbers_at(text)?;
    if numbers.text().as_slice() == text {
        Some(numbers)
    } else {
        None
    }
}
