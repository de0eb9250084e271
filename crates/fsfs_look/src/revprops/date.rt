//! A date and time of day as it is printed.
ghost use Rattle.std.specs.Prelude.{◌≡◌, ◌<◌, ◌≤◌, ◌++◌, length, OnOk, codes};
ghost use Rattle.jiff_core.specs.Weekday.{monday_zero};
ghost use Rattle.jiff_fmt.specs.Rfc2822.{weekday_text, month_text};
ghost use Rattle.fsfs_base.specs.Fields.Dates.{two_digits, four_digits};
ghost use Rattle.fsfs_tree.specs.ShownDates.{year_digits, numbered_day, time_of_day, named_day};
ghost use Rattle.fsfs_look.specs.Revprops.Dates.{shown_date};

use jiff_core::civil::{Date, DateTime, Time, Weekday};
use std::alloc::AllocError;

fn put_text(out: &mut Vec<u8>, text: &str) -> Result<(), AllocError>
    ensures { OnOk result (out.new.items ≡ out.old.items ++ text.now) }
{
    out.extend_from_slice(text.as_bytes())?;
    Ok(())
}

// Puts both digits of a number.
fn put_two(out: &mut Vec<u8>, number: u8) -> Result<(), AllocError>
    requires { number < 100 }
    ensures { OnOk result (out.new.items ≡ out.old.items ++ two_digits number) }
{
    out.extend_from_slice(&[b'0' + number / 10, b'0' + number % 10])?;
    Ok(())
}

// Puts the four digits of a year.
fn put_year(out: &mut Vec<u8>, date: Date) -> Result<(), AllocError>
    ensures { OnOk result (out.new.items ≡ out.old.items ++ year_digits date.year) }
{
    let year = date.year.unsigned_abs();
    put_two(out, (year / 100) as u8)?;
    put_two(out, (year % 100) as u8)?;
    Ok(())
}

#[tactic(auto, unfolding(fsfs_tree::specs::ShownDates::numbered_day))]
fn put_numbered_day(out: &mut Vec<u8>, date: Date) -> Result<(), AllocError>
    ensures { OnOk result (out.new.items ≡ out.old.items ++ numbered_day date.year date.month date.day) }
{
    put_year(out, date)?;
    put_text(out, "-")?;
    put_two(out, date.month)?;
    put_text(out, "-")?;
    put_two(out, date.day)?;
    Ok(())
}

#[tactic(auto, unfolding(fsfs_tree::specs::ShownDates::time_of_day))]
fn put_time(out: &mut Vec<u8>, time: Time) -> Result<(), AllocError>
    ensures { OnOk result (out.new.items ≡ out.old.items ++ time_of_day time.hour time.minute time.second) }
{
    put_two(out, time.hour)?;
    put_text(out, ":")?;
    put_two(out, time.minute)?;
    put_text(out, ":")?;
    put_two(out, time.second)?;
    Ok(())
}

fn weekday_name(weekday: Weekday) -> &'static str
    ensures { result.now ≡ weekday_text (monday_zero weekday) }
{
    match weekday {
        Weekday::Monday => "Mon",
        Weekday::Tuesday => "Tue",
        Weekday::Wednesday => "Wed",
        Weekday::Thursday => "Thu",
        Weekday::Friday => "Fri",
        Weekday::Saturday => "Sat",
        Weekday::Sunday => "Sun",
    }
}

fn month_name(month: u8) -> &'static str
    requires { 1 ≤ month }
    ensures { result.now ≡ month_text month }
{
    match month {
        1 => "Jan",
        2 => "Feb",
        3 => "Mar",
        4 => "Apr",
        5 => "May",
        6 => "Jun",
        7 => "Jul",
        8 => "Aug",
        9 => "Sep",
        10 => "Oct",
        11 => "Nov",
        _ => "Dec",
    }
}

#[tactic(auto, unfolding(fsfs_tree::specs::ShownDates::named_day))]
fn put_named_day(out: &mut Vec<u8>, date: Date) -> Result<(), AllocError>
    ensures { OnOk result (out.new.items ≡ out.old.items ++ named_day date.year date.month date.day) }
{
    put_text(out, weekday_name(date.weekday()))?;
    put_text(out, ", ")?;
    put_two(out, date.day)?;
    put_text(out, " ")?;
    put_text(out, month_name(date.month))?;
    put_text(out, " ")?;
    put_year(out, date)?;
    Ok(())
}

/// Puts a date and time of day, as `2014-07-21 09:25:14 +0000 (Mon, 21 Jul 2014)`.
pub fn put_date(out: &mut Vec<u8>, date_time: DateTime) -> Result<(), AllocError>
    ensures { OnOk result (out.new.items ≡ out.old.items ++ shown_date date_time) }
{
    put_numbered_day(out, date_time.date)?;
    put_text(out, " ")?;
    put_time(out, date_time.time)?;
    put_text(out, " +0000 (")?;
    put_named_day(out, date_time.date)?;
    put_text(out, ")")?;
    Ok(())
}
