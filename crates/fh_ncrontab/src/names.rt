// The names of months and of days of the week, short and whole, in any case.
ghost use Rattle.std.specs.Prelude.{◌≡◌, ◌<◌, length, position, IfSome};
ghost use Rattle.fh_ncrontab.specs.Names.{is_name, month_named, day_named};

const SHORT_MONTHS: [&str; 12] = [
    "Jan", "Feb", "Mar", "Apr", "May", "Jun", "Jul", "Aug", "Sep", "Oct", "Nov", "Dec",
];

const MONTHS: [&str; 12] = [
    "January",
    "February",
    "March",
    "April",
    "May",
    "June",
    "July",
    "August",
    "September",
    "October",
    "November",
    "December",
];

const SHORT_DAYS: [&str; 7] = ["Sun", "Mon", "Tue", "Wed", "Thu", "Fri", "Sat"];

const DAYS: [&str; 7] = [
    "Sunday",
    "Monday",
    "Tuesday",
    "Wednesday",
    "Thursday",
    "Friday",
    "Saturday",
];

// The number of the month with this name, from 1.
pub(crate) fn month_named(text: &str) -> Option<u8>
    ensures { result ≡ month_named text.now }
{
    if let Some(before) = place_in(&SHORT_MONTHS, text) {
        return Some(before as u8 + 1);
    }
    let before = place_in(&MONTHS, text)?;
    Some(before as u8 + 1)
}

// The number of the day of the week with this name, where Sunday is 0.
pub(crate) fn day_named(text: &str) -> Option<u8>
    ensures { result ≡ day_named text.now }
{
    if let Some(before) = place_in(&SHORT_DAYS, text) {
        return Some(before as u8);
    }
    let before = place_in(&DAYS, text)?;
    Some(before as u8)
}

// How many of the names stand before the one that the text is.
fn place_in(names: &[&str], text: &str) -> Option<usize>
    ensures place { result ≡ position (λ name. is_name text.now name.now) names.now }
    ensures bound { IfSome result (λ k. k < length names.now) }
{
    names.iter().position(|name| is_name(text, name))
}

fn is_name(text: &str, name: &str) -> bool
    ensures { result ≡ is_name text.now name.now }
{
    text.eq_ignore_ascii_case(name)
}
