// Easter Sunday.
ghost use Rattle.std.specs.Prelude.{◌≡◌, ◌+◌};
ghost use Rattle.dates.specs.Century.{InCentury};
ghost use Rattle.calendar.specs.Easter.{no_easter_year, easter_t, easter_month, easter_day, after_march_first};
ghost use Rattle.calendar.specs.Answers.{sunday_paper, easter_sunday};

use crate::winters::CENTURY;
use dates::Date;

// Whether a year is outside those whose Easter can fall into a winter.
#[tactic(auto, unfolding(crate::specs::Easter::no_easter_year))]
fn no_easter_year(year: u32) -> bool
    ensures { result ≡ no_easter_year year }
{
    !(2011..=2099).contains(&year)
}

// The t of rule 1.13, in its letters, from which month and day follow. Of all years asked for b is the same, and so are d, e, f and g.
fn easter_t(y: u32) -> u32
    requires { InCentury y }
    ensures { result ≡ easter_t y }
{
    let a = y % 19;
    let b = CENTURY;
    let c = y - 100 * b;
    let d = b / 4;
    let e = b % 4;
    let f = (b + 8) / 25;
    let g = (b - f + 1) / 3;
    let h = (19 * a + b - d - g + 15) % 30;
    let i = c / 4;
    let k = c % 4;
    let l = (32 + 2 * e + 2 * i - h - k) % 7;
    let m = (a + 11 * h + 22 * l) / 451;
    h + l - 7 * m + 114
}

// Easter Sunday of a year: its month and day. It becomes part of both its callers: of the first the compiler then adds the two up to t again.
#[inline(always)]
fn easter_of(y: u32) -> Date
    requires { InCentury y }
    ensures { result ≡ record { month = easter_month y; day = easter_day y } }
{
    let t = easter_t(y);
    Date {
        month: t / 31,
        day: t % 31 + 1,
    }
}

// How many days after the first of March Easter Sunday of the year after comes.
#[tactic(auto, using(crate::proofs::Bounds::t_range))]
pub(crate) fn easter_after(winter: u32) -> u32
    requires { InCentury (winter + 1) }
    ensures { result ≡ after_march_first (winter + 1) }
{
    let easter = easter_of(winter + 1);
    31 * (easter.month - 3) + easter.day - 1
}

// Easter Sunday of a year, 2011 to 2099: its month and day.
#[tactic(auto, using(crate::proofs::Bounds::easter_laws), unfolding(crate::specs::Answers::easter_sunday))]
pub fn easter_sunday(year: u32) -> Option<Date>
    ensures { sunday_paper result ≡ easter_sunday year }
{
    if no_easter_year(year) {
        return None;
    }
    Some(easter_of(year))
}
