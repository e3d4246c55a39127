// The rules of a notice's hours. They go by the figures and never by the profile.
ghost use Rattle.std.specs.Prelude.{◌≡◌, ℕ};
ghost use Rattle.laws.specs.Table.{first_of};
ghost use Rattle.refusals.specs.Refusals.{rule_paper};
ghost use Rattle.notices.specs.Hours.{touches, outside, bad_hours, bad_length};
ghost use Rattle.notices.specs.HoursVerdict.{hour_rows};

use crate::notices::{Notice, hours_of};
use crate::profiles::{Band, Figures};
use refusals::Rule;

// Some hour of the notice is an hour of the band: each of the two starts is before each of the two ends.
#[tactic(auto, using(crate::proofs::Touching::touches_ends))]
fn touches(band: Band, n: Notice) -> bool
    ensures { result ≡ touches band n }
{
    (n.start < band.end) & (band.start < n.end) & (n.start < n.end) & (band.start < band.end)
}

// The hours are not inside a band.
#[tactic(auto, unfolding(crate::specs::Hours::outside))]
fn outside(band: Band, n: Notice) -> bool
    ensures { result ≡ outside band n }
{
    (n.start < band.start) | (band.end < n.end)
}

// Whether a notice has no hours, or its hours are not inside one band.
#[tactic(auto, unfolding(crate::specs::Hours::bad_hours, crate::specs::Hours::no_hours, crate::specs::Hours::across_band))]
fn bad_hours(f: Figures, n: Notice) -> bool
    ensures { result ≡ bad_hours f n }
{
    n.end <= n.start || (outside(f.morning, n) && outside(f.evening, n))
}

// Numbers 13, 26 and 27 (rule 4.20): the first that the hours of a notice are given. Most notices are given none, so that is asked first.
#[tactic(auto, using(crate::proofs::HourLaws::told), unfolding(crate::specs::Hours::no_hours, crate::specs::Hours::no_band))]
pub fn hours_verdict(f: Figures, n: Notice) -> Result<(), Rule>
    ensures { (k : ℕ) → rule_paper result k ≡ first_of (hour_rows f n k) }
{
    if !bad_hours(f, n) {
        return Ok(());
    }
    if n.end <= n.start {
        return Err(Rule::NoHours);
    }
    if touches(f.morning, n) | touches(f.evening, n) {
        return Err(Rule::AcrossBand);
    }
    Err(Rule::NoBand)
}

// Number 14 (rule 4.13): whether the length of a notice is not allowed.
#[tactic(auto, using(crate::proofs::HourLaws::length_is))]
pub fn bad_length(f: Figures, n: Notice) -> bool
    ensures { result ≡ bad_length f n }
{
    let hours = hours_of(n);
    // Two comparisons, each of a figure of the profile: as a range of the two it is no plainer.
    (hours < f.shortest) | (f.longest < hours)
}
