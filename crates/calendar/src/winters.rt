// A winter's own facts, worked out once and handed on by value.
ghost use Rattle.std.specs.Prelude.{◌≡◌};
ghost use Rattle.calendar.specs.Answers.{known_paper, winter_facts};
ghost use Rattle.calendar.specs.Days.{wrong_winter};
ghost use Rattle.calendar.specs.WinterOf.{first_of};

use crate::answers::Winter;
use crate::easter::easter_after;
use crate::weekdays::first_weekday;

// How many hundreds each year of a winter has, and each year whose Easter is answered: they are 2010 to 2099.
// That a year has so many stays a `requires` of private functions: a type for it would be made and opened again for each year that is added up.
pub(crate) const CENTURY: u32 = 20;

// Whether no winter has such facts: any may be handed over.
#[tactic(auto, unfolding(crate::specs::Days::wrong_winter))]
pub fn wrong_winter(w: Winter) -> bool
    ensures { result ≡ wrong_winter w }
{
    !(151..=152).contains(&w.days)
}

// The first day of a month of the winter, 0 where its book has no such month.
fn first_of(winter: u32, month: u32) -> u32
    ensures { result ≡ first_of winter month }
{
    dates::book_day_of(winter, month, 1).unwrap_or(0)
}

// The facts of a winter.
#[tactic(auto, using(dates::proofs::Promise::no_winter_lem, laws::proofs::Refusals::refused), unfolding(crate::specs::Answers::winter_facts))]
pub fn winter_of(winter: u32) -> Option<Winter>
    ensures { known_paper result ≡ winter_facts winter }
{
    let days = dates::winter_days(winter)?;
    Some(Winter {
        days,
        december: first_of(winter, 12),
        first: first_weekday(winter),
        easter: first_of(winter, 3) + easter_after(winter),
    })
}
