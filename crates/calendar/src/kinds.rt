// The kind of a day: what the crates above ask of it, in one call.
ghost use Rattle.std.specs.Prelude.{◌≡◌};
ghost use Rattle.calendar.specs.Answers.{kind_paper, day_kind};

use crate::answers::{Kind, Winter};
use crate::excluded::is_excluded;
use crate::weekdays::is_weekend;
use crate::winters::wrong_winter;
use dates::DateError;

// The kind of a day of a winter: in the winter period or before it, weekday or weekend, excluded or not.
#[tactic(auto, using(crate::proofs::FactLaws::kind_laws), unfolding(crate::specs::Answers::day_kind))]
pub fn kind_of(w: Winter, day: u32) -> Result<Kind, DateError>
    ensures { kind_paper result ≡ day_kind w day }
{
    if wrong_winter(w) {
        return Err(DateError::NoWinter);
    }
    if w.days <= day {
        return Err(DateError::NoDay);
    }
    Ok(Kind {
        period: w.december <= day,
        weekend: is_weekend(w, day),
        excluded: is_excluded(w, day),
    })
}
