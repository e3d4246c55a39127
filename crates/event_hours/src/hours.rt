// The event hours of one day: the bits of a mask, by shifts and `&`.
ghost use Rattle.std.specs.Prelude.{◌≡◌, ◌≤◌};
ghost use Rattle.event_hours.specs.Hours.{hours_mask, band_mask, own_hours};

use notices::Profile;

// The bits of the hours from start to end - 1. A shift past the day's 24 bits could lose its bit, so the callers rule it out.
#[tactic(auto, using(crate::proofs::HoursMask::shifts_order, crate::proofs::HoursMask::mask_made))]
pub(crate) fn hours_mask(start: u32, end: u32) -> u32
    requires { (start ≤ end) × (end ≤ 24) }
    ensures { result ≡ hours_mask start end }
{
    (1u32 << end) - (1u32 << start)
}

// The band of an event that starts at that hour: the winter credit's, in which those of every profile lie, the morning's up to the evening's.
#[tactic(auto, unfolding(crate::specs::Hours::band_mask))]
fn band_mask(start: u32) -> u32
    ensures { result ≡ band_mask start }
{
    let evening = Profile::CREDIT.evening;
    if start < evening.start {
        return hours_mask(Profile::CREDIT.morning.start, evening.start);
    }
    hours_mask(evening.start, evening.end)
}

// A day's mask cut to the band of the event that starts at that hour: a day can have an event in each band.
#[tactic(auto, unfolding(crate::specs::Hours::own_hours))]
pub(crate) fn own_hours(mask: u32, start: u32) -> u32
    ensures { result ≡ own_hours mask start }
{
    mask & band_mask(start)
}
