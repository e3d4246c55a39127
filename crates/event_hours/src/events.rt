// An event as its day's bits have it.
ghost use Rattle.std.specs.Prelude.{◌≡◌, ◌≤◌};
ghost use Rattle.event_hours.specs.Events.{mask_on, is_run, event_of, event_on};

use crate::hours::{hours_mask, own_hours};
use notices::Notice;

// The mask of a day, none past the last that a book can have.
#[tactic(auto, unfolding(crate::specs::Events::mask_on))]
fn mask_on(masks: &[u32; 152], day: u32) -> u32
    ensures { result ≡ mask_on masks.now day }
{
    masks.get(day as usize).copied().unwrap_or(0)
}

// Whether the bits are just those of the hours from start to end - 1 of a day.
#[tactic(auto, unfolding(crate::specs::Events::is_run))]
fn is_run(bits: u32, start: u32, end: u32) -> bool
    requires { start ≤ end }
    ensures { result ≡ is_run bits start end }
{
    end <= 24 && bits == hours_mask(start, end)
}

// The event of those bits: it starts after as many hours as they have trailing zeros, and is as long as they have ones. Bits that are
// no run of hours are no event, and neither are none: it then has no hours.
#[tactic(auto, unfolding(crate::specs::Events::event_of))]
fn event_of(day: u32, bits: u32) -> Notice
    ensures { result ≡ event_of day bits }
{
    let start = bits.trailing_zeros();
    let end = start + bits.count_ones();
    Notice {
        day,
        start,
        end: if is_run(bits, start, end) { end } else { start },
    }
}

// The event that the masks hold on the day and in the band of a notice; of an accepted list's masks it is the notice itself.
#[tactic(auto, unfolding(crate::specs::Events::event_on))]
pub fn event_on(masks: &[u32; 152], n: Notice) -> Notice
    ensures { result ≡ event_on masks.now n }
{
    let mask = mask_on(masks, n.day);
    event_of(n.day, own_hours(mask, n.start))
}
