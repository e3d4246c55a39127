// The event hours of all days, filled from the notices of a list.
ghost use Rattle.std.specs.Prelude.{◌≡◌};
ghost use Rattle.event_hours.specs.Days.{marks_none, with_hours, masks_of};

use crate::hours::hours_mask;
use notices::Notice;

// Whether a notice names no hours of a day that a book can have. An accepted list has no such notice, but any list may be lent.
#[tactic(auto, unfolding(crate::specs::Days::marks_none))]
fn marks_none(n: Notice) -> bool
    ensures { result ≡ marks_none n }
{
    (152 <= n.day) | (n.end <= n.start) | (24 < n.end)
}

// Marks the hours of one notice more, in the lent masks themselves: no array is copied for a notice.
#[tactic(auto, using(crate::proofs::DayLaws::marks, crate::proofs::DayLaws::with_none, crate::proofs::DayLaws::with_some))]
fn mark_hours(masks: &mut [u32; 152], n: Notice)
    ensures { masks.new ≡ with_hours masks.old n }
{
    if marks_none(n) {
        return;
    }
    let day = n.day as usize;
    masks[day] |= hours_mask(n.start, n.end);
}

// The event hours of all days, all zero at first and filled from the notices of a list, whether or not they stand.
#[tactic(auto, using(crate::proofs::DayLaws::masks_none, crate::proofs::DayLaws::masks_next), unfolding(crate::specs::Days::masks_of))]
pub fn masks_of(list: &[u32]) -> [u32; 152]
    ensures { result ≡ masks_of list.now }
{
    let mut masks = [0u32; 152];
    for k in 0..notices::count_in(list.len()) {
        mark_hours(&mut masks, notices::notice_at(list, k));
    }
    masks
}
