// One notice after another: the first rule that a notice breaks, and what stands before the next.
ghost use Rattle.std.specs.Prelude.{◌≡◌, ℕ, ◌≤◌, true, false};
ghost use Rattle.calendar.specs.Days.{wrong_winter, in_period};
ghost use Rattle.laws.specs.Rows.{rows_to};
ghost use Rattle.laws.specs.Table.{first_of};
ghost use Rattle.notices.specs.Profiles.{figures_of};
ghost use Rattle.notices.specs.Sane.{Sane, most_hours};
ghost use Rattle.refusals.specs.Refusals.{rule_paper, verdict_paper};
ghost use Rattle.schedule.specs.Walkable.{Walkable, HoursFit};
ghost use Rattle.schedule.specs.Rules.{barred_weekend};
ghost use Rattle.schedule.specs.ListCheck.{day_rows, list_rows, notice_rows, rows_at, after_notice};

use crate::notice_list::NoticeList;
use crate::rules::{Sofar, over_limit, same_band, starts_before};
use calendar::Winter;
use notices::{Figures, Notice, Profile};
use refusals::{Refusal, Rule};

// What a list is judged by: a winter's own facts, and a profile's figures, whose sums stay small.
#[derive(Clone, Copy)]
pub(crate) struct Terms {
    w: Winter,
    f: Figures,
    ghost winter: { wrong_winter w ≡ false },
    ghost figures: { Sane f },
}

impl Terms {
    // The terms of a profile in a winter.
    pub(crate) fn of(w: Winter, p: Profile) -> Terms
        requires { wrong_winter w ≡ false }
        ensures w { result.w ≡ w }
        ensures f { result.f ≡ figures_of p }
    {
        Terms { w, f: p.figures() }
    }

    // 12: a weekend day, under a profile that has none; of a day in the winter period. The day is asked for again, and only where it has to be:
    // tried with the day's kind handed over, a list check of winter credit takes a third more instructions.
    fn barred_weekend(self, n: Notice) -> bool
        ensures { in_period self.w n.day ≡ true → result ≡ barred_weekend self.f self.w n }
    {
        !self.f.weekends && calendar::kind_of(self.w, n.day).is_ok_and(|day| day.weekend)
    }

    // Numbers 10, 11 and 12 (rule 4.20): the day of a notice. A day past the book is in no winter period.
    fn day_verdict(self, n: Notice) -> Result<(), Rule>
        ensures { (k : ℕ) → rule_paper result k ≡ first_of (day_rows self.w self.f n k) }
    {
        let Ok(day) = calendar::kind_of(self.w, n.day) else {
            return Err(Rule::OutsidePeriod);
        };
        if !day.period {
            return Err(Rule::OutsidePeriod);
        }
        if day.excluded {
            return Err(Rule::ExcludedDay);
        }
        if self.barred_weekend(n) {
            return Err(Rule::Weekend);
        }
        Ok(())
    }

    // All rules of a notice, in their order (rule 4.20). It becomes part of the walk over numbers and of that over bytes: with a call to it the
    // list check needs 144 bytes of stack in place of 56.
    #[inline(always)]
    fn notice_verdict(self, so: Sofar, n: Notice) -> Result<(), Rule>
        requires { so.hours ≤ most_hours }
        ensures { (k : ℕ) → rule_paper result k ≡ first_of (notice_rows self.w self.f so n k) }
    {
        self.day_verdict(n)?;
        notices::hours_verdict(self.f, n)?;
        if notices::bad_length(self.f, n) {
            return Err(Rule::BadLength);
        }
        list_verdict(self.f, so, n)
    }

    // The first refusal among the first notices of a list. Before the first stands none: no hours, on day 0.
    pub(crate) fn check_notices<L: NoticeList>(self, list: L, count: usize) -> Result<(), Refusal>
        requires { Walkable (L.numbers list) count }
        ensures { verdict_paper result ≡ first_of (rows_to (rows_at self.w self.f (L.numbers list)) count) }
    {
        let mut so = Sofar::default();
        for k in 0..count {
            let n = list.notice(k);
            let place = k as u32;
            self.notice_verdict(so, n).map_err(|rule| rule.at(place))?;
            so = after_notice(so, n);
        }
        Ok(())
    }
}

// Numbers 15, 16 and 18 (rule 4.20): a notice among the others.
#[tactic(auto, using(crate::proofs::NoticeRows::row_by_row), unfolding(crate::specs::ListCheck::list_rows))]
fn list_verdict(f: Figures, so: Sofar, n: Notice) -> Result<(), Rule>
    requires { HoursFit so n }
    ensures { (k : ℕ) → rule_paper result k ≡ first_of (list_rows f so n k) }
{
    if starts_before(so.event, n) {
        return Err(Rule::StartsBefore);
    }
    if same_band(f, so.event, n) {
        return Err(Rule::SameBand);
    }
    if over_limit(f, so, n) {
        return Err(Rule::OverLimit);
    }
    Ok(())
}

// What stands before the next notice.
#[tactic(auto, unfolding(crate::specs::ListCheck::after_notice))]
fn after_notice(so: Sofar, n: Notice) -> Sofar
    requires { HoursFit so n }
    ensures { result ≡ after_notice so n }
{
    Sofar {
        event: n,
        hours: so.hours + notices::hours_of(n),
    }
}
