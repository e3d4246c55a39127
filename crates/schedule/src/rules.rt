// The rules of a notice among the others, each a fault test: true where the rule is broken. They go by the figures and never by the profile.
ghost use Rattle.std.specs.Prelude.{◌≡◌};
ghost use Rattle.schedule.specs.Walkable.{HoursFit};
ghost use Rattle.schedule.specs.Rules.{starts_before, same_band, over_limit};

use notices::{Figures, Notice};

// What stands before a notice: the last event so far, which is the notice before it, and the hours of all events so far.
#[derive(Clone, Copy, Default)]
pub struct Sofar {
    pub event: Notice,
    pub hours: u32,
}

// 15: it starts before the notice before it ends. Most notices are on a later day, so that is asked first: tried as one comparison of pairs, day
// and hour, a list check takes a seventh more instructions.
#[tactic(auto, unfolding(crate::specs::Rules::starts_before))]
pub(crate) fn starts_before(last: Notice, n: Notice) -> bool
    ensures { result ≡ starts_before last n }
{
    if last.day < n.day {
        return false;
    }
    (n.day < last.day) | (n.start < last.end)
}

// 16: the same day and band as the last event so far. It asks for a later day first, as 15 does, so that the compiler makes one comparison of the
// two: tried with `==` and `&&` alone, a list check takes a thirtieth more instructions.
#[tactic(auto, unfolding(crate::specs::Rules::same_band))]
pub(crate) fn same_band(f: Figures, event: Notice, n: Notice) -> bool
    ensures { result ≡ same_band f event n }
{
    if event.day < n.day {
        return false;
    }
    (event.day == n.day) & ((event.start < f.evening.start) == (n.start < f.evening.start))
}

// 18: too many hours in the winter (rule 4.16). That the sum is small stays a `requires` of three functions: it is a fact of two values, what stands
// before and the notice, of which the first is another one at each turn.
#[tactic(auto, unfolding(crate::specs::Rules::over_limit))]
pub(crate) fn over_limit(f: Figures, so: Sofar, n: Notice) -> bool
    requires { HoursFit so n }
    ensures { result ≡ over_limit f so n }
{
    f.hours < so.hours + notices::hours_of(n)
}
