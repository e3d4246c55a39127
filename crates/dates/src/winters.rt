// Winters.
ghost use Rattle.std.specs.Prelude.{◌≡◌, ◌+◌};
ghost use Rattle.dates.specs.Century.{InCentury};
ghost use Rattle.dates.specs.Winters.{no_winter, leap};

// Whether no winter has that name: a winter is named by the year of its December, 2010 to 2098.
#[tactic(auto, unfolding(crate::specs::Winters::no_winter))]
pub(crate) fn no_winter(winter: u32) -> bool
    ensures { result ≡ no_winter winter }
{
    !(2010..=2098).contains(&winter)
}

// Whether the winter's February, the next year's, has a leap day. All winters lie in one century, in which every fourth year has one.
#[tactic(auto, using(crate::proofs::DateLaws::leap_century))]
pub(crate) fn has_leap_day(winter: u32) -> bool
    requires { InCentury (winter + 1) }
    ensures { result ≡ leap (winter + 1) }
{
    (winter + 1) % 4 == 0
}
