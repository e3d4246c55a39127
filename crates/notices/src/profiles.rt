// The profiles and their figures.
ghost use Rattle.std.specs.Prelude.{◌≡◌};
ghost use Rattle.notices.specs.Profiles.{figures_of, named};

use refusals::Rule;

// A profile: winter credit or power option.
#[derive(Clone, Copy, Debug, PartialEq, Eq)]
pub enum Profile {
    Credit,
    PowerOption,
}

// A band: the hours of a day from start to end - 1.
#[derive(Clone, Copy)]
pub struct Band {
    pub start: u32,
    pub end: u32,
}

// The figures of a profile: one column of section 3's table.
#[derive(Clone, Copy)]
pub struct Figures {
    pub morning: Band,
    pub evening: Band,
    pub weekends: bool,
    pub shortest: u32,
    pub longest: u32,
    pub hours: u32,
}

impl Profile {
    // Profile 1, winter credit.
    pub const CREDIT: Figures = Figures {
        morning: Band { start: 6, end: 10 },
        evening: Band { start: 16, end: 20 },
        weekends: true,
        shortest: 1,
        longest: 4,
        hours: 100,
    };

    // Profile 2, power option.
    pub const POWER_OPTION: Figures = Figures {
        morning: Band { start: 6, end: 9 },
        evening: Band { start: 16, end: 20 },
        weekends: false,
        shortest: 3,
        longest: 4,
        hours: 100,
    };

    // The figures by which the rules go.
    #[tactic(auto, unfolding(crate::specs::Profiles::figures_of))]
    pub fn figures(self) -> Figures
        ensures { result ≡ figures_of self }
    {
        match self {
            Profile::Credit => Profile::CREDIT,
            Profile::PowerOption => Profile::POWER_OPTION,
        }
    }
}

// The profile of a number, if there is one (rule 3.5).
impl TryFrom<u32> for Profile {
    type Error = Rule;

    ghost try_from_gives = { λ number result. result ≡ named number };

    #[tactic(auto, unfolding(crate::specs::Profiles::named))]
    fn try_from(number: u32) -> Result<Profile, Rule> {
        match number {
            1 => Ok(Profile::Credit),
            2 => Ok(Profile::PowerOption),
            _ => Err(Rule::NoProfile),
        }
    }
}
