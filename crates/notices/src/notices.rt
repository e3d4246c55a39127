// The notices of a list.
ghost use Rattle.std.specs.Prelude.{◌≡◌};
ghost use Rattle.notices.specs.Notices.{count_in, notice_at, hours_of};

// How many numbers a notice has in a list: its day, its first hour and its end.
pub const NOTICE_NUMBERS: usize = 3;

// How many notices a list has at most.
pub const MOST_NOTICES: usize = 100;

// How many numbers the longest list has.
pub const LONGEST_LIST: usize = NOTICE_NUMBERS * MOST_NOTICES;

// A notice: its hours are those from start to end - 1 of its day. The default is no notice: no hours, on day 0.
#[derive(Clone, Copy, Default)]
pub struct Notice {
    pub day: u32,
    pub start: u32,
    pub end: u32,
}

// How many whole notices stand in so many numbers of a list.
pub fn count_in(numbers: usize) -> usize
    ensures { result ≡ count_in numbers }
{
    numbers / NOTICE_NUMBERS
}

// The notice at index k of a list; past the last whole one, no notice.
#[tactic(auto, using(crate::proofs::NoticeLaws::none_is), unfolding(crate::specs::Notices::notice_at))]
pub fn notice_at(list: &[u32], k: usize) -> Notice
    ensures { result ≡ notice_at list.now k }
{
    if count_in(list.len()) <= k {
        return Notice::default();
    }
    // By an index: a notice may lie past the last whole one, so that as an array of three it is asked for by `get` and taken apart, no plainer.
    let at = k * NOTICE_NUMBERS;
    Notice {
        day: list[at],
        start: list[at + 1],
        end: list[at + 2],
    }
}

// How many hours a notice has; none where its end is not after its start.
#[tactic(auto, unfolding(crate::specs::Notices::hours_of))]
pub fn hours_of(n: Notice) -> u32
    ensures { result ≡ hours_of n }
{
    n.end.saturating_sub(n.start)
}
