// The event lines and the read lines of a text: judged, and put into lent slices as they are read.
ghost use mathlib.Core.List.{flatten};
ghost use Rattle.std.specs.Prelude.{◌≡◌, ◌≤◌};
ghost use Rattle.std.proofs.lemmas.List.Edits.{sets};
ghost use Rattle.form.specs.Lines.{event_line_at, head_at, read_line_at, lines_end, lines_said};
ghost use Rattle.form.specs.Places.{put_read, book_in, hours_told, placed_lines};

use crate::places::{Hours, misplaced, place_of};
use numerals::{Field, Row, field_at, row_at, word_at};

// How many numbers an event line has, and how many values a read line has at most.
const EVENT_NUMBERS: u32 = notices::NOTICE_NUMBERS as u32;

const MOST_VALUES: u32 = book::DAY_HOURS as u32;

// The first line of a text that breaks the form, counted from 1.
#[derive(Clone, Copy, Debug, PartialEq, Eq)]
pub struct BrokenLine {
    pub line: usize,
}

// The day and the hour that a read line starts with, and the position after them.
#[derive(Clone, Copy)]
pub struct Head {
    pub day: u32,
    pub hour: u32,
    pub next: usize,
}

// The position after some read lines, and the first of them that is misplaced.
#[derive(Clone, Copy)]
pub struct Placed {
    pub next: usize,
    pub misplaced: Option<usize>,
}

// `event=day,s,e`, its numbers put into the list from index k on.
#[tactic(auto, unfolding(crate::specs::Lines::event_line_at))]
fn event_line(text: &[u8], at: usize, list: &mut [u32], k: usize) -> Option<usize>
    ensures value { result ≡ (event_line_at text.now at).end }
    ensures list_after { list.new ≡ sets list.old k (event_line_at text.now at).said }
{
    let p = word_at(text, at, b"event=")?;
    let Row { count, next } = row_at(text, p, EVENT_NUMBERS, list, k)?;
    if count != EVENT_NUMBERS {
        return None;
    }
    Some(next)
}

// So many event lines from a position on, of which the first is line 4 of the text.
#[tactic(auto, using(crate::proofs::EventWalk::events_laws))]
pub(crate) fn event_lines(
    text: &[u8],
    at: usize,
    events: u32,
    list: &mut [u32],
) -> Result<usize, BrokenLine>
    ensures value { result ≡ lines_end (event_line_at text.now) events at 4 }
    ensures list_after { list.new ≡ sets list.old 0 (flatten (lines_said (event_line_at text.now) events at)) }
{
    let mut next = at;
    for k in 0..events as usize {
        let broken = BrokenLine { line: 4 + k };
        next = event_line(text, next, list, k * notices::NOTICE_NUMBERS).ok_or(broken)?;
    }
    Ok(next)
}

// `read=day,hour,`
#[tactic(auto, unfolding(crate::specs::Lines::head_at))]
fn head_at(text: &[u8], at: usize) -> Option<Head>
    ensures { result ≡ head_at text.now at }
{
    let p = word_at(text, at, b"read=")?;
    let day = field_at(text, p)?;
    if day.end != b',' {
        return None;
    }
    let hour = field_at(text, day.next)?;
    if hour.end != b',' {
        return None;
    }
    Some(Head {
        day: day.value,
        hour: hour.value,
        next: hour.next,
    })
}

// `read=day,hour,v,..`, its values put into the book at their hours.
#[tactic(auto, unfolding(crate::specs::Lines::read_line_at))]
fn read_line(text: &[u8], at: usize, book: &mut [u32]) -> Option<Hours>
    ensures value { result ≡ hours_told (read_line_at text.now at) }
    ensures book_after { book.new ≡ put_read (read_line_at text.now at).said book.old }
{
    let Head {
        day,
        hour,
        next: from,
    } = head_at(text, at)?;
    let Row { count, next } = row_at(text, from, MOST_VALUES, book, place_of(day, hour))?;
    Some(Hours {
        day,
        hour,
        count,
        next,
    })
}

// So many read lines from a position on, of which the first is line `first` of the text, and the first of them that is misplaced in a book of
// so many days.
#[tactic(auto, using(crate::proofs::ReadWalk::reads_start))]
pub(crate) fn read_lines(
    text: &[u8],
    at: usize,
    reads: u32,
    first: usize,
    days: usize,
    book: &mut [u32],
) -> Result<Placed, BrokenLine>
    requires { first ≤ 8589934592 }
    ensures value { result ≡ placed_lines days reads text.now at first }
    ensures book_after { book.new ≡ book_in (lines_said (read_line_at text.now) reads at) book.old }
{
    let mut next = at;
    let mut end: usize = 0;
    let mut found = None;
    for k in 0..reads as usize {
        let line = first + k;
        let hours = read_line(text, next, book).ok_or(BrokenLine { line })?;
        found = found.or(misplaced(days, end, hours).then_some(line));
        end = place_of(hours.day, hours.hour) + hours.count as usize;
        next = hours.next;
    }
    Ok(Placed {
        next,
        misplaced: found,
    })
}
