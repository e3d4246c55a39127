// The days that a line is made from, each with its part of the book.
ghost use Rattle.std.specs.Prelude.{◌≡◌, ℕ, false, List, map, length};
ghost use Rattle.book.specs.Part.{no_part};
ghost use Rattle.book.specs.Readings.{reading_at};
ghost use Rattle.energy.specs.Parts.{parts_of};
ghost use Rattle.energy.specs.Ready.{PartsReady, IsDay, AreDays};

use book::DAY_HOURS;
use calendar::Winter;

// A day and its readings. The type says how many they are, so that the compiler tests for no length.
#[derive(Clone, Copy)]
pub struct Day<'a> {
    pub number: u32,
    pub readings: &'a [u32; DAY_HOURS],
}

// The day of an event and its five reference days, nearest first.
#[derive(Clone, Copy)]
pub struct SixDays<'a> {
    pub event: Day<'a>,
    pub refs: [Day<'a>; 5],
}

impl<'a> Day<'a> {
    // A day that the book has.
    #[tactic(auto, using(book::proofs::PartLaws::part_of_book))]
    fn fetch(w: Winter, book: &'a [u32], number: u32) -> Day<'a>
        requires { no_part w (length book.now) number ≡ false }
        ensures { IsDay book.now number result }
    {
        let part = book::day_readings(w, book, number);
        let readings = <&[u32; DAY_HOURS]>::try_from(part).unwrap();
        Day { number, readings }
    }

    // The reading of an hour.
    pub(crate) fn reading(&self, hour: u32) -> u32
        ensures { result ≡ reading_at self.now.readings.now hour }
    {
        let readings = self.readings;
        book::reading(readings, hour)
    }
}

impl<'a> SixDays<'a> {
    // The six days of an event that has five reference days, each fetched once.
    pub(crate) fn fetch(w: Winter, book: &'a [u32], day: u32, refs: [u32; 5]) -> SixDays<'a>
        requires { PartsReady w (length book.now) day refs }
        ensures { AreDays book.now day refs result }
    {
        let event = Day::fetch(w, book, day);
        let refs = refs.map(|number| Day::fetch(w, book, number));
        SixDays { event, refs }
    }
}

// The readings of an hour on five days.
#[tactic(auto, using(crate::proofs::TrimmedLaws::five))]
pub(crate) fn readings_at(days: &[Day<'_>; 5], hour: u32) -> [u32; 5]
    ensures { result ≡ map (λ (p : List ℕ). reading_at p hour) (parts_of days.now) }
{
    days.each_ref().map(|day| day.reading(hour))
}
