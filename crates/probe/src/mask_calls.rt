// The event hours of a list.
ghost use Rattle.std.specs.Prelude.{◌≡◌, get_or};
ghost use Rattle.event_hours.specs.Days.{masks_of};
ghost use Rattle.event_hours.specs.Events.{event_on};

use notices::Notice;

// The event hours of a day, none past day 151.
#[unsafe(no_mangle)]
pub extern "C" fn probe_mask(list: &[u32], day: usize) -> u32
    ensures { result ≡ get_or (masks_of list.now) day 0 }
{
    let masks = event_hours::masks_of(list);
    masks.get(day).copied().unwrap_or(0)
}

// The event that the masks hold on a day, in the band of an hour.
fn event_from(list: &[u32], day: u32, start: u32) -> Notice
    ensures { result ≡ event_on (masks_of list.now) (record { day = day; start = start; end = start }) }
{
    let asked = Notice {
        day,
        start,
        end: start,
    };
    event_hours::event_on(&event_hours::masks_of(list), asked)
}

// Its first hour.
#[unsafe(no_mangle)]
pub extern "C" fn probe_event_start(list: &[u32], day: u32, start: u32) -> u32
    ensures { result ≡ (event_on (masks_of list.now) (record { day = day; start = start; end = start })).start }
{
    event_from(list, day, start).start
}

// Its end.
#[unsafe(no_mangle)]
pub extern "C" fn probe_event_end(list: &[u32], day: u32, start: u32) -> u32
    ensures { result ≡ (event_on (masks_of list.now) (record { day = day; start = start; end = start })).end }
{
    event_from(list, day, start).end
}
