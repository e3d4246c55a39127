// Bytes to numbers.
ghost use Rattle.std.specs.Prelude.{◌≡◌, ◌+◌, ◌≤◌, length, take};
ghost use Rattle.std.specs.Borrow.{sem};
ghost use Rattle.wire.specs.Bytes.{four_bytes_at, number_at, numbers_to, numbers_read, read_count};
ghost use Rattle.wire.specs.Room.{RoomRead};

// The number in the four bytes from index i on, the lowest first.
#[tactic(auto, unfolding(crate::specs::Bytes::four_bytes_at))]
fn four_bytes_at(bytes: &[u8], i: usize) -> u32
    requires { i + 4 ≤ length bytes.now }
    ensures { result ≡ four_bytes_at bytes.now i }
{
    u32::from_le_bytes([bytes[i], bytes[i + 1], bytes[i + 2], bytes[i + 3]])
}

// The number at index k of some bytes, 0 past their last whole number.
#[tactic(auto, unfolding(crate::specs::Bytes::number_at))]
pub fn number_at(bytes: &[u8], k: usize) -> u32
    ensures { result ≡ number_at bytes.now k }
{
    if bytes.len() / 4 <= k {
        return 0;
    }
    four_bytes_at(bytes, 4 * k)
}

// Reads as many whole numbers, little-endian, as the bytes hold and there is room for; the numbers past them stay as they were.
pub fn read_numbers(bytes: &[u8], numbers: &mut [u32])
    ensures { numbers.new ≡ numbers_read bytes.now numbers.old }
{
    let count = (bytes.len() / 4).min(numbers.len());
    // By an index: of what is written through a `zip` of `iter_mut` a proof knows nothing, and the contract names each number.
    for i in 0..count {
        numbers[i] = four_bytes_at(bytes, 4 * i);
    }
}

// Reads the numbers of some bytes into room, and hands the room on.
fn read_room<'a>(bytes: &[u8], room: &'a mut [u32]) -> &'a mut [u32]
    ensures same { (result.ghost_name ≡ room.entry.ghost_name) × (result.ref_ptr ≡ room.entry.ref_ptr) }
    ensures value { result.now ≡ numbers_read bytes.now room.old }
{
    read_numbers(bytes, room);
    room
}

// The front of room into which some bytes were read: the numbers that were read.
fn front_of<'a>(bytes: &[u8], room: &'a [u32]) -> &'a [u32]
    ensures place { result.ref_ptr ≡ room.entry.ref_ptr }
    ensures value { result.now ≡ take (read_count bytes.now room.now) room.now }
{
    let count = (bytes.len() / 4).min(room.len());
    &room[..count]
}

// Reads as many whole numbers as the bytes hold into the front of some room, as far as it goes, and hands back just these; the room past them stays as it was.
pub fn read_front<'a>(bytes: &[u8], room: &'a mut [u32]) -> &'a [u32]
    ensures* room { sem 𝓛 (RoomRead bytes.now room.entry) }
    ensures place { result.ref_ptr ≡ room.entry.ref_ptr }
    ensures value { result.now ≡ numbers_to bytes.now (read_count bytes.now room.old) }
{
    let numbers = read_room(bytes, room);
    front_of(bytes, numbers)
}
