// The figures of versions in words.
use fields::get_u32;
use script::say;

// The four numbers of a version.
pub fn say_four(numbers: &[u8; 16]) {
    say::text(b";");
    for number in numbers.as_chunks().0 {
        say::text(b" ");
        say::count(u32::from_le_bytes(*number) as usize);
    }
}

// The totals, and the numbers of the first eight versions.
pub fn say_all(numbers: &[u8], totals: &[u8; 8]) {
    say::text(b"distinct ");
    say::count(get_u32(totals, 0) as usize);
    say::text(b", sum ");
    say::count(get_u32(totals, 4) as usize);
    for four in numbers.as_chunks().0.iter().take(8) {
        say_four(four);
    }
    say::text(b"\n");
}

// So many versions of the range fill the front of the room.
pub fn say_front(room: &[u8], first: u32, last: u32, totals: &[u8; 8]) {
    let Some(more) = last.checked_sub(first) else {
        return;
    };
    if 1023 < more {
        return;
    }
    match room.get(..16 * (more as usize + 1)) {
        Some(numbers) => say_all(numbers, totals),
        None => say::text(b"MORE THAN THE BUFFER HOLDS\n"),
    }
}
