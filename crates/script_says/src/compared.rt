// A list of changes in words.
use fields::get_u16;
use script::say;

// A byte as two digits.
pub fn byte(b: u8) {
    io::print_hex(1, b as u64, 2);
}

// A record of the list: its kind, the first byte of its key and of its value.
pub fn say_record(record: &[u8; 72]) {
    say::choice(get_u16(record, 4) == 1, b", insert ", b", delete ");
    byte(record[8]);
    say::text(b" with ");
    byte(record[40]);
}

// The list, its first four records one by one.
pub fn say_list(list: &[u8]) {
    let records: &[[u8; 72]] = list.as_chunks().0;
    say::count(records.len());
    say::text(b" records");
    for record in records.iter().take(4) {
        say_record(record);
    }
    say::text(b"\n");
}

// The first so many records of the room.
pub fn say_front(room: &[u8], records: u32) {
    if 227 < records {
        return;
    }
    match room.get(..72 * records as usize) {
        Some(list) => say_list(list),
        None => say::text(b"MORE THAN THE BUFFER HOLDS\n"),
    }
}
