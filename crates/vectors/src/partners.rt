// ICS 23's message, document 02, request 2026-02: the words of a line are raw, and the store's keys and values are their SHA-256.
use crate::calls::{accepted, applied, number_in};
use digest::digest;
use script::say;
use script::words::{number, size};
use script_says::calls::bytes_of;
use script_says::partners::{grant_record, raw, say_read, say_root, word};

// grant NUMBER KEY VALUE
pub fn grant(l: &[u8], store: &mut [u8]) -> Option<()> {
    let version = number(word(l, 1))?;
    say::line(b"  came  grant ", word(l, 2), b" = ");
    say::text(word(l, 3));
    say::text(b": ");
    if let Some(answer) = applied(store, version, &grant_record(word(l, 2), word(l, 3))) {
        say_root(&answer);
    }
    Some(())
}

fn read_all(message: &[u8], own: &mut [u8], record: &[u8]) {
    let before = digest(own);
    let mut answer = [0u8; 44];
    let no = grants::grants_ics23_read(message, own, &mut answer);
    if accepted(no, before, own) {
        say_read(&answer, own, record);
    }
}

// Reads into room of so many bytes; where there is no such room, nothing is read.
fn read_into(message: &[u8], n: Option<usize>, record: &[u8]) -> Option<()> {
    let mut room = [7u8; 300];
    let own = room.get_mut(..n?)?;
    say::text(b"        read: ");
    read_all(message, own, record);
    Some(())
}

fn say_written(l: &[u8], message: &[u8], record: &[u8]) {
    say::count(message.len());
    say::text(b" bytes, SHA-256 ");
    say::hex(digest(message));
    say::text(b"\n");
    let _read = read_into(message, size(word(l, 9)), record);
}

fn write_all(l: &[u8], room: &mut [u8], record: &[u8]) -> Option<()> {
    let before = digest(room);
    let mut length = [0u8; 4];
    let no = grants::grants_ics23_write(
        record,
        raw(word(l, 2)),
        raw(word(l, 3)),
        raw(word(l, 4)),
        raw(word(l, 5)),
        raw(word(l, 6)),
        room,
        &mut length,
    );
    if accepted(no, before, room) {
        say_written(l, room.get(..number_in(&length) as usize)?, record);
    }
    Some(())
}

// Writes the message of a proof without its last so many bytes; where the proof or the room has no so many, nothing is
// written.
fn write_cut(l: &[u8], proof: &[u8]) -> Option<()> {
    let n = proof.len().checked_sub(size(word(l, 8))?)?;
    let mut room = [7u8; 300];
    write_all(l, room.get_mut(..size(word(l, 7))?)?, proof.get(..n)?)
}

// message VERSION ASKED KEY1 VALUE1 KEY2 VALUE2 ROOM CUT READ
pub fn message(l: &[u8], store: &[u8]) -> Option<()> {
    let version = number(word(l, 1))?;
    say::line(b"  came  message of ", word(l, 2), b" in ");
    say::text(word(l, 7));
    say::text(b" bytes: ");
    let mut room = [0u8; 17080];
    let mut length = [0u8; 4];
    let key = bytes_of(digest(raw(word(l, 2))));
    grants::grants_prove(store, version, &key, &mut room, &mut length);
    let _written = room
        .get(..number_in(&length) as usize)
        .and_then(|proof| write_cut(l, proof));
    Some(())
}

// read WORD: the word's own bytes as a message.
pub fn read(l: &[u8]) -> Option<()> {
    say::line(b"  came  ", word(l, 1), b" as a message\n");
    read_into(word(l, 1), Some(300), l)
}
