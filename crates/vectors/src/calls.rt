// The public calls, each with a line that says what came. Each function answers None where the line of the script is
// off its form.
use digest::digest;
use fields::get_u16;
use hash::Hash;
use script::batches::{self, Record};
use script::words::{number, part, rest, size};
use script::{held, say};
pub use script_says::calls::{
    accepted, asks, levels, number_in, refused, refused_read, say_found, say_kept, say_root, word,
};
use script_says::calls::{say_got, say_made};

pub fn format(store: &mut [u8]) -> Option<()> {
    say::text(b"  came  format ");
    say::count(store.len());
    say::text(b" bytes: ");
    let before = digest(store);
    let no = grants::grants_format(store);
    if accepted(no, before, store) {
        say::text(b"accepted\n");
    }
    Some(())
}

pub fn check(store: &[u8]) -> Option<()> {
    say::text(b"  came  check: ");
    let no = grants::grants_check(store);
    if no == 0 {
        say::text(b"sound\n");
    } else {
        refused(no, b"\n");
    }
    Some(())
}

// apply NUMBER NAME: RECORDS: GRANTS
pub fn apply(l: &[u8], store: &mut [u8]) -> Option<()> {
    let mut records = [[0u8; 72]; 1025];
    let mut grants = [[0u8; 72]; 1025];
    publish(l, store, &mut records, &mut grants)
}

// The length of so large an array is known where it is a parameter.
fn publish(
    l: &[u8],
    store: &mut [u8],
    records: &mut [Record; 1025],
    grants: &mut [Record; 1025],
) -> Option<()> {
    let version = number(part(l, 1, b' '))?;
    let n = batches::written(part(l, 1, b':'), records)?;
    let m = batches::written(part(l, 2, b':'), grants)?;
    say::line(b"  came  ", rest(rest(part(l, 0, b':'), b' '), b' '), b": ");
    let root = batches::root(&grants[..m], 256);
    if let Some(answer) = applied(store, version, records[..n].as_flattened()) {
        say_made(store, &answer, root);
    }
    Some(())
}

// Publishes a batch under a number: what the call answers, or None where it refuses.
pub fn applied(store: &mut [u8], version: u32, batch: &[u8]) -> Option<[u8; 40]> {
    let before = digest(store);
    let mut answer = [0u8; 40];
    let no = grants::grants_apply(store, version, batch, &mut answer);
    if accepted(no, before, store) {
        return Some(answer);
    }
    None
}

// prune VERSION; and which slots hold a record then.
pub fn prune(l: &[u8], store: &mut [u8]) -> Option<()> {
    let version = number(part(l, 1, b' '))?;
    say::line(b"  came  prune to ", part(l, 1, b' '), b": ");
    let before = digest(store);
    let mut freed = [0u8; 4];
    let no = grants::grants_prune(store, version, &mut freed);
    if accepted(no, before, store) {
        say::text(b"freed ");
        say::count(number_in(&freed) as usize);
        say::text(b"\n");
        held::say_slots(store, None);
    }
    Some(())
}

// root VERSION
pub fn root(l: &[u8], store: &[u8]) -> Option<()> {
    let version = number(part(l, 1, b' '))?;
    say::line(b"  came  root of ", part(l, 1, b' '), b": ");
    let mut root = [0u8; 32];
    let no = grants::grants_root(store, version, &mut root);
    say_root(no, &root);
    Some(())
}

// get NAME: VERSION KEY
pub fn get(l: &[u8], store: &[u8]) -> Option<()> {
    let (version, key) = asks(b"  came  get ", l)?;
    say::text(b": ");
    let mut found = [0u8; 33];
    let no = grants::grants_get(store, version, &key, &mut found);
    say_got(no, &found);
    Some(())
}

// How a proof is written and checked: with no more rules than every proof has, or by the pocket profile.
#[derive(Clone, Copy)]
pub enum Profile {
    Whole,
    Pocket,
}

impl Profile {
    fn prove(
        self,
        store: &[u8],
        version: u32,
        key: &[u8; 32],
        room: &mut [u8],
        length: &mut [u8; 4],
    ) -> u64 {
        match self {
            Profile::Whole => grants::grants_prove(store, version, key, room, length),
            Profile::Pocket => grants::grants_pocket_prove(store, version, key, room, length),
        }
    }

    fn verify(self, root: &[u8; 32], key: &[u8; 32], proof: &[u8], found: &mut [u8; 33]) -> u32 {
        match self {
            Profile::Whole => grants::grants_verify(root, key, proof, found),
            Profile::Pocket => grants::grants_pocket_verify(root, key, proof, found),
        }
    }
}

// prove NAME: VERSION KEY ROOM; the proof is checked against the root of its version.
pub fn prove(l: &[u8], store: &[u8]) -> Option<()> {
    prove_by(Profile::Whole, b"  came  prove ", l, store)
}

// pocket NAME: VERSION KEY ROOM; the proof is checked by the pocket check against the root of its version.
pub fn pocket(l: &[u8], store: &[u8]) -> Option<()> {
    prove_by(Profile::Pocket, b"  came  pocket prove ", l, store)
}

fn prove_by(profile: Profile, came: &[u8], l: &[u8], store: &[u8]) -> Option<()> {
    let mut all = [0u8; 17080];
    let room = all.get_mut(..size(word(l, 3))?)?;
    let (version, key) = asks(came, l)?;
    say::line(b", buffer ", word(l, 3), b" bytes: ");
    let before = digest(room);
    let mut length = [0u8; 4];
    let no = profile.prove(store, version, &key, room, &mut length);
    if let Some(proof) = written(no, before, room, &length) {
        verify(profile, store, version, &key, proof);
    }
    Some(())
}

// What a call wrote to the front of its buffer, or None where it refused; then the buffer is as it was.
pub fn written<'a>(no: u64, before: Hash, room: &'a [u8], length: &[u8; 4]) -> Option<&'a [u8]> {
    if no != 0 {
        refused_read(no, b"");
        say_kept(before, room);
        return None;
    }
    let front = room.get(..number_in(length) as usize);
    if front.is_none() {
        say::text(b"LONGER THAN THE BUFFER\n");
    }
    front
}

// A proof's length, the count of its steps or, of an absence proof, its flags, and what it shows against the root of its version.
pub fn verify(profile: Profile, store: &[u8], version: u32, key: &[u8; 32], proof: &[u8]) {
    say::text(b"length ");
    say::count(proof.len());
    if 8 <= proof.len() {
        say::choice(get_u16(proof, 4) == 16, b", steps ", b", flags ");
        say::count(get_u16(proof, 6) as usize);
    }
    say::choice(
        matches!(profile, Profile::Pocket),
        b"; pocket check: ",
        b"; verify: ",
    );
    let mut root = [0u8; 32];
    let no = grants::grants_root(store, version, &mut root);
    if no == 0 {
        verify_under(profile, &root, key, proof);
    } else {
        refused_read(no, b"\n");
    }
}

fn verify_under(profile: Profile, root: &[u8; 32], key: &[u8; 32], proof: &[u8]) {
    let mut found = [0u8; 33];
    let no = profile.verify(root, key, proof, &mut found);
    if no != 0 {
        refused(no, b"\n");
        return;
    }
    say_found(&found);
}
