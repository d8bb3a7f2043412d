// The program of vectors: it reads a script, whose lines are the rows of documents 01 and 02 and the calls that show them, and writes what came of each
// through the public calls. The script is the crate's file stdin and says its own form; all that is written is held to the file stdout. For a
// new call: a function of `calls`, its words in `script_says`, a line of `call` below, and a line of the script's head that says its form.
#![tactic(auto)]

mod calls;
mod compared;
mod counted;
mod damaged;
mod figured;
mod forged;
mod moving;
mod partners;
mod several;

use script::say;
use script::words::{part, rest, size};
use script_says::calls::said;
use script_says::harmed;

// Which bytes of the memory are the store: the first of them, and how many.
#[derive(Clone, Copy)]
struct Region {
    from: usize,
    size: usize,
}

fn main() {
    let mut lines = [0u8; 32768];
    let mut memory = [0u8; 262144];
    run(&mut lines, &mut memory);
}

// The length of so large an array is known where it is a parameter.
fn run(lines: &mut [u8; 32768], memory: &mut [u8; 262144]) {
    let n = io::read_full(0, lines);
    match lines.get(..n) {
        Some(script) if n < 32768 => each(script, memory),
        _ => say::text(b"THE SCRIPT IS TOO LONG\n"),
    }
}

// Does what each line says.
fn each(lines: &[u8], memory: &mut [u8]) {
    let mut store = Some(Region { from: 0, size: 0 });
    for l in lines.split(|b| *b == b'\n') {
        store = line(l, store, memory);
    }
}

// Does what a line says, and answers where the store is from then on. A line off the script's form is told as such.
fn line(l: &[u8], store: Option<Region>, memory: &mut [u8]) -> Option<Region> {
    let c = part(l, 0, b' ');
    if matches!(c, b"store") {
        return Region::of(l);
    }
    if !said(c, rest(l, b' ')) && within(l, store, memory).is_none() {
        say::line(b"  BAD LINE OF THE SCRIPT: ", l, b"\n");
    }
    store
}

impl Region {
    // store FROM SIZE
    fn of(l: &[u8]) -> Option<Region> {
        Some(Region {
            from: size(part(l, 1, b' '))?,
            size: size(part(l, 2, b' '))?,
        })
    }
}

// A call on the store, where it lies in the memory.
fn within(l: &[u8], store: Option<Region>, memory: &mut [u8]) -> Option<()> {
    let Region { from, size } = store?;
    call(
        l,
        part(l, 0, b' '),
        memory.get_mut(from..)?.get_mut(..size)?,
    )
}

// A line for each call, and for what a damaged disk would do to the store. None where it is none of these, or its words
// are off their form.
fn call(l: &[u8], c: &[u8], store: &mut [u8]) -> Option<()> {
    match c {
        b"format" => calls::format(store),
        b"check" => calls::check(store),
        b"apply" => calls::apply(l, store),
        b"prune" => calls::prune(l, store),
        b"root" => calls::root(l, store),
        b"get" => calls::get(l, store),
        b"prove" => calls::prove(l, store),
        b"palette" => several::palette(l, store),
        b"changes" => compared::changes(l, store),
        b"rescue" => damaged::rescue(l, store),
        b"levels" => calls::levels(store),
        b"count" => counted::count(l, store),
        b"at" => counted::at(l, store),
        b"figures" => figured::figures(l, store),
        b"pocket" => calls::pocket(l, store),
        b"finding" => forged::finding(l, store),
        b"grant" => partners::grant(l, store),
        b"message" => partners::message(l, store),
        b"read" => partners::read(l),
        b"back" => moving::back(l, store),
        b"over" => moving::over(l, store),
        b"byte" => harmed::byte(l, store),
        b"lose" => harmed::lose(l, store),
        _ => None,
    }
}
