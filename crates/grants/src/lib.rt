// The public calls, for Rust to call; `grants_c` has them for C and others to link. Each answers 0 where it is accepted, else its number of
// refusal (docs/RULES.md, 'Numbers of refusal'); a refused call writes nothing, its answer included.
#![tactic(auto)]

ghost use Rattle.std.specs.Prelude.{[], ◌∷◌};
ghost use Rattle.std.proofs.Math.Option.{some};
ghost use Rattle.contracts.specs.Contracts.{Formats, Checks, Indexes, TellsIndex, FormatsIndexed, AppliesIndexed, PrunesIndexed, Applies, Prunes, ReadsRoot, ReadsKey, Counts, ReadsAt, Proves, Palettes, ReadsRootBy, ReadsKeyBy, CountsBy, ReadsAtBy, ProvesBy, PalettesBy, Changes, Rescues, MovesOver, MovesBack, Finds, Figures, PocketProves, Verifies, PocketVerifies, ShelfVerifies, VerifiesMany, WritesMessage, ReadsMessage, TellsVersion, Hashes};

use refusal_numbers::number_told;
use terms::Form;

// Makes a fresh store of any bytes of the right length.
pub fn grants_format(store: &mut [u8]) -> u32
    ensures { Formats store.old result store.new }
{
    format::formatted_out(store)
}

// Whether a store is sound.
pub fn grants_check(store: &[u8]) -> u32
    ensures { Checks store.now result }
{
    number_told(check_store::check(Form::Counted, store))
}

// Makes the version of a number above latest of a batch; answer: version, root and count of new records, little-endian.
pub fn grants_apply(store: &mut [u8], number: u32, batch: &[u8], answer: &mut [u8; 40]) -> u32
    ensures { Applies number batch.now store.old answer.old result store.new answer.new }
{
    apply_c::applied_out(store, number, batch, answer)
}

// Frees every record retired since a version or earlier; freed: how many, little-endian.
pub fn grants_prune(store: &mut [u8], version: u32, freed: &mut [u8; 4]) -> u32
    ensures { Prunes version store.old freed.old result store.new freed.new }
{
    prune_c::pruned_out(store, version, freed)
}

// Writes the right table of slot numbers of a sound store, whatever the table holds: used slots in order of place and then version, then the capacity.
pub fn grants_index(store: &[u8], index: &mut [u32]) -> u32
    ensures { Indexes store.now index.old result index.new }
{
    number_told(index_open::built(store, index))
}

// Whether a table of slot numbers is the right one of a sound store.
pub fn grants_index_check(store: &[u8], index: &[u32]) -> u32
    ensures { TellsIndex store.now index.now result }
{
    number_told(index_open::told(store, index))
}

// Makes a fresh store of any bytes of the right length, and its table.
pub fn grants_format_indexed(store: &mut [u8], index: &mut [u32]) -> u32
    ensures { FormatsIndexed store.old index.old result store.new index.new }
{
    number_told(index_open::formatted(store, index))
}

// As grants_apply, with the store's table kept right.
pub fn grants_apply_indexed(
    store: &mut [u8],
    index: &mut [u32],
    number: u32,
    batch: &[u8],
    answer: &mut [u8; 40],
) -> u32
    ensures { AppliesIndexed number batch.now store.old index.old answer.old result store.new index.new answer.new }
{
    index_write::apply_both(store, index, number, batch, answer)
}

// As grants_prune, with the store's table kept right.
pub fn grants_prune_indexed(
    store: &mut [u8],
    index: &mut [u32],
    version: u32,
    freed: &mut [u8; 4],
) -> u32
    ensures { PrunesIndexed version store.old index.old freed.old result store.new index.new freed.new }
{
    index_write::prune_both(store, index, version, freed)
}

// The root of a version.
pub fn grants_root(store: &[u8], version: u32, root: &mut [u8; 32]) -> u64
    ensures { ReadsRoot store.now version root.old result root.new }
{
    read_c::root_out(store, version, root)
}

// A key in a version: 1 and its value, or 0 and 32 zero bytes where it is absent.
pub fn grants_get(store: &[u8], version: u32, key: &[u8], found: &mut [u8; 33]) -> u64
    ensures { ReadsKey store.now version key.now found.old result found.new }
{
    read_c::found_out(store, version, key, found)
}

// The number of grants of a version, little-endian.
pub fn grants_count(store: &[u8], version: u32, count: &mut [u8; 8]) -> u64
    ensures { Counts store.now version count.old result count.new }
{
    read_counts_c::grants_count(store, version, count)
}

// The grant at a position of a version, 0 the least key: its key and its value.
pub fn grants_at(store: &[u8], version: u32, position: u64, grant: &mut [u8; 64]) -> u64
    ensures { ReadsAt store.now version position grant.old result grant.new }
{
    read_counts_c::grants_at(store, version, position, grant)
}

// Writes the proof for a key in a version to the front of the room; length: how long it is, little-endian.
pub fn grants_prove(
    store: &[u8],
    version: u32,
    key: &[u8],
    room: &mut [u8],
    length: &mut [u8; 4],
) -> u64
    ensures { Proves store.now version key.now room.old length.old result room.new length.new }
{
    prove_c::proved_out(store, version, key, room, length)
}

// Writes the proofs for a list of keys in a version one after the other to the front of the room; length: of all together, little-endian.
pub fn grants_palette(
    store: &[u8],
    version: u32,
    keys: &[u8],
    room: &mut [u8],
    length: &mut [u8; 4],
) -> u64
    ensures { Palettes store.now version keys.now room.old length.old result room.new length.new }
{
    palette_c::palette_out(store, version, keys, room, length)
}

// The root of a version, by a table lent with the store, of as many slot numbers as its capacity.
pub fn grants_root_indexed(store: &[u8], index: &[u32], version: u32, root: &mut [u8; 32]) -> u64
    ensures { ReadsRootBy store.now (some index.now) version root.old result root.new }
{
    read_c::root_indexed(store, index, version, root)
}

// A key in a version, by a table.
pub fn grants_get_indexed(
    store: &[u8],
    index: &[u32],
    version: u32,
    key: &[u8],
    found: &mut [u8; 33],
) -> u64
    ensures { ReadsKeyBy store.now (some index.now) version key.now found.old result found.new }
{
    read_c::get_indexed(store, index, version, key, found)
}

// The number of grants of a version, by a table.
pub fn grants_count_indexed(store: &[u8], index: &[u32], version: u32, count: &mut [u8; 8]) -> u64
    ensures { CountsBy store.now (some index.now) version count.old result count.new }
{
    read_counts_c::count_indexed(store, index, version, count)
}

// The grant at a position of a version, by a table.
pub fn grants_at_indexed(
    store: &[u8],
    index: &[u32],
    version: u32,
    position: u64,
    grant: &mut [u8; 64],
) -> u64
    ensures { ReadsAtBy store.now (some index.now) version position grant.old result grant.new }
{
    read_counts_c::at_indexed(store, index, version, position, grant)
}

// Writes the proof for a key in a version, by a table.
pub fn grants_prove_indexed(
    store: &[u8],
    index: &[u32],
    version: u32,
    key: &[u8],
    room: &mut [u8],
    length: &mut [u8; 4],
) -> u64
    ensures { ProvesBy store.now (some index.now) version key.now room.old length.old result room.new length.new }
{
    prove_c::prove_indexed(store, index, version, key, room, length)
}

// Writes the proofs for a list of keys in a version, by a table.
pub fn grants_palette_indexed(
    store: &[u8],
    index: &[u32],
    version: u32,
    keys: &[u8],
    room: &mut [u8],
    length: &mut [u8; 4],
) -> u64
    ensures { PalettesBy store.now (some index.now) version keys.now room.old length.old result room.new length.new }
{
    palette_c::palette_indexed(store, index, version, keys, room, length)
}

// Writes what changed from the first version to the second to the front of the room, as records of 72 bytes; records: how many, little-endian.
pub fn grants_changes(
    store: &[u8],
    first: u32,
    second: u32,
    limit: u32,
    room: &mut [u8],
    records: &mut [u8; 4],
) -> u32
    ensures { Changes first second limit store.now room.old records.old result room.new records.new }
{
    changes_c::grants_changes(store, first, second, limit, room, records)
}

// Makes in the target, from a source of any contents, a sound store of the longest run of versions that ends at latest; answer: the run's first
// version, records kept as they were, kept with another retired-since, used slots left out, little-endian.
pub fn grants_rescue(
    source: &[u8],
    oldest: u32,
    latest: u32,
    target: &mut [u8],
    answer: &mut [u8; 16],
) -> u32
    ensures { Rescues oldest latest source.now target.old answer.old result target.new answer.new }
{
    rescue_c::grants_rescue(source, oldest, latest, target, answer)
}

// Writes for each version from first to last its leaves, its inner nodes, its longest path and the sum of its path lengths to the front of the room, 4 bytes each; totals: distinct
// records, and the sum of records over versions, little-endian.
pub fn grants_figures(
    store: &[u8],
    first: u32,
    last: u32,
    room: &mut [u8],
    totals: &mut [u8; 8],
) -> u32
    ensures { Figures first last store.now room.old totals.old result room.new totals.new }
{
    figures::grants_figures(store, first, last, room, totals)
}

// Writes the proof for a key in a version as grants_prove does, if no leaf that it shows has more than 32 steps.
pub fn grants_pocket_prove(
    store: &[u8],
    version: u32,
    key: &[u8],
    room: &mut [u8],
    length: &mut [u8; 4],
) -> u64
    ensures { PocketProves store.now version key.now room.old length.old result room.new length.new }
{
    pocket_prove::grants_pocket_prove(store, version, key, room, length)
}

// What is found of a proof for a key in a version that is accepted against the version's root: 0 where it tells the truth; else 1 and two different
// messages of 65 bytes with equal SHA-256, or 2 and one whose SHA-256 is zero; zero bytes where there is none.
pub fn grants_finding(
    store: &[u8],
    version: u32,
    key: &[u8],
    proof: &[u8],
    finding: &mut [u8; 131],
) -> u32
    ensures { Finds store.now version key.now proof.now finding.old result finding.new }
{
    finding_c::grants_finding(store, version, key, proof, finding)
}

// Makes in the target the store of a source of the old form, in the new form with the same capacity, slots kept.
pub fn grants_over(source: &[u8], target: &mut [u8]) -> u32
    ensures { MovesOver source.now target.old result target.new }
{
    move_over::over(source, target)
}

// And back: the store of a source of the new form in the old one.
pub fn grants_back(source: &[u8], target: &mut [u8]) -> u32
    ensures { MovesBack source.now target.old result target.new }
{
    move_back::back(source, target)
}

// What a proof shows of a key against a root: 1 and the value, or 0 and 32 zero bytes for 'absent'.
pub fn grants_verify(root: &[u8], key: &[u8], proof: &[u8], found: &mut [u8; 33]) -> u32
    ensures { Verifies root.now key.now proof.now found.old result found.new }
{
    verify_c::verified_out(root, key, proof, found)
}

// What each proof of a row shows of its key against one root: 34 bytes for each key, the number that the single check would answer and what it
// would leave in 33 bytes of zeros.
pub fn grants_verify_many(root: &[u8], keys: &[u8], proofs: &[u8], answers: &mut [u8]) -> u32
    ensures { VerifiesMany root.now keys.now proofs.now answers.old result answers.new }
{
    verify_many::grants_verify_many(root, keys, proofs, answers)
}

// The same for a proof of which no leaf shown has more than 32 steps.
pub fn grants_pocket_verify(root: &[u8], key: &[u8], proof: &[u8], found: &mut [u8; 33]) -> u32
    ensures { PocketVerifies root.now key.now proof.now found.old result found.new }
{
    pocket_verify::grants_pocket_verify(root, key, proof, found)
}

// The version of the library: major, minor and patch in a byte each from the high end.
pub fn grants_version() -> u32
    ensures { TellsVersion result }
{
    65536
}

// What a proof shows of a key of a shelf against its list's root: the list's record for the key's part, then the part's record for the key.
pub fn grants_shelf_verify(
    root: &[u8],
    bits: u32,
    key: &[u8],
    proof: &[u8],
    found: &mut [u8; 33],
) -> u32
    ensures { ShelfVerifies root.now bits key.now proof.now found.old result found.new }
{
    shelf_verify::grants_shelf_verify(root, bits, key, proof, found)
}

// Writes our record as an ICS 23 message to the front of the room, with the raw key asked for and raw key and value of the leaf shown or the left of two, and of
// the right of two; a leaf not shown is lent without bytes. length: the message's, little-endian.
pub fn grants_ics23_write(
    proof: &[u8],
    asked: &[u8],
    key1: &[u8],
    value1: &[u8],
    key2: &[u8],
    value2: &[u8],
    room: &mut [u8],
    length: &mut [u8; 4],
) -> u32
    ensures { WritesMessage proof.now asked.now (key1.now ∷ value1.now ∷ key2.now ∷ value2.now ∷ []) room.old length.old result room.new length.new }
{
    message_c::written_out(proof, asked, key1, value1, key2, value2, room, length)
}

// Reads an ICS 23 message into our record at the front of the room. answer: the record's length, then where in the message asked, key1, value1, key2, value2 stand:
// offset and length, 4 bytes little-endian each, zero where there is none.
pub fn grants_ics23_read(message: &[u8], room: &mut [u8], answer: &mut [u8; 44]) -> u32
    ensures { ReadsMessage message.now room.old answer.old result room.new answer.new }
{
    message_c::read_out(message, room, answer)
}

// SHA-256 of the bytes; never refused.
pub fn grants_sha256(bytes: &[u8], digest: &mut [u8; 32]) -> u32
    ensures { Hashes bytes.now result digest.new }
{
    sha256_c::grants_sha256(bytes, digest)
}
