// Keys and places: the bits of a key, the order of keys, and places as values that grow by one bit at a time.
#![tactic(auto)]

ghost use Rattle.std.specs.Prelude.{◌≡◌, true, false, [], ◌*◌, ◌≤◌, ◌<◌, length, take, drop};
ghost use Rattle.terms.specs.Bits.{bits, bit, begins, before, same_bytes, none_set};
ghost use Rattle.place.specs.Place.{place_of, Proper, Stands, Grown};

// The first `count` bits of `bits`, in key order; the bits after them are zero.
#[derive(Clone, Copy)]
pub struct Place {
    pub bits: [u8; 32],
    pub count: usize,
}

impl Place {
    // The empty place, where the root stands.
    pub fn top() -> Place
        ensures { Stands [] 0 result }
    {
        Place {
            bits: [0u8; 32],
            count: 0,
        }
    }

    pub fn left(self) -> Place
        requires { Proper self × (self.count < 256) }
        ensures { Grown false self result }
    {
        let mut next = self;
        next.count = next.count + 1;
        next
    }

    pub fn right(self) -> Place
        requires { Proper self × (self.count < 256) }
        ensures { Grown true self result }
    {
        let mut next = self;
        let n = next.count;
        let at = n / 8;
        next.bits[at] = next.bits[at] | 128 >> n % 8;
        next.count = n + 1;
        next
    }
}

// The place one bit longer, on the left or the right.
pub fn child_place(place: Place, right: bool) -> Place
    requires { Proper place × (place.count < 256) }
    ensures { Grown right place result }
{
    if right {
        return place.right();
    }
    place.left()
}

// Bit i of a key: bit 0 is the top bit of byte 0.
pub fn key_bit(key: &[u8], i: usize) -> bool
    requires { i < 8 * length key.now }
    ensures { result ≡ bit i key.now }
{
    (key[i / 8] >> 7 - i % 8) % 2 == 1
}

// The place of the first bits of a key.
pub fn front(key: &[u8], count: usize) -> Place
    requires { (length key.now ≡ 32) × (count ≤ 256) }
    ensures { Stands (take count (bits key.now)) count result }
{
    let mut place = Place::top();
    for i in 0..count {
        place = child_place(place, key_bit(key, i));
    }
    place
}

// Whether a key begins with a place: its whole bytes first, then the bits in the last byte.
pub fn begins(key: &[u8], p: Place) -> bool
    requires { (length key.now ≡ 32) × Proper p }
    ensures { result ≡ begins (place_of p) key.now }
{
    let whole = p.count / 8;
    let over = p.count % 8;
    if key[..whole] != p.bits[..whole] {
        return false;
    }
    if over == 0 {
        return true;
    }
    let unused = 8 - over;
    key[whole] >> unused == p.bits[whole] >> unused
}

// Whether x comes before y in the order of byte strings.
pub fn before(x: &[u8], y: &[u8]) -> bool
    ensures { result ≡ before x.now y.now }
{
    // Keys mostly differ in their first bytes, and there `x < y` takes longer: with it reads by a table took 1.7 times as long.
    for i in 0..y.len() {
        if x.len() <= i {
            return true;
        }
        if x[i] != y[i] {
            return x[i] < y[i];
        }
    }
    false
}

// Whether two byte strings are the same.
pub fn same(x: &[u8], y: &[u8]) -> bool
    ensures { result ≡ same_bytes x.now y.now }
{
    x == y
}

// Whether the bits from `count` on are zero.
pub fn unused_zero(b: &[u8], count: usize) -> bool
    ensures { result ≡ none_set (drop count (bits b.now)) }
{
    let whole = count / 8;
    if b.len() <= whole {
        return true;
    }
    if b[whole] << count % 8 != 0 {
        return false;
    }
    b[whole + 1..].iter().all(|x| *x == 0)
}

// The place of the first `count` bits of 32 bytes.
pub fn place_at(b: &[u8], count: usize) -> Place
    requires { (length b.now ≡ 32) × (count ≤ 256) × (none_set (drop count (bits b.now)) ≡ true) }
    ensures { Stands (take count (bits b.now)) count result }
{
    let mut bits = [0u8; 32];
    bits.copy_from_slice(b);
    Place { bits, count }
}
