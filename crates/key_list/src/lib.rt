// A list of keys in lent bytes, one after the other (2026-04).
#![tactic(auto)]

ghost use Rattle.std.specs.Prelude.{◌≡◌};
ghost use Rattle.palette_rules.specs.Palette.{whole_keys};

// A key is 32 bytes; a list has at most 256.
pub const KEY_SIZE: usize = 32;

const MOST_KEYS: usize = 256;

// Whether a list is 0 to 256 whole keys.
pub fn whole_keys(keys: &[u8]) -> bool
    ensures { result ≡ whole_keys keys.now }
{
    if keys.len() % KEY_SIZE != 0 {
        return false;
    }
    keys.len() / KEY_SIZE <= MOST_KEYS
}
