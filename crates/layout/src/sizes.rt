// The sizes, kinds and offsets of header and slot: specs/Sizes.antt for the code.
pub const HEADER_SIZE: usize = 24;

pub const HEADER_LENGTH: u32 = 24;

pub const PLAIN_HEADER_KIND: u16 = 1;

pub const COUNTED_HEADER_KIND: u16 = 4;

pub const MOST_SLOTS: usize = 16384;

pub const GAP_AT: usize = 6;

pub const CAPACITY_AT: usize = 8;

pub const OLDEST_AT: usize = 12;

pub const LATEST_AT: usize = 16;

pub const HEADER_TAIL_AT: usize = 20;

pub const PLAIN_SIZE: usize = 120;

pub const COUNTED_SIZE: usize = 128;

pub const LEAF_LENGTH: u32 = 112;

pub const LEAF_KIND: u16 = 2;

pub const LEAF_BITS: u16 = 256;

pub const PLAIN_INNER_KIND: u16 = 3;

pub const COUNTED_INNER_KIND: u16 = 5;

pub const INNER_BITS: u16 = 255;

pub const KIND_AT: usize = 4;

pub const COUNT_AT: usize = 6;

pub const BITS_AT: usize = 8;

pub const VERSION_AT: usize = 40;

pub const RETIRED_AT: usize = 44;

pub const KEY_AT: usize = 48;

pub const VALUE_AT: usize = 80;

pub const TAIL_AT: usize = 112;

pub const LEFT_AT: usize = 48;

pub const LEFT_HASH_AT: usize = 52;

pub const RIGHT_AT: usize = 84;

pub const RIGHT_HASH_AT: usize = 88;

pub const LEFT_COUNT_AT: usize = 120;

pub const RIGHT_COUNT_AT: usize = 124;
