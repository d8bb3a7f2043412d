// Why a call refuses: each reason once, with the number that a caller in another language gets for it. 0 is acceptance.
#![tactic(auto)]

ghost use Rattle.std.specs.Prelude.{◌≡◌};
ghost use Rattle.refusal_numbers.specs.Refusals.{number, number_told, code};
ghost use Rattle.refusal_numbers.specs.declared.ReadRefusal.TheVariants.{Plain};

// A reason to refuse a call.
#[derive(Clone, Copy, Debug, PartialEq, Eq)]
pub enum Refusal {
    // 1: the store's length isn't 24 + 128n, n in 1 to 16,384.
    WrongSize,
    // 2: a header field isn't as it should be, its capacity isn't n, or oldest is above latest.
    WrongHeader,
    // 3: not sound (check, apply, prune and what else asks for full soundness), or the walk says so (reads).
    NotSound,
    // 4: the batch isn't whole records in form, or has over 1,024.
    BadBatch,
    // 5: keys not strictly ascending.
    BadOrder,
    // 7: fewer free slots than new records.
    FewSlots,
    // 8: the version isn't in oldest to latest.
    NotKept,
    // 9: what is to be written is longer than the buffer.
    NoRoom,
    // 10: the proof isn't one whole record in form, no byte over.
    NotInForm,
    // 11: in form, but doesn't hold.
    NotHolding,
    // 12: a key or root handed in isn't 32 bytes.
    Not32Bytes,
    // 13: more visits than the limit.
    TooManyVisits,
    // 14: proving in an empty version: there is no neighbour to show.
    EmptyVersion,
    // 15: a raw key or value has another length, or doesn't hash to what the proof holds.
    NotRaw,
    // 16: the table of slot numbers isn't right.
    WrongIndex,
    // 17: no slot matches a present child.
    Lost,
    // 18: the number is not above latest.
    NotAbove,
    // 19: a leaf is shown with more than 32 steps, outside the pocket profile.
    OutsidePocket,
    // 20: the position isn't below the number of grants.
    PastNumber,
    // 21: a shelf has at most 12 bits.
    TooManyBits,
}

impl Refusal {
    // Its number.
    pub fn number(self) -> u32
        ensures { result ≡ number self }
    {
        match self {
            Refusal::WrongSize => 1,
            Refusal::WrongHeader => 2,
            Refusal::NotSound => 3,
            Refusal::BadBatch => 4,
            Refusal::BadOrder => 5,
            Refusal::FewSlots => 7,
            Refusal::NotKept => 8,
            Refusal::NoRoom => 9,
            Refusal::NotInForm => 10,
            Refusal::NotHolding => 11,
            Refusal::Not32Bytes => 12,
            Refusal::TooManyVisits => 13,
            Refusal::EmptyVersion => 14,
            Refusal::NotRaw => 15,
            Refusal::WrongIndex => 16,
            Refusal::Lost => 17,
            Refusal::NotAbove => 18,
            Refusal::OutsidePocket => 19,
            Refusal::PastNumber => 20,
            Refusal::TooManyBits => 21,
        }
    }
}

// What a caller in another language is told: 0, or the number of the reason.
pub fn number_told(answer: Result<(), Refusal>) -> u32
    ensures { result ≡ number_told answer }
{
    match answer {
        Ok(()) => 0,
        Err(refusal) => refusal.number(),
    }
}

// Why a read refuses: for a reason that any call may have, or since the record in a slot is spoilt.
#[derive(Clone, Copy, Debug, PartialEq, Eq)]
pub enum ReadRefusal {
    Plain(Refusal),
    // The number of the slot.
    Spoilt(u16),
}

impl ReadRefusal {
    // Its number in the low half; 3 with the slot + 1 in the high half where a record is spoilt.
    pub fn code(self) -> u64
        ensures { result ≡ code self }
    {
        match self {
            ReadRefusal::Plain(refusal) => u64::from(refusal.number()),
            ReadRefusal::Spoilt(slot) => 3 + 4_294_967_296 * (u64::from(slot) + 1),
        }
    }
}

impl From<Refusal> for ReadRefusal {
    ghost from_gives = { λ r e. e ≡ Plain r };

    fn from(refusal: Refusal) -> ReadRefusal {
        ReadRefusal::Plain(refusal)
    }
}
