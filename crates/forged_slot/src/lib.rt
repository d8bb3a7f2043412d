// The message of a record, request 2026-12, and whether a slot's record is in a version's tree.
#![tactic(auto)]

ghost use Rattle.std.specs.Prelude.{◌≡◌, length};
ghost use Rattle.layout.specs.Sizes.{slot_size};
ghost use Rattle.layout.specs.Slots.{slot_of};
ghost use Rattle.layout.specs.Stores.{slot_in, Has};
ghost use Rattle.forged_message.specs.Parts.{message_bytes};
ghost use Rattle.forged_slot.specs.Slot.{stands_here, message_in};

use forged_message::Message;
use hash::hash_at;
use lifetime::covers;
use lookup::holds_record;
use slots::{child_hash, key_of, value_of};
use slots_form::is_leaf;
use store::{retired_at, slot_of, version_at};
use terms::Form;

// The message of a record, from what it holds.
pub fn record_message(slot: &[u8]) -> Message
    requires { length slot.now ≡ slot_size Form.Counted }
    ensures { message_bytes result ≡ message_in slot.now }
{
    if is_leaf(slot) {
        let first = hash_at(key_of(slot), 0);
        let second = hash_at(value_of(slot), 0);
        return Message {
            leaf: true,
            first,
            second,
        };
    }
    let first = hash_at(child_hash(slot, false), 0);
    let second = hash_at(child_hash(slot, true), 0);
    Message {
        leaf: false,
        first,
        second,
    }
}

// Whether slot i holds a record that is in a version's tree.
pub fn stands_in(store: &[u8], i: usize, version: u32) -> bool
    requires { Has Form.Counted store.now i }
    ensures { result ≡ stands_here version (slot_of (slot_in Form.Counted i store.now)) }
{
    if !covers(
        version_at(Form::Counted, store, i),
        retired_at(Form::Counted, store, i),
        version,
    ) {
        return false;
    }
    holds_record(slot_of(Form::Counted, store, i))
}
