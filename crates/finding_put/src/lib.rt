// What is found of a proof in 131 bytes, document 02, request 2026-12: 1 and two messages of 65 bytes, or 2 and one.
#![tactic(auto)]

ghost use Rattle.std.specs.Prelude.{◌≡◌, cond, length, ◌∷◌, ◌++◌};
ghost use Rattle.terms.specs.Fields.{zero_bytes};
ghost use Rattle.forgery.specs.Finding.{two_equal};
ghost use Rattle.forged_message.specs.Parts.{message_bytes};
ghost use Rattle.finding_rules.specs.Call.{finding_bytes};

use fields::clear;
use forged_message::Message;
use hash::put_hash;

// A message's first byte: 1 of a leaf, 0 of an inner node.
fn first_byte(m: Message) -> u8
    ensures { result ≡ cond m.leaf 1 0 }
{
    if m.leaf {
        return 1;
    }
    0
}

// Writes the 65 bytes of a message.
fn put_message(part: &mut [u8], m: Message)
    requires { length part.old ≡ 65 }
    ensures { part.new ≡ message_bytes m }
{
    part[0] = first_byte(m);
    put_hash(&mut part[1..33], m.first);
    put_hash(&mut part[33..65], m.second);
}

// Writes 1 and two messages.
pub fn put_two(answer: &mut [u8], node: Message, checked: Message)
    requires { length answer.old ≡ 131 }
    ensures { answer.new ≡ finding_bytes (two_equal (message_bytes node) (message_bytes checked)) }
{
    answer[0] = 1;
    put_message(&mut answer[1..66], node);
    put_message(&mut answer[66..131], checked);
}

// Writes a kind and one message.
pub fn put_one(answer: &mut [u8], kind: u8, m: Message)
    requires { length answer.old ≡ 131 }
    ensures { answer.new ≡ kind ∷ (message_bytes m ++ zero_bytes 65) }
{
    answer[0] = kind;
    put_message(&mut answer[1..66], m);
    clear(&mut answer[66..131]);
}
