// What apply answers, as it goes out: a number, and version, root and count in 40 bytes.
#![tactic(auto)]

ghost use Rattle.std.specs.Prelude.{◌≡◌, length};
ghost use Rattle.hash.specs.Hash.{hash_bytes};
ghost use Rattle.contracts.specs.Apply.{answer_bytes};
ghost use Rattle.apply_answer.specs.Answers.{applied_says};
ghost use Rattle.apply_put.specs.Sent.{Sent};

use apply_answer::Applied;
use fields::put_u32;
use hash::{Hash, put_hash};
use refusal_numbers::Refusal;

// Version, root and count fill 40 bytes.
pub fn put_answer(answer: &mut [u8], version: u32, root: Hash, count: u32)
    requires { length answer.old ≡ 40 }
    ensures { answer.new ≡ answer_bytes version (hash_bytes root) count }
{
    put_u32(answer, 0, version);
    put_hash(&mut answer[4..36], root);
    put_u32(answer, 36, count);
}

// 0 where a version was made, which goes out in 40 bytes, else the number of refusal.
pub fn send(applied: Result<Applied, Refusal>, answer: &mut [u8; 40]) -> u32
    ensures { Sent (applied_says applied) answer.old result answer.new }
{
    match applied {
        Err(refusal) => refusal.number(),
        Ok(
            Applied {
                version,
                root,
                count,
            },
        ) => {
            put_answer(answer, version, root, count);
            0
        }
    }
}
