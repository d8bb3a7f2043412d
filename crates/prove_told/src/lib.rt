// What a call that writes proofs answers, told to a caller in another language: their length in four bytes and 0, or the number of refusal.
// Refused, nothing is written.
#![tactic(auto)]

ghost use Rattle.terms.specs.Fields.{le};
ghost use Rattle.meaning.specs.Answers.{Exported};
ghost use Rattle.refusal_numbers.specs.Refusals.{read_answer_of};

use fields::put_u32;
use refusal_numbers::ReadRefusal;

pub fn told(proved: Result<u32, ReadRefusal>, length: &mut [u8; 4]) -> u64
    ensures { Exported (read_answer_of (λ n. n) proved) (λ n. le 4 n) length.old result length.new }
{
    match proved {
        Err(refusal) => refusal.code(),
        Ok(n) => {
            put_u32(length, 0, n);
            0
        }
    }
}
