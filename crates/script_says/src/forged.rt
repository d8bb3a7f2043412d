// What is found of a proof in words.
use crate::calls::accepted;
use hash::Hash;
use script::say;

// Where the proof tells the truth, all 131 bytes are zero.
pub fn say_finding(finding: &[u8; 131]) {
    say::choice(
        finding.iter().all(|b| *b == 0),
        b"0, the proof tells the truth\n",
        b"A FINDING\n",
    );
}

pub fn say_all(no: u32, before: Hash, finding: &[u8; 131]) {
    if accepted(no, before, finding) {
        say_finding(finding);
    }
}
