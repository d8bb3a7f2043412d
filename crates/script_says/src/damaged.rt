// The report of a rescue in words.
use fields::get_u32;
use script::say;

// The run's first version and the three numbers.
pub fn say_report(answer: &[u8; 16]) {
    say::text(b"first version ");
    say::count(get_u32(answer, 0) as usize);
    say::text(b", as they were ");
    say::count(get_u32(answer, 4) as usize);
    say::text(b", with another retired since ");
    say::count(get_u32(answer, 8) as usize);
    say::text(b", left out ");
    say::count(get_u32(answer, 12) as usize);
    say::text(b"\n");
}
