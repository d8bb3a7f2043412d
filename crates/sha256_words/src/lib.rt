// The words of SHA-256: sums, rotations and the six functions of FIPS 180-4, 4.1.2.
#![tactic(auto)]

ghost use Rattle.std.specs.Prelude.{◌≡◌, ◌<◌};
ghost use Rattle.sha256_words.specs.Words.{◌⊞◌, ROTR, Ch, Maj, Σ₀, Σ₁, σ₀, σ₁};

pub fn add(x: u32, y: u32) -> u32
    ensures { result ≡ x ⊞ y }
{
    ((x as u64 + y as u64) % 0x1_0000_0000) as u32
}

fn rotr(n: u32, x: u32) -> u32
    requires { (0 < n) × (n < 32) }
    ensures { result ≡ ROTR n x }
{
    (x >> n) | (x << (32 - n))
}

pub fn ch(x: u32, y: u32, z: u32) -> u32
    ensures { result ≡ Ch x y z }
{
    (x & y) ^ (!x & z)
}

// By differences: of three words in a row, the first two's difference is the next round's second.
pub fn maj(x: u32, y: u32, z: u32) -> u32
    ensures { result ≡ Maj x y z }
{
    y ^ ((x ^ y) & (y ^ z))
}

pub fn big_sigma0(x: u32) -> u32
    ensures { result ≡ Σ₀ x }
{
    rotr(2, x) ^ rotr(13, x) ^ rotr(22, x)
}

pub fn big_sigma1(x: u32) -> u32
    ensures { result ≡ Σ₁ x }
{
    rotr(6, x) ^ rotr(11, x) ^ rotr(25, x)
}

pub fn sigma0(x: u32) -> u32
    ensures { result ≡ σ₀ x }
{
    rotr(7, x) ^ rotr(18, x) ^ (x >> 3)
}

pub fn sigma1(x: u32) -> u32
    ensures { result ≡ σ₁ x }
{
    rotr(17, x) ^ rotr(19, x) ^ (x >> 10)
}
