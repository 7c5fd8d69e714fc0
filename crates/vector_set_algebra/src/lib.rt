// Sets of vectors, word by word: union, difference, intersection, and the members from the lowest vector on.
#![tactic(auto)]

ghost use Rattle.std.specs.Prelude.{◌≡◌, ℕ, ◌<◌, get_or, length};
ghost use Rattle.vector_set.specs.Sets.{union, difference, intersection, from};

// What f makes of each pair of words.
fn by_words<F: Fn(u32, u32) -> u32>(a: [u32; 8], b: [u32; 8], f: F) -> [u32; 8]
    requires { F.IsAlwaysCallable f }
    ensures { (k : ℕ) → k < 8 → F.post f (get_or a k 0) (get_or b k 0) (get_or result k 0) }
{
    std::array::from_fn(|k| f(a[k], b[k]))
}

pub fn union(a: [u32; 8], b: [u32; 8]) -> [u32; 8]
    ensures { result ≡ union a b }
{
    by_words(a, b, |x, y| x | y)
}

pub fn difference(a: [u32; 8], b: [u32; 8]) -> [u32; 8]
    ensures { result ≡ difference a b }
{
    by_words(a, b, |x, y| x & !y)
}

pub fn intersection(a: [u32; 8], b: [u32; 8]) -> [u32; 8]
    ensures { result ≡ intersection a b }
{
    by_words(a, b, |x, y| x & y)
}

// The members that are vectors to send or admit: of the first word `vector_set::LOWEST` alone, its highest bit.
pub fn from_lowest(s: [u32; 8]) -> [u32; 8]
    ensures { result ≡ from 31 s }
{
    // With `s[0] &= 0x8000_0000` on the parameter it takes twice as many instructions.
    [s[0] & 0x8000_0000, s[1], s[2], s[3], s[4], s[5], s[6], s[7]]
}
