// Sets of vectors 0 to 255 by value: eight words of 32 bits, the lowest vectors first. Here stand the definitions and laws, and what is done with one vector;
// `vector_set_algebra` has whole sets, `vector_set_search` what a set holds.
#![tactic(auto)]

ghost use Rattle.std.specs.Prelude.{◌≡◌, ◌/◌, ◌%◌, ◌^◌};
ghost use Rattle.vector_set.specs.Sets.{has, empty, insert, remove, is_vector};

// The lowest vector that a notice, an IPI or the page may name (4.13, 7.9).
pub const LOWEST: u8 = 31;

pub fn no_vectors() -> [u32; 8]
    ensures { result ≡ empty }
{
    [0; 8]
}

// The word of a set that has v.
pub fn word_of(v: u8) -> usize
    ensures { result ≡ v / 32 }
{
    usize::from(v / 32)
}

// The bit of v in its word.
pub fn bit_of(v: u8) -> u32
    ensures { result ≡ 2 ^ (v % 32) }
{
    1 << (v % 32)
}

pub fn contains(s: [u32; 8], v: u8) -> bool
    ensures { result ≡ has s v }
{
    s[word_of(v)] & bit_of(v) != 0
}

pub fn insert(mut s: [u32; 8], v: u8) -> [u32; 8]
    ensures { result ≡ insert v s }
{
    s[word_of(v)] |= bit_of(v);
    s
}

pub fn remove(mut s: [u32; 8], v: u8) -> [u32; 8]
    ensures { result ≡ remove v s }
{
    s[word_of(v)] &= !bit_of(v);
    s
}

// A vector that may be sent or admitted: LOWEST to 255 (4.13, 7.9).
pub fn is_vector(v: u64) -> bool
    ensures { result ≡ is_vector v }
{
    (u64::from(LOWEST)..=255).contains(&v)
}
