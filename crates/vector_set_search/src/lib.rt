// What a set of vectors holds: its highest member, in all words or in those that a byte marks, how many there are, whether there is none, and its summary.
#![tactic(auto)]

ghost use Rattle.std.specs.Prelude.{◌≡◌, cond, not, ◌+◌, ◌*◌, ◌^◌, ◌<◌, eqb};
ghost use Rattle.std.specs.Int.Count.{ones};
ghost use Rattle.vector_set.specs.Bits.{one, bit_at, bits};
ghost use Rattle.vector_set.specs.Sets.{highest, count, is_empty};
ghost use Rattle.vector_set.specs.Summaries.{summary_of, in_marked};
ghost use Rattle.vector_set_search.specs.Search.{words_read};
ghost use Rattle.vector_set_search.specs.Marked.{marked_read};

// A set's highest member, and how many of its words were read to find it.
#[derive(Clone, Copy)]
pub struct SearchResult {
    pub found: Option<u8>,
    pub words_read: u32,
}

// Word by word, the highest first, up to the first that has a member (2.17).
pub fn highest_of(s: [u32; 8]) -> SearchResult
    ensures { (result.found ≡ highest s) × (result.words_read ≡ words_read s) }
{
    for k in (0..8u32).rev() {
        if let Some(bit) = s[k as usize].checked_ilog2() {
            return SearchResult {
                found: Some((32 * k + bit) as u8),
                words_read: 8 - k,
            };
        }
    }
    SearchResult {
        found: None,
        words_read: 8,
    }
}

// The same in the words that a byte marks, bit k for word k: the others are not read (2.20).
pub fn highest_marked(s: [u32; 8], marks: u8) -> SearchResult
    ensures { (result.found ≡ highest (in_marked marks s)) × (result.words_read ≡ marked_read marks s) }
{
    let mut left = u32::from(marks);
    let mut number = 0;
    // Kept: no index is counted, the marks that are left say which word is next. `while let` with `checked_ilog2` takes two instructions more for each word.
    while left != 0 {
        let top = left.ilog2();
        number += 1;
        if let Some(bit) = s[top as usize].checked_ilog2() {
            return SearchResult {
                found: Some((32 * top + bit) as u8),
                words_read: number,
            };
        }
        left -= 1 << top;
    }
    SearchResult {
        found: None,
        words_read: number,
    }
}

// Kept: k < 8 as a clause, here, in `with_word` and in `apic::word_at`: a type for it would be opened in each of them, to index by it.
// The mark of word k: bit k of a byte, where the word has a member (2.19).
fn mark_of(word: u32, k: usize) -> u8
    requires { k < 8 }
    ensures { result ≡ one (not (eqb word 0)) * 2 ^ k }
{
    u8::from(word != 0) << k
}

// The byte whose bit k says that word k has a member (2.19).
pub fn summary_of(s: [u32; 8]) -> u8
    ensures { result ≡ summary_of s }
{
    let mut marks = 0;
    for (k, word) in s.iter().enumerate() {
        marks |= mark_of(*word, k);
    }
    marks
}

// A summary with bit k made anew, for what word k now holds (2.21).
pub fn with_word(summary: u8, k: usize, word: u32) -> u8
    requires { k < 8 }
    ensures { result ≡ bits (λ j. cond (eqb j k) (not (eqb word 0)) (bit_at summary j)) 0 8 }
{
    (summary & !(1 << k)) | mark_of(word, k)
}

// The members in two words that stand side by side: one population count for both, since a machine without one takes a dozen instructions for it.
fn count_pair(low: u32, high: u32) -> u32
    ensures { result ≡ ones low + ones high }
{
    (u64::from(high) << 32 | u64::from(low)).count_ones()
}

pub fn count_of(s: [u32; 8]) -> u32
    ensures { result ≡ count s }
{
    let mut members = 0;
    for pair in 0..4usize {
        members += count_pair(s[2 * pair], s[2 * pair + 1]);
    }
    members
}

pub fn is_empty(s: [u32; 8]) -> bool
    ensures { result ≡ is_empty s }
{
    highest_of(s).found.is_none()
}
