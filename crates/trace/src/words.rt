// The words of a line: what stands between spaces.
ghost use Rattle.std.specs.Prelude.{◌≡◌, ◌≤◌, ◌==◌, not, position, IfSome, option_map};
ghost use Rattle.std.specs.Iterator.{YieldsFirstRef, item_count};
ghost use Rattle.trace.specs.Numbers.{max32};
ghost use Rattle.trace.specs.Words.{words, first, rest};
ghost use Rattle.trace.specs.Lines.{max_flag, is_one};

use crate::{MAX_FLAG, MAX32, numbers, scan};

// The first place that holds no space.
fn past_spaces(text: &[u8]) -> Option<usize>
    ensures { result ≡ position (λ x. not (x == 32)) text.now }
{
    text.iter().position(|b| *b != b' ')
}

// The words of a line that were not taken yet.
#[derive(Drop)]
pub(crate) struct Line<'a> {
    pub(crate) left: &'a [u8],
}

impl<'a> Iterator for Line<'a> {
    type Item = &'a [u8];

    ghost next_gives = { YieldsFirstRef (λ s. words s.left.now) };

    ghost remaining = { item_count (λ s. words s.left.now) };

    fn next(&mut self) -> Option<&'a [u8]> {
        let from = past_spaces(self.left)?;
        let text = &self.left[from..];
        let to = scan::find(text, 0, text.len(), b' ');
        self.left = &text[to..];
        Some(&text[..to])
    }
}

impl<'a> Line<'a> {
    // The next word as a number of at most `most`.
    #[tactic(auto, unfolding(crate::specs::Words::first, crate::specs::Words::rest))]
    pub(crate) fn number(&mut self, most: u64) -> Option<u64>
        ensures value { result ≡ first most (words self.old.left.now) }
        ensures others { words self.new.left.now ≡ rest (words self.old.left.now) }
        ensures upper_bound { IfSome result (λ v. v ≤ most) }
    {
        numbers::up_to(most, self.next()?)
    }

    // The next word as a number of 32 bits.
    pub(crate) fn number32(&mut self) -> Option<u32>
        ensures value { result ≡ first max32 (words self.old.left.now) }
        ensures others { words self.new.left.now ≡ rest (words self.old.left.now) }
    {
        Some(self.number(MAX32)? as u32)
    }

    // The next word as a flag, 0 or 1.
    pub(crate) fn flag(&mut self) -> Option<bool>
        ensures value { result ≡ option_map is_one (first max_flag (words self.old.left.now)) }
        ensures others { words self.new.left.now ≡ rest (words self.old.left.now) }
    {
        Some(self.number(MAX_FLAG)? == 1)
    }
}
