// The bytes of a page, as the last words of a line tell them.
ghost use Rattle.std.specs.Prelude.{◌≡◌, ◌≤◌, ◌<◌, IfSome, MatchOption, Some, None};
ghost use Rattle.trace.specs.Words.{words};
ghost use Rattle.trace.specs.Pages.{zeros, cell_of};
ghost use Rattle.trace.specs.Pages.{fill as Pages·fill};

use crate::words::Line;
use crate::{numbers, scan};

// One byte of a page.
#[derive(Drop)]
struct Cell {
    offset: usize,
    value: u8,
}

// `OFFSET=BYTE` of a page of that length.
#[tactic(auto, unfolding(crate::specs::Pages::cell_of, crate::specs::Pages::cell))]
fn cell_of(word: &[u8], long: usize) -> Option<Cell>
    ensures value { result ≡ cell_of long word.now }
    ensures in_page { IfSome result (λ c. c.offset < long) }
{
    let equals = scan::place_of(word, b'=')?;
    let offset = numbers::number_of(&word[..equals])?;
    let value = numbers::number_of(&word[equals + 1..])?;
    if offset < long as u64 && value <= 255 {
        Some(Cell {
            offset: offset as usize,
            value: value as u8,
        })
    } else {
        None
    }
}

// Stores the bytes that the words tell. Answers whether each word is a byte of the page.
pub(crate) fn fill(line: Line, long: usize, page: &mut [u8; 4096]) -> Option<()>
    requires { long ≤ 4096 }
    ensures { MatchOption result (Pages·fill long (words line.entry.left.now) zeros ≡ None)
        (λ _. Pages·fill long (words line.entry.left.now) zeros ≡ Some page.new) }
{
    *page = [0; 4096];
    for word in line {
        let Cell { offset, value } = cell_of(word, long)?;
        page[offset] = value;
    }
    Some(())
}
