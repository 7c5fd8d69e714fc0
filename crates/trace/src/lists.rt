// The values of a list, as the last words of a line tell them.
ghost use Rattle.std.specs.Prelude.{◌≡◌};
ghost use Rattle.trace.specs.Words.{words};
ghost use Rattle.trace.specs.Lists.{count_of, ListIs};

use crate::words::Line;
use crate::{MAX32, numbers};

// A list has at most this many values.
const ROOM: usize = 1024;

// Stores the numbers that the words are. Answers how many there are, where each has 32 bits and there is room for all.
pub(crate) fn fill(line: Line, values: &mut [u32; 1024]) -> Option<usize>
    ensures value { result ≡ count_of (words line.entry.left.now) }
    ensures list_is { ListIs (words line.entry.left.now) result values.new }
{
    *values = [0; 1024];
    // Kept: the count is the answer too, and `enumerate` leaves none behind the loop.
    let mut count = 0;
    for word in line {
        let value = numbers::up_to(MAX32, word)?;
        if count == ROOM {
            return None;
        }
        values[count] = value as u32;
        count += 1;
    }
    Some(count)
}
