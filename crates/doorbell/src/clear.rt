// What a notice clears of a descriptor.
ghost use Rattle.std.specs.Prelude.{◌≡◌, ◌||◌, leb, eqb, length};
ghost use Rattle.model.specs.Doorbell.{bit_of, many_bit, clears_bit};
ghost use Rattle.doorbell.specs.Clear.{clearing};

use crate::{KEPT_FLAGS, KEPT_MARKS};
use descriptor::{DESCRIPTOR_BYTES, MANY};

// Clears bits 0 to 10 and 14 (4.31).
fn clear_request(d: &mut [u8; DESCRIPTOR_BYTES])
    ensures { d.new ≡ clearing (λ k. leb k 10 || eqb k many_bit) d.old }
{
    d[1] &= KEPT_FLAGS;
    d[0] = 0;
}

// Clears the marks of the vectors 31 to 255 (4.32).
fn clear_marks(d: &mut [u8; DESCRIPTOR_BYTES])
    ensures { d.new ≡ clearing (λ k. leb 31 k) d.old }
{
    d[3] &= KEPT_MARKS;
    d[4..].fill(0);
}

// Bits 0 to 10 and 14, and the marks if bit 14 was set (4.31 to 4.33).
// Kept: its length as a fact; tried as an array, by `as_mut_array` of the part in `clear_page`, after which the proof does not know what the page holds.
pub fn clear_descriptor(d: &mut [u8])
    requires { length d.old ≡ 32 }
    ensures { d.new ≡ clearing (clears_bit (bit_of d.old many_bit)) d.old }
{
    let d = d.as_mut_array().unwrap();
    let many = d[1] & MANY;
    clear_request(d);
    if many != 0 {
        clear_marks(d);
    }
}
