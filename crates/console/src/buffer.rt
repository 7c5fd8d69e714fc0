// Bytes, put one behind another as far as there is room. What doesn't fit is left out: whoever puts them sees to the room.
ghost use Rattle.std.specs.Prelude.{◌≡◌, take, replicate};
ghost use Rattle.console.specs.Filling.{Adds};

use crate::first;

// The longest text that is put byte by byte: to call what copies costs more than a few bytes. No hexadecimal number is longer.
const SHORT: usize = 16;

// The first `len` of the bytes are those that were put. A `len` above `N` is that of a full buffer.
// Kept: a struct of its own, and no ArrayVec, which takes a text whole or not at all; no invariant bounds `len`, since that would ask more of callers.
#[derive(Clone, Copy)]
pub struct Buffer<const N: usize> {
    pub bytes: [u8; N],
    pub len: usize,
}

impl<const N: usize> Buffer<N> {
    pub fn new() -> Self
        ensures bytes { result.bytes ≡ replicate N 0 }
        ensures len { result.len ≡ 0 }
    {
        Buffer {
            bytes: [0; N],
            len: 0,
        }
    }

    pub fn clear(&mut self)
        ensures bytes { self.new.bytes ≡ self.old.bytes }
        ensures len { self.new.len ≡ 0 }
    {
        self.len = 0;
    }

    // The bytes that were put.
    pub fn as_slice(&self) -> &[u8]
        ensures { result.now ≡ take self.now.len self.now.bytes }
    {
        first(&self.bytes, self.len)
    }

    pub fn put(&mut self, text: &[u8])
        ensures { Adds text.now self.old self.new }
    {
        if text.len() <= SHORT {
            self.put_short(text);
        } else {
            self.put_long(text);
        }
    }

    fn put_short(&mut self, text: &[u8])
        ensures { Adds text.now self.old self.new }
    {
        let mut len = self.len;
        for b in text {
            if len < N {
                self.bytes[len] = *b;
                len += 1;
            }
        }
        self.len = len;
    }

    fn put_long(&mut self, text: &[u8])
        ensures { Adds text.now self.old self.new }
    {
        if self.len < N {
            let fitting = first(text, N - self.len);
            let end = self.len + fitting.len();
            let bytes = &mut self.bytes[..];
            bytes[self.len..end].copy_from_slice(fitting);
            self.len = end;
        }
    }
}
