// A search for a byte.
ghost use Rattle.std.specs.Prelude.{◌≡◌, ◌+◌, ◌≤◌, ◌==◌, length, position};
ghost use Rattle.trace.specs.Bytes.{index_of, slice};

// The first place that holds b.
pub(crate) fn place_of(s: &[u8], b: u8) -> Option<usize>
    ensures { result ≡ position (λ x. x == b) s.now }
{
    s.iter().position(|x| *x == b)
}

// The first place from `from` on, and below `to`, that holds b; `to` where there is none.
// Kept: `to` and no Option, since that is what this public function promises.
pub fn find(s: &[u8], from: usize, to: usize, b: u8) -> usize
    requires from_le_to { from ≤ to }
    requires to_in_bounds { to ≤ length s.now }
    ensures value { result ≡ from + index_of b (slice from to s.now) }
    ensures upper_bound { result ≤ to }
{
    match place_of(&s[from..to], b) {
        Some(k) => from + k,
        None => to,
    }
}
