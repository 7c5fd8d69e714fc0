// Numbers as a trace writes them.
ghost use Rattle.std.specs.Prelude.{◌≡◌, ◌≤◌, ◌<◌, IfSome};
ghost use Rattle.trace.specs.Numbers.{digit, digits_of, number_of};
ghost use Rattle.trace.specs.Numbers.{up_to as Numbers·up_to};

// The value of a hexadecimal digit.
#[tactic(auto, unfolding(crate::specs::Numbers::digit))]
fn digit_of(b: u8) -> Option<u64>
    ensures { result ≡ digit b }
{
    match b {
        b'0'..=b'9' => Some(u64::from(b - b'0')),
        b'A'..=b'F' => Some(u64::from(b - b'A') + 10),
        b'a'..=b'f' => Some(u64::from(b - b'a') + 10),
        _ => None,
    }
}

// The number that digits are in a base. There is at least one.
#[tactic(auto, unfolding(crate::specs::Numbers::digits_of, crate::specs::Numbers::digits_from))]
fn digits_of(digits: &[u8], base: u64) -> Option<u64>
    requires { 0 < base }
    ensures { result ≡ digits_of base digits.now }
{
    if digits.is_empty() {
        return None;
    }
    let mut value: u64 = 0;
    for b in digits {
        let d = digit_of(*b)?;
        if base <= d {
            return None;
        }
        value = value.checked_mul(base)?.checked_add(d)?;
    }
    Some(value)
}

// A word that begins with `0x` is hexadecimal.
#[tactic(auto, unfolding(crate::specs::Numbers::number_of, crate::specs::Numbers::is_hex))]
pub(crate) fn number_of(word: &[u8]) -> Option<u64>
    ensures { result ≡ number_of word.now }
{
    match word {
        [b'0', b'x', digits @ ..] => digits_of(digits, 16),
        _ => digits_of(word, 10),
    }
}

// A word as a number of at most `most`.
#[tactic(auto, unfolding(crate::specs::Numbers::up_to))]
pub(crate) fn up_to(most: u64, word: &[u8]) -> Option<u64>
    ensures value { result ≡ Numbers·up_to most (number_of word.now) }
    ensures upper_bound { IfSome result (λ v. v ≤ most) }
{
    number_of(word).filter(|v| *v <= most)
}
