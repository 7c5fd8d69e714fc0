// Numbers, put into the output behind a name.
// Kept: here and for every text of this crate: `Display` promises a text only where its writer took it whole, `put_event` and `put_state` (`Adds`) always.
ghost use Rattle.console.specs.Filling.{Adds};
ghost use Rattle.console_lines.specs.Numerals.{in_hex, in_decimal};

use console::Output;

// A name, then a number.
pub(crate) fn put_hex(out: &mut Output, name: &[u8], n: u64)
    ensures { Adds (in_hex name.now n) out.old out.new }
{
    out.put(name);
    out.put(b"0x");
    let mut text = [0u8; 16];
    let k = io::hex(n, 1, &mut text);
    out.put(&text[..k]);
}

pub(crate) fn put_decimal(out: &mut Output, name: &[u8], n: u64)
    ensures { Adds (in_decimal name.now n) out.old out.new }
{
    out.put(name);
    let mut text = [0u8; 20];
    let k = io::decimal(n, &mut text);
    out.put(&text[..k]);
}
