// The line of an event: its name, its answer, and the page or the codes where it has them.
ghost use Rattle.std.specs.Prelude.{◌+◌, ◌^◌, ◌<◌, ◌++◌, length};
ghost use Rattle.console.specs.Filling.{Adds};
ghost use Rattle.console_lines.specs.Lines.{counts_text, presentation_text, asked_text, given_text, answer_text};
ghost use Rattle.console_lines.specs.Lines.{cell_text, part_text, page_text, code_text, codes_text};
ghost use Rattle.console_lines.specs.Lines.{plain_line, start_line, paged_line, listed_line, unreadable_line};

use crate::output::{put_decimal, put_hex};
use console::{Answer, Output};
use model::{Counts, Presentation, Refusal};

// ---- answers

fn put_counts(out: &mut Output, counts: Counts)
    ensures { Adds (counts_text counts) out.old out.new }
{
    put_hex(out, b" ok ", u64::from(counts.new));
    put_hex(out, b" ", u64::from(counts.merged));
}

fn put_presentation(out: &mut Output, p: Presentation)
    ensures { Adds (presentation_text p) out.old out.new }
{
    match p {
        Presentation::Nothing => out.put(b" nothing"),
        Presentation::Nmi => out.put(b" nmi"),
        Presentation::MachineCheck => out.put(b" mc"),
        Presentation::Vector(v) => put_hex(out, b" vector ", u64::from(v)),
        Presentation::Window(v) => put_hex(out, b" window ", u64::from(v)),
    }
}

fn put_asked(out: &mut Output, yes: bool)
    ensures { Adds (asked_text yes) out.old out.new }
{
    if yes {
        out.put(b" yes");
    } else {
        out.put(b" no");
    }
}

// Kept: an arm for each kind of answer, and no table of functions: each has a value of its own type.
fn put_given(out: &mut Output, a: Answer)
    ensures { Adds (given_text a) out.old out.new }
{
    match a {
        Answer::Nothing => (),
        Answer::Number(v) => put_hex(out, b" ok ", v),
        Answer::Counts(counts) => put_counts(out, counts),
        Answer::Presentation(p) => put_presentation(out, p),
        Answer::Asked(yes) => put_asked(out, yes),
    }
}

// The name of an event, then its answer.
fn put_answer(out: &mut Output, name: &[u8], answer: Result<Answer, Refusal>)
    ensures { Adds (name.now ++ answer_text answer) out.old out.new }
{
    out.put(name);
    match answer {
        Ok(a) => put_given(out, a),
        Err(r) => put_hex(out, b" refused ", u64::from(gate::code(r))),
    }
}

// ---- pages

fn put_cell(out: &mut Output, offset: usize, b: u8)
    ensures { Adds (cell_text offset b) out.old out.new }
{
    if b == 0 {
        return;
    }
    put_hex(out, b" ", offset as u64);
    put_hex(out, b"=", u64::from(b));
}

// The bytes of a part of a page that are not zero: `first` is the offset of its first byte. It stays a function of its own, so that the loop over the parts
// has registers for its place.
#[inline(never)]
fn put_cells(out: &mut Output, first: usize, part: &[u8])
    requires { first + length part.now < 2 ^ 64 }
    ensures { Adds (part_text first part.now) out.old out.new }
{
    for (k, b) in part.iter().enumerate() {
        put_cell(out, first + k, *b);
    }
}

// What `put_cells` puts. Most pages are zeros almost throughout: eight zeros are passed over at once.
fn put_part(out: &mut Output, first: usize, part: &[u8])
    requires { first + length part.now < 2 ^ 64 }
    ensures { Adds (part_text first part.now) out.old out.new }
{
    if let Some(eight) = part.as_array()
        && u64::from_le_bytes(*eight) == 0
    {
        return;
    }
    put_cells(out, first, part);
}

// The bytes of the page that are not zero.
fn put_page(out: &mut Output, page: &[u8])
    ensures { Adds (page_text page.now) out.old out.new }
{
    let mut first = 0;
    for part in page.chunks(8) {
        put_part(out, first, part);
        first += part.len();
    }
}

// ---- codes

fn put_code(out: &mut Output, code: u32)
    ensures { Adds (code_text code) out.old out.new }
{
    put_hex(out, b" ", u64::from(code));
}

fn put_codes(out: &mut Output, codes: &[u32])
    ensures { Adds (codes_text codes.now) out.old out.new }
{
    for code in codes {
        put_code(out, *code);
    }
}

// ---- events

// The line of an event that has no page.
pub(crate) fn put_plain(out: &mut Output, name: &[u8], answer: Result<Answer, Refusal>)
    ensures { Adds (plain_line name.now answer) out.old out.new }
{
    put_answer(out, name, answer);
    out.put(b"\n");
}

// The line of start: the module is all that it gives, so no number is printed.
pub(crate) fn put_start(out: &mut Output, answer: Result<Answer, Refusal>)
    ensures { Adds (start_line answer) out.old out.new }
{
    match answer {
        Ok(Answer::Number(_)) => out.put(b"start ok\n"),
        _ => put_plain(out, b"start", answer),
    }
}

// The line of an event that has a page.
pub(crate) fn put_paged(out: &mut Output, name: &[u8], answer: Result<Answer, Refusal>, page: &[u8])
    ensures { Adds (paged_line name.now answer page.now) out.old out.new }
{
    put_answer(out, name, answer);
    out.put(b" page");
    put_page(out, page);
    out.put(b"\n");
}

// The line of the event that has a list: its answer, then the codes.
// Kept: beside `put_paged`, since bytes are printed with their places and codes are not: a common function would take the printing as a closure.
pub(crate) fn put_listed(out: &mut Output, answer: Result<Answer, Refusal>, codes: &[u32])
    ensures { Adds (listed_line answer codes.now) out.old out.new }
{
    put_answer(out, b"allow", answer);
    out.put(b" codes");
    put_codes(out, codes);
    out.put(b"\n");
}

// The line of a line that is unreadable.
pub(crate) fn put_unreadable(out: &mut Output, number: u64)
    ensures { Adds (unreadable_line number) out.old out.new }
{
    put_decimal(out, b"error line ", number);
    out.put(b"\n");
}
