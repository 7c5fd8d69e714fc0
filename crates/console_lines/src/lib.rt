// The lines that the programs print: the line of an event's answer, and the lines of a module's state (docs/REPLAY.md). They are put into a buffer; nothing
// here writes a descriptor.
#![tactic(auto, using(console::proofs::Fills::puts_none))]

mod answers;
mod output;
mod state;

ghost use Rattle.console.specs.Filling.{Adds};
ghost use Rattle.console_lines.specs.Lines.{line_of};

use answers::{put_listed, put_paged, put_plain, put_start, put_unreadable};
use console::{Answer, Output, Parts, first};
use model::Refusal;
pub use state::put_state;
use trace::Event;

// Puts the line of an event, `number` being its place in the input. `state` has none of its own: its lines are `put_state`'s.
// Kept: an arm for each event, and no table of functions: the lines differ in their names and in what is lent to them, nothing, a page or codes.
pub fn put_event(
    out: &mut Output,
    parts: &Parts,
    number: u64,
    event: Event,
    answer: Result<Answer, Refusal>,
)
    ensures { Adds (line_of parts.now.page parts.now.codes number event answer) out.old out.new }
{
    match event {
        Event::Nothing => (),
        Event::Unreadable => put_unreadable(out, number),
        Event::Start { .. } => put_start(out, answer),
        Event::Notice { length, .. } => put_paged(
            out,
            b"notice",
            answer,
            first(&parts.page, length),
        ),
        Event::Call { .. } => put_plain(out, b"call", answer),
        Event::Entry { .. } => put_plain(out, b"entry", answer),
        Event::NonDelivery { .. } => put_plain(out, b"nondelivery", answer),
        Event::HandBack { length, .. } => put_paged(
            out,
            b"handback",
            answer,
            first(&parts.page, length),
        ),
        Event::Allow { length, .. } => put_listed(out, answer, first(&parts.codes, length)),
        Event::Ask { .. } => put_plain(out, b"ask", answer),
        Event::State => (),
    }
}
