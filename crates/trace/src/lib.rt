// Reading a line of a trace into an event.
#![tactic(auto)]

mod lists;
mod numbers;
mod pages;
pub mod scan;
mod words;

ghost use Rattle.std.specs.Prelude.{◌≡◌};
ghost use Rattle.std.specs.Option.{unwrap_or};
ghost use Rattle.trace.specs.Words.{words, rest};
ghost use Rattle.trace.specs.Lines.{only, start, notice, call, entry, non_delivery, hand_back, allow, ask};
ghost use Rattle.trace.specs.Lines.{name_of, named, is_comment, event_of, PageIs, ValuesAre};
ghost use Rattle.trace.specs.declared.Event.TheVariants.{Unreadable};

use crate::words::Line;

// The limits of arguments: a number of 32 bits or of 64, a flag, the length of a page, that of a list.
const MAX32: u64 = 0xFFFF_FFFF;

const MAX64: u64 = u64::MAX;

const MAX_FLAG: u64 = 1;

const MAX_LENGTH: u64 = 4096;

const MAX_LIST: u64 = 1024;

// Lines of at most this many bytes are read; a longer one is unreadable.
pub const LONGEST: usize = 65536;

// What a line says. `Nothing` is a line that is passed over. The bytes of a page and the values of a list stand beside it.
// Kept: a line that is passed over and one that is unreadable are two of the kinds that `read` promises.
#[derive(Clone, Copy)]
pub enum Event {
    Nothing,
    Unreadable,
    Start {
        n: u32,
        vmpl: u32,
    },
    Notice {
        vcpu: u32,
        length: usize,
    },
    Call {
        vcpu: u32,
        call: u32,
        ecx: u32,
        rdx: u64,
    },
    Entry {
        vcpu: u32,
        iflag: bool,
        shadow: bool,
        blocked: bool,
    },
    NonDelivery {
        vcpu: u32,
    },
    HandBack {
        vcpu: u32,
        iflag: bool,
        shadow: bool,
        length: usize,
    },
    Allow {
        vcpu: u32,
        count: usize,
        length: usize,
        fill: u32,
    },
    Ask {
        vcpu: u32,
    },
    State,
}

// What the first word of a line names.
#[derive(Drop)]
enum Name {
    Start,
    Notice,
    Call,
    Entry,
    NonDelivery,
    HandBack,
    Allow,
    Ask,
    State,
}

// ---- events: each function reads what follows the name; there is none where the line is unreadable

// The event e, where no word is left.
#[tactic(auto, unfolding(crate::specs::Lines::only))]
fn ended(mut line: Line, e: Event) -> Option<Event>
    ensures { unwrap_or result Unreadable ≡ only (words line.entry.left.now) e }
{
    match line.next() {
        Some(_) => None,
        None => Some(e),
    }
}

// `start N L`
#[tactic(auto, unfolding(crate::specs::Lines::start, crate::specs::Lines::taking, crate::specs::Lines::given))]
fn read_start(mut line: Line) -> Option<Event>
    ensures { unwrap_or result Unreadable ≡ start (words line.entry.left.now) }
{
    let n = line.number32()?;
    let vmpl = line.number32()?;
    ended(line, Event::Start { n, vmpl })
}

// `notice VCPU LENGTH [OFFSET=BYTE ...]`
#[tactic(auto, unfolding(crate::specs::Lines::notice, crate::specs::Lines::taking, crate::specs::Lines::given, crate::specs::Lines::paged))]
fn read_notice(mut line: Line, page: &mut [u8; 4096]) -> Option<Event>
    ensures value { unwrap_or result Unreadable ≡ notice (words line.entry.left.now) }
    ensures page_is { PageIs (words line.entry.left.now) (unwrap_or result Unreadable) page.new }
{
    let vcpu = line.number32()?;
    let length = line.number(MAX_LENGTH)? as usize;
    pages::fill(line, length, page)?;
    Some(Event::Notice { vcpu, length })
}

// `call VCPU CALL ECX RDX`
#[tactic(auto, unfolding(crate::specs::Lines::call, crate::specs::Lines::taking, crate::specs::Lines::given))]
fn read_call(mut line: Line) -> Option<Event>
    ensures { unwrap_or result Unreadable ≡ call (words line.entry.left.now) }
{
    let vcpu = line.number32()?;
    let call = line.number32()?;
    let ecx = line.number32()?;
    let rdx = line.number(MAX64)?;
    ended(
        line,
        Event::Call {
            vcpu,
            call,
            ecx,
            rdx,
        },
    )
}

// `entry VCPU IF SHADOW BLOCKED`
#[tactic(auto, unfolding(crate::specs::Lines::entry, crate::specs::Lines::taking, crate::specs::Lines::given))]
fn read_entry(mut line: Line) -> Option<Event>
    ensures { unwrap_or result Unreadable ≡ entry (words line.entry.left.now) }
{
    let vcpu = line.number32()?;
    let iflag = line.flag()?;
    let shadow = line.flag()?;
    let blocked = line.flag()?;
    ended(
        line,
        Event::Entry {
            vcpu,
            iflag,
            shadow,
            blocked,
        },
    )
}

// `nondelivery VCPU`
// Kept: this and `read_ask` differ in the variant alone, two lines each; the variant as a parameter would be no shorter.
#[tactic(auto, unfolding(crate::specs::Lines::non_delivery, crate::specs::Lines::taking, crate::specs::Lines::given))]
fn read_non_delivery(mut line: Line) -> Option<Event>
    ensures { unwrap_or result Unreadable ≡ non_delivery (words line.entry.left.now) }
{
    let vcpu = line.number32()?;
    ended(line, Event::NonDelivery { vcpu })
}

// `handback VCPU IF SHADOW LENGTH [OFFSET=BYTE ...]`
#[tactic(auto, unfolding(crate::specs::Lines::hand_back, crate::specs::Lines::taking, crate::specs::Lines::given, crate::specs::Lines::paged))]
fn read_hand_back(mut line: Line, page: &mut [u8; 4096]) -> Option<Event>
    ensures value { unwrap_or result Unreadable ≡ hand_back (words line.entry.left.now) }
    ensures page_is { PageIs (words line.entry.left.now) (unwrap_or result Unreadable) page.new }
{
    let vcpu = line.number32()?;
    let iflag = line.flag()?;
    let shadow = line.flag()?;
    let length = line.number(MAX_LENGTH)? as usize;
    pages::fill(line, length, page)?;
    Some(Event::HandBack {
        vcpu,
        iflag,
        shadow,
        length,
    })
}

// `allow VCPU LENGTH FILL [ECX ...]`
#[tactic(auto, unfolding(crate::specs::Lines::allow, crate::specs::Lines::taking, crate::specs::Lines::given))]
fn read_allow(mut line: Line, values: &mut [u32; 1024]) -> Option<Event>
    ensures value { unwrap_or result Unreadable ≡ allow (words line.entry.left.now) }
    ensures values_are { ValuesAre (words line.entry.left.now) (unwrap_or result Unreadable) values.new }
{
    let vcpu = line.number32()?;
    let length = line.number(MAX_LIST)? as usize;
    let fill = line.number32()?;
    let count = lists::fill(line, values)?;
    Some(Event::Allow {
        vcpu,
        count,
        length,
        fill,
    })
}

// `ask VCPU`
#[tactic(auto, unfolding(crate::specs::Lines::ask, crate::specs::Lines::taking, crate::specs::Lines::given))]
fn read_ask(mut line: Line) -> Option<Event>
    ensures { unwrap_or result Unreadable ≡ ask (words line.entry.left.now) }
{
    let vcpu = line.number32()?;
    ended(line, Event::Ask { vcpu })
}

// ---- lines

#[tactic(auto, using(crate::proofs::Names::name_told))]
fn name_of(word: &[u8]) -> Option<Name>
    ensures { result ≡ name_of word.now }
{
    match word {
        b"start" => Some(Name::Start),
        b"notice" => Some(Name::Notice),
        b"call" => Some(Name::Call),
        b"entry" => Some(Name::Entry),
        b"nondelivery" => Some(Name::NonDelivery),
        b"handback" => Some(Name::HandBack),
        b"allow" => Some(Name::Allow),
        b"ask" => Some(Name::Ask),
        b"state" => Some(Name::State),
        _ => None,
    }
}

// The event of a name and the words after it.
// Kept: an arm for each name, and no table of functions: three of them are lent a page or a list, the others nothing.
fn read_named(
    name: Name,
    line: Line,
    page: &mut [u8; 4096],
    values: &mut [u32; 1024],
) -> Option<Event>
    ensures value { unwrap_or result Unreadable ≡ named name (words line.entry.left.now) }
    ensures page_is { PageIs (words line.entry.left.now) (unwrap_or result Unreadable) page.new }
    ensures values_are { ValuesAre (words line.entry.left.now) (unwrap_or result Unreadable) values.new }
{
    match name {
        Name::Start => read_start(line),
        Name::Notice => read_notice(line, page),
        Name::Call => read_call(line),
        Name::Entry => read_entry(line),
        Name::NonDelivery => read_non_delivery(line),
        Name::HandBack => read_hand_back(line, page),
        Name::Allow => read_allow(line, values),
        Name::Ask => read_ask(line),
        Name::State => ended(line, Event::State),
    }
}

#[tactic(auto, unfolding(crate::specs::Lines::is_comment))]
fn is_comment(line: &[u8]) -> bool
    ensures { result ≡ is_comment line.now }
{
    matches!(line, [b'#', ..])
}

// The event of a line. Where it has a page, the page's bytes are in `page`, from its start on; where it has a list, its values are in `values`.
pub fn read(line: &[u8], page: &mut [u8; 4096], values: &mut [u32; 1024]) -> Event
    ensures value { result ≡ event_of line.now }
    ensures page_is { PageIs (rest (words line.now)) result page.new }
    ensures values_are { ValuesAre (rest (words line.now)) result values.new }
{
    if is_comment(line) {
        return Event::Nothing;
    }
    if LONGEST < line.len() {
        return Event::Unreadable;
    }
    let mut words = Line { left: line };
    let Some(word) = words.next() else {
        return Event::Nothing;
    };
    let Some(name) = name_of(word) else {
        return Event::Unreadable;
    };
    read_named(name, words, page, values).unwrap_or(Event::Unreadable)
}
