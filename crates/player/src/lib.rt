// What the programs that play a trace do alike: they read standard input, hand each event to what plays it, and print what came of it on standard output.
// `console` and `console_lines` say which event a line is and how its answer is printed.
#![tactic(auto)]

mod events;
mod streams;

ghost use Rattle.std.specs.Prelude.{◌≡◌, ◌≤◌, false, OnErr};
ghost use Rattle.console.specs.Sessions.{begun};

use console::buffer::Buffer;
use console::{Answer, CHUNK_BYTES, Output, Parts, Session};
use console_lines::{put_event, put_state};
use model::{Counts, Module, Presentation, Refusal};
use std::io;
use std::io::{Read, Write};
use streams::Streams;
use trace::Event;

// Output that holds more than this is written before the next line: behind no more than that every line stands whole (`LinesFit` of
// crates/console_lines/specs/Room.antt).
const FULL: usize = 16384;

// What holds a module and plays events on it, each by a method of its own.
pub trait Play {
    fn start(&mut self, n: u32, vmpl: u32) -> Result<u64, Refusal>;

    fn notice(&mut self, vcpu: u32, page: &mut [u8]) -> Result<Counts, Refusal>;

    fn call(&mut self, vcpu: u32, call: u32, ecx: u32, rdx: u64) -> Result<u64, Refusal>;

    fn entry(
        &mut self,
        vcpu: u32,
        iflag: bool,
        shadow: bool,
        blocked: bool,
    ) -> Result<Presentation, Refusal>;

    fn non_delivery(&mut self, vcpu: u32) -> Result<u64, Refusal>;

    fn hand_back(
        &mut self,
        vcpu: u32,
        page: &mut [u8],
        iflag: bool,
        shadow: bool,
    ) -> Result<u64, Refusal>;

    fn allow(&mut self, vcpu: u32, values: &[u32], codes: &mut [u32]) -> Result<u64, Refusal>;

    fn would_present(&self, vcpu: u32) -> bool;

    // The module as it is now.
    fn module(&self) -> &Module;
}

// A program that plays: its streams, where it stands in the input, what it lends to the events, and what it has to print.
#[derive(Drop)]
pub struct Player {
    streams: Streams,
    pub session: Session,
    parts: Parts,
    pub out: Output,
}

impl Player {
    // Nothing is read and nothing waits to be written.
    pub fn new(rt: HostRuntime) -> Self
        ensures session { result.session ≡ begun result.session.chunk result.session.line.bytes }
        ensures out { result.out.len ≡ 0 }
    {
        Player {
            streams: Streams::new(rt),
            session: Session::new(),
            parts: Parts::new(),
            out: Buffer::new(),
        }
    }

    // Reads more of the input. The input ends where there is no more, and where it cannot be read.
    fn fill(&mut self) {
        match self.streams.input.read(&mut self.session.chunk) {
            Ok(0) => self.session.close(),
            Ok(got) => {
                self.session.from = 0;
                self.session.to = got;
            }
            Err(_) => {
                self.streams.say(b"replay: the input cannot be read\n");
                self.session.close();
            }
        }
    }

    // Goes on in the input: to the end of the present line, or of what has been read of it. One step of a loop that ends with the input.
    fn advance(&mut self) {
        let unread = self.session.from < self.session.to && self.session.to <= CHUNK_BYTES;
        self.session.advance();
        if !unread {
            self.fill();
        }
    }

    // Writes what is to be printed.
    fn flush(&mut self) -> io::Result<()>
        ensures out { self.new.out.len ≡ 0 }
        ensures session { self.new.session ≡ self.old.session }
    {
        let written = self.streams.output.write_all(self.out.as_slice());
        self.out.clear();
        written
    }

    fn make_room(&mut self) -> io::Result<()>
        ensures out { self.new.out.len ≤ 16384 }
        ensures session { self.new.session ≡ self.old.session }
        ensures err { OnErr result (self.new.out.len ≡ 0) }
    {
        if FULL < self.out.len {
            return self.flush();
        }
        Ok(())
    }

    fn print_state(&mut self, module: &Module) -> io::Result<()>
        ensures session { self.new.session ≡ self.old.session }
        ensures err { OnErr result (self.new.out.len ≡ 0) }
    {
        for k in 0..=module.n.min(32) {
            self.make_room()?;
            put_state(&mut self.out, *module, k);
        }
        Ok(())
    }

    // Prints what the event came to, and writes all that is left once the input has ended.
    fn print<P: Play>(
        &mut self,
        played: &P,
        event: Event,
        answer: Result<Answer, Refusal>,
    ) -> io::Result<()>
        ensures session { self.new.session ≡ self.old.session }
        ensures err { OnErr result (self.new.out.len ≡ 0) }
        ensures written { self.new.session.«open» ≡ false → self.new.out.len ≡ 0 }
    {
        if let Event::State = event {
            self.print_state(played.module())?;
        } else {
            self.make_room()?;
            put_event(
                &mut self.out,
                &self.parts,
                self.session.lines,
                event,
                answer,
            );
        }
        if !self.session.open {
            self.flush()?;
        }
        Ok(())
    }

    // One turn: goes on in the input, and plays and prints the event of a line that has ended. Where the output cannot be written the program says so, and stops.
    // Answers whether there is another turn.
    pub fn turn<P: Play>(&mut self, played: &mut P) -> bool
        ensures goes_on { result ≡ self.new.session.«open» }
        ensures written { self.new.session.«open» ≡ false → self.new.out.len ≡ 0 }
    {
        self.advance();
        let event = self.session.next_event(&mut self.parts);
        let answer = events::play(played, &mut self.parts, event);
        if self.print(played, event, answer).is_err() {
            self.streams.say(b"replay: the output cannot be written\n");
            self.session.open = false;
        }
        self.session.open
    }
}
