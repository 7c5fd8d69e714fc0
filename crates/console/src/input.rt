// The line that is put together from what has been read, and its event.
ghost use Rattle.std.specs.Prelude.{◌≡◌, ◌≤◌};
ghost use Rattle.console.specs.Sessions.{kept_on, advanced, renewed, closed, ended, next_event, Beside};

use crate::{CHUNK_BYTES, LINE_ROOM, Parts, Session};
use trace::Event;

impl Session {
    // Keeps the bytes from `from` up to the next newline, which ends the line, or up to `to` where there is none.
    #[tactic(auto, unfolding(crate::specs::Sessions::kept_on))]
    fn keep_read(&mut self)
        requires from_le_to { self.old.from ≤ self.old.to }
        requires to_bound { self.old.to ≤ 65536 }
        ensures { self.new ≡ kept_on self.old }
    {
        let chunk = &self.chunk[..];
        let end = trace::scan::find(chunk, self.from, self.to, b'\n');
        self.line.put(&chunk[self.from..end]);
        self.from = end;
        if end < self.to {
            self.from = end + 1;
            self.end_line();
        }
    }

    fn end_line(&mut self)
        ensures { self.new ≡ ended self.old }
    {
        self.ended = true;
        self.lines = std::num::wrapping_add_u64(self.lines, 1);
    }

    // After a line that has ended a new one begins.
    #[tactic(auto, unfolding(crate::specs::Sessions::renewed))]
    fn renew(&mut self)
        ensures { self.new ≡ renewed self.old }
    {
        if self.ended {
            self.line.clear();
            self.ended = false;
        }
    }

    // Goes on in what has been read: to the end of the present line, or of what is there of it. Where all is read only an ended line is left behind.
    pub fn advance(&mut self)
        ensures { self.new ≡ advanced self.old }
    {
        self.renew();
        if self.from < self.to && self.to <= CHUNK_BYTES {
            self.keep_read();
        }
    }

    // Ends the input, and with it a line that no newline ends.
    #[tactic(auto, unfolding(crate::specs::Sessions::closed))]
    pub fn close(&mut self)
        ensures { self.new ≡ closed self.old }
    {
        self.open = false;
        if 0 < self.line.len {
            self.end_line();
        }
    }

    // The event of the line that has ended, with the bytes of its page or the values of its list.
    #[tactic(auto, unfolding(crate::specs::Sessions::next_event))]
    pub fn next_event(&self, parts: &mut Parts) -> Event
        ensures value { result ≡ next_event self.now }
        ensures beside { Beside self.now result parts.old.page parts.old.values parts.new.page parts.new.values }
        ensures codes { parts.new.codes ≡ parts.old.codes }
    {
        if self.ended && self.line.len <= LINE_ROOM {
            return trace::read(self.line.as_slice(), &mut parts.page, &mut parts.values);
        }
        Event::Nothing
    }
}
