// The three streams that a program has.
use std::io::Write;
use std::rt::{Stderr, Stdin, Stdout};

#[derive(Clone, Copy)]
pub(crate) struct Streams {
    pub(crate) input: Stdin,
    pub(crate) output: Stdout,
    pub(crate) errors: Stderr,
}

impl Streams {
    pub(crate) fn new(rt: HostRuntime) -> Self {
        Streams {
            input: rt.stdin(),
            output: rt.stdout(),
            errors: rt.stderr(),
        }
    }

    // Says what failed. Where not even that can be written nothing is left to do.
    pub(crate) fn say(&mut self, text: &[u8]) {
        let _said = self.errors.write_all(text).is_ok();
    }
}
