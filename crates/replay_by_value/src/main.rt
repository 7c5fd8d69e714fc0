// Plays the trace on standard input on one module by value: what `replay` does in place, and it prints the same.
#![tactic(auto)]

use model::{Counts, Module, Presentation, Refusal, Stepped};
use player::{Play, Player};

// Holds the module and hands it to each event, which gives another.
#[derive(Drop)]
struct ByValue {
    module: Module,
}

impl ByValue {
    // Takes the module that an event leaves, and gives its answer.
    fn step<T>(&mut self, stepped: Stepped<T>) -> Result<T, Refusal> {
        self.module = stepped.after;
        stepped.answer
    }
}

// Each event by value stands in a method of its own, so that room for the module that it leaves is made for that event alone.
impl Play for ByValue {
    fn start(&mut self, n: u32, vmpl: u32) -> Result<u64, Refusal> {
        self.step(gate_start::start(n, vmpl))
    }

    fn call(&mut self, vcpu: u32, call: u32, ecx: u32, rdx: u64) -> Result<u64, Refusal> {
        self.step(gate_calls::call(self.module, vcpu, call, ecx, rdx))
    }

    fn entry(
        &mut self,
        vcpu: u32,
        iflag: bool,
        shadow: bool,
        blocked: bool,
    ) -> Result<Presentation, Refusal> {
        self.step(gate_entries::entry(self.module, vcpu, iflag, shadow, blocked))
    }

    fn non_delivery(&mut self, vcpu: u32) -> Result<u64, Refusal> {
        self.step(gate_entries::non_delivery(self.module, vcpu))
    }

    fn notice(&mut self, vcpu: u32, page: &mut [u8]) -> Result<Counts, Refusal> {
        self.step(gate_pages::notice(self.module, vcpu, page))
    }

    fn hand_back(
        &mut self,
        vcpu: u32,
        page: &mut [u8],
        iflag: bool,
        shadow: bool,
    ) -> Result<u64, Refusal> {
        self.step(gate_pages::hand_back(self.module, vcpu, page, iflag, shadow))
    }

    fn allow(&mut self, vcpu: u32, values: &[u32], codes: &mut [u32]) -> Result<u64, Refusal> {
        self.step(gate_allow::allow(self.module, vcpu, values, codes))
    }

    fn would_present(&self, vcpu: u32) -> bool {
        gate_entries::would_present(self.module, vcpu)
    }

    fn module(&self) -> &Module {
        &self.module
    }
}

// Kept: beside the other program's `main`: they differ in the type that plays, and each is a loop over `Player::turn`.
// A proved loop has to end, and nothing says that the input does: the turns are counted, up to a number that no input uses up.
fn main(rt: HostRuntime) {
    let first = gate_start::start(0, 0);
    let mut played = ByValue {
        module: first.after,
    };
    let mut player = Player::new(rt);
    for _ in 0..u64::MAX {
        if !player.turn(&mut played) {
            return;
        }
    }
}
