// Plays the trace on standard input on one module, in place, and prints a line for each event.
#![tactic(auto)]

use gate_mut_allow::allow_in;
use gate_mut_calls::call_in;
use gate_mut_entries::{entry_in, non_delivery_in, would_present_in};
use gate_mut_pages::{hand_back_in, notice_in};
use model::{Counts, Module, Presentation, Refusal};
use player::{Play, Player};

// Holds the module and lends it to each event in turn.
#[derive(Drop)]
struct InPlace {
    module: Module,
}

impl Play for InPlace {
    fn start(&mut self, n: u32, vmpl: u32) -> Result<u64, Refusal> {
        let started = gate_start::start(n, vmpl);
        self.module = started.after;
        started.answer
    }

    fn notice(&mut self, vcpu: u32, page: &mut [u8]) -> Result<Counts, Refusal> {
        notice_in(&mut self.module, vcpu, page)
    }

    fn call(&mut self, vcpu: u32, call: u32, ecx: u32, rdx: u64) -> Result<u64, Refusal> {
        call_in(&mut self.module, vcpu, call, ecx, rdx)
    }

    fn entry(
        &mut self,
        vcpu: u32,
        iflag: bool,
        shadow: bool,
        blocked: bool,
    ) -> Result<Presentation, Refusal> {
        entry_in(&mut self.module, vcpu, iflag, shadow, blocked)
    }

    fn non_delivery(&mut self, vcpu: u32) -> Result<u64, Refusal> {
        non_delivery_in(&mut self.module, vcpu)
    }

    fn hand_back(
        &mut self,
        vcpu: u32,
        page: &mut [u8],
        iflag: bool,
        shadow: bool,
    ) -> Result<u64, Refusal> {
        hand_back_in(&mut self.module, vcpu, page, iflag, shadow)
    }

    fn allow(&mut self, vcpu: u32, values: &[u32], codes: &mut [u32]) -> Result<u64, Refusal> {
        allow_in(&mut self.module, vcpu, values, codes)
    }

    fn would_present(&self, vcpu: u32) -> bool {
        would_present_in(&self.module, vcpu)
    }

    fn module(&self) -> &Module {
        &self.module
    }
}

// Kept: beside the other program's `main`: they differ in the type that plays, and each is a loop over `Player::turn`.
// A proved loop has to end, and nothing says that the input does: the turns are counted, up to a number that no input uses up.
fn main(rt: HostRuntime) {
    let first = gate_start::start(0, 0);
    let mut played = InPlace {
        module: first.after,
    };
    let mut player = Player::new(rt);
    for _ in 0..u64::MAX {
        if !player.turn(&mut played) {
            return;
        }
    }
}
