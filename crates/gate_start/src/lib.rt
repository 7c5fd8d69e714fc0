// Start: the module that a guest begins with.
#![tactic(auto)]

ghost use Rattle.std.specs.Prelude.{◌≡◌, [], ◌≤◌};
ghost use Rattle.model.specs.State.{bare, may_start, started, stopped};
ghost use Rattle.model.specs.Events.{do_start, out_of};

use model::{InFlight, Module, Phase, Refusal, Stepped, Vcpu};

// A record with nothing in it (3.4).
#[tactic(auto, unfolding(model::specs::State::bare))]
fn bare(phase: Phase) -> Vcpu
    ensures { result ≡ bare phase }
{
    let none = vector_set::no_vectors();
    Vcpu {
        allowed: none,
        irr: none,
        isr: none,
        irr_level: none,
        isr_level: none,
        nmi: false,
        machine_check: false,
        tpr: 0,
        icr: 0,
        phase,
        flight: InFlight::Nothing,
        summary: 0,
    }
}

// The n and the VMPL that start takes (3.1).
fn may_start(n: u32, vmpl: u32) -> bool
    ensures { result ≡ may_start n vmpl }
{
    1 <= n && n <= 32 && 1 <= vmpl && vmpl <= 3
}

// n fresh records, and records of nothing behind them (3.3, 2.13).
fn started(n: u32, vmpl: u32) -> Module
    requires { n ≤ 32 }
    ensures { result ≡ started n vmpl }
{
    let absent = bare(Phase::Left);
    let mut vcpus = [absent; 32];
    vcpus[..n as usize].fill(bare(Phase::Active));
    Module {
        n,
        vmpl,
        registrations: 1,
        vcpus,
    }
}

// The module that no event is served by (3.6).
#[tactic(auto, unfolding(model::specs::State::stopped))]
fn stopped() -> Module
    ensures { result ≡ stopped }
{
    let left = bare(Phase::Left);
    let vcpus = [left; 32];
    Module {
        n: 0,
        vmpl: 1,
        registrations: 0,
        vcpus,
    }
}

// A fresh module of n vCPUs for a guest at the VMPL, or the stopped one where a number is out of range (3.1 to 3.6).
#[tactic(auto, unfolding(model::specs::Events::do_start))]
pub fn start(n: u32, vmpl: u32) -> Stepped<u64>
    ensures { out_of result [] ≡ do_start n vmpl }
{
    if may_start(n, vmpl) {
        return Stepped {
            answer: Ok(0),
            after: started(n, vmpl),
        };
    }
    Stepped {
        answer: Err(Refusal::BadStart),
        after: stopped(),
    }
}
