// Guest calls by value: a step of the caller's record does the work, and an IPI goes to its targets.
#![tactic(auto)]

ghost use Rattle.std.specs.Prelude.{◌≡◌, []};
ghost use Rattle.model.specs.Events.{Act, at, step, out_of};

use gate::{index_of, refused};
use model::{Module, Stepped};
use vcpu::Reply;

pub mod ipis;

// A guest call (sections 5 to 7).
pub fn call(mut m: Module, vcpu: u32, number: u32, ecx: u32, rdx: u64) -> Stepped<u64>
    ensures { out_of result [] ≡ step m (at vcpu (Act.call number ecx rdx)) }
{
    let i = match index_of(&m, vcpu) {
        Ok(i) => i,
        Err(c) => return refused(m, c),
    };
    let called = match vcpu_calls::call_vcpu(m.vcpus[i], vcpu, m.registrations, number, ecx, rdx) {
        Ok(called) => called,
        Err(c) => return refused(m, c),
    };
    m.vcpus[i] = called.vcpu;
    m.registrations = called.registrations;
    let value = match called.reply {
        Reply::Gives(value) => value,
        Reply::Sends(icr) => ipis::send(&mut m, vcpu, icr),
    };
    Stepped {
        answer: Ok(value),
        after: m,
    }
}
