// Guest calls on a module lent by `&mut`: the caller's record is stepped in place, and an IPI goes from record to record.
#![tactic(auto)]

ghost use Rattle.std.specs.Prelude.{◌≡◌, []};
ghost use Rattle.model.specs.Events.{Act, at, step, out_of};

use gate::index_of;
use gate_calls::ipis::send;
use model::{Module, Refusal};
use vcpu::Reply;
use vcpu_calls::call_vcpu;

// A guest call (sections 5 to 7; 13.33). An IPI goes out once the caller's record and the count are stored.
pub fn call_in(m: &mut Module, vcpu: u32, number: u32, ecx: u32, rdx: u64) -> Result<u64, Refusal>
    ensures { out_of (record { answer = result; after = m.new }) [] ≡ step m.old (at vcpu (Act.call number ecx rdx)) }
{
    let i = index_of(m, vcpu)?;
    let called = call_vcpu(m.vcpus[i], vcpu, m.registrations, number, ecx, rdx)?;
    m.vcpus[i] = called.vcpu;
    m.registrations = called.registrations;
    match called.reply {
        Reply::Gives(value) => Ok(value),
        Reply::Sends(icr) => Ok(send(m, vcpu, icr)),
    }
}
