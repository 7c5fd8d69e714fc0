// Entry and non-delivery by value: the module goes in and comes back; a step of one record does the work. The question takes it and gives its answer.
#![tactic(auto)]

ghost use Rattle.std.specs.Prelude.{◌≡◌, []};
ghost use Rattle.model.specs.Events.{Act, at, step, out_of, entered_out, would_present};

use gate::{index_of, refused};
use model::{Module, Presentation, Stepped};

// Kept: each event by value finds the place, steps the record and stores it. With `?` that would be a second function for each, as a closure a contract more.
// An entry of the guest: what it is to be presented (section 8).
pub fn entry(
    mut m: Module,
    vcpu: u32,
    iflag: bool,
    shadow: bool,
    blocked: bool,
) -> Stepped<Presentation>
    ensures { entered_out result ≡ step m (at vcpu (Act.entry iflag shadow blocked)) }
{
    let i = match index_of(&m, vcpu) {
        Ok(i) => i,
        Err(c) => return refused(m, c),
    };
    match vcpu_entries::entry_vcpu(m.vcpus[i], iflag, shadow, blocked) {
        Ok(entered) => {
            m.vcpus[i] = entered.vcpu;
            Stepped {
                answer: Ok(entered.answer),
                after: m,
            }
        }
        Err(c) => refused(m, c),
    }
}

// What the latest entry presented was not delivered (section 9).
pub fn non_delivery(mut m: Module, vcpu: u32) -> Stepped<u64>
    ensures { out_of result [] ≡ step m (at vcpu Act.non_delivery) }
{
    let i = match index_of(&m, vcpu) {
        Ok(i) => i,
        Err(c) => return refused(m, c),
    };
    match vcpu_entries::non_delivery_vcpu(m.vcpus[i]) {
        Ok(returned) => {
            m.vcpus[i] = returned;
            Stepped {
                answer: Ok(0),
                after: m,
            }
        }
        Err(c) => refused(m, c),
    }
}

// Whether an entry with IF and without shadow and NMI-blocked would present anything (8.21 to 8.23).
pub fn would_present(m: Module, vcpu: u32) -> bool
    ensures { result ≡ would_present m vcpu }
{
    match index_of(&m, vcpu) {
        Ok(i) => vcpu_entries::would_present_vcpu(m.vcpus[i]),
        Err(_) => false,
    }
}
