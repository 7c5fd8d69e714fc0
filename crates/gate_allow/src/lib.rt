// A list of ECX values by value: each is taken as call 4 takes it, on one vCPU's record.
#![tactic(auto)]

ghost use Rattle.std.specs.Prelude.{◌≡◌};
ghost use Rattle.model.specs.Events.{Act, at, step, listed_out};

use gate::{index_of, refused};
use model::{InFlight, Module, Stepped, Vcpu};

// The values of a list in order, and the code of each in the second list (5.26 to 5.31).
pub fn allow(mut m: Module, vcpu: u32, values: &[u32], codes: &mut [u32]) -> Stepped<u64>
    ensures { listed_out result values.now
        codes.new ≡ step m (at vcpu (Act.allow values.now codes.old)) }
{
    let i = match index_of(&m, vcpu) {
        Ok(i) => i,
        Err(c) => return refused(m, c),
    };
    let v = m.vcpus[i];
    match vcpu_allow::allow_values(values, codes, v.phase, v.allowed) {
        Ok(listed) => {
            if let Some(allowed) = listed {
                m.vcpus[i] = Vcpu {
                    allowed,
                    flight: InFlight::Nothing,
                    ..v
                };
            }
            Stepped {
                answer: Ok(0),
                after: m,
            }
        }
        Err(c) => refused(m, c),
    }
}
