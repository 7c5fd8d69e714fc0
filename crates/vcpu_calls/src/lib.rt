// Guest calls on the caller's record and the registration count.
#![tactic(auto)]

ghost use Rattle.std.specs.Prelude.{◌≡◌, not, ◌&&◌, eqb, Ok};
ghost use Rattle.vector_set.specs.Bits.{bits};
ghost use Rattle.model.specs.Items.{pending};
ghost use Rattle.model.specs.Codes.{accept};
ghost use Rattle.model.specs.Requests.{forget, request_of, serve};
ghost use Rattle.model.specs.Events.{Act, vcpu_verdict};
ghost use Rattle.vcpu.specs.Records.{call_on, called_out};

use model::{InFlight, Item, Local, Phase, Refusal, Request, Vcpu};
use vcpu::{Reply, VcpuCalled, items, records};
use vcpu_steps::{end_vcpu, leave_at, permit, released, set_tpr};

// Kept: record, number and count as parameters: of the five functions here two want the number, and most change the record before they hand it on.
// An accepted call that sends nothing.
fn done(value: u64, vcpu: Vcpu, registrations: u8) -> VcpuCalled
    ensures { result ≡ record { reply = Reply.Gives value; vcpu = vcpu; registrations = registrations } }
{
    VcpuCalled {
        reply: Reply::Gives(value),
        vcpu,
        registrations,
    }
}

// One registration more, where there is at least one and there are at most 254 (5.11, 5.12).
#[tactic(auto, unfolding(vcpu::specs::Records::call_on, model::specs::Events::call_effect, model::specs::Requests::serve))]
fn register(v: Vcpu, registrations: u8) -> Result<VcpuCalled, Refusal>
    ensures { called_out registrations v result
        ≡ call_on (serve Local.Register 0 registrations (forget v)).verdict (Ok (Request.Local Local.Register)) 0 registrations v }
{
    match registrations {
        0 => Err(Refusal::NotRegistered),
        u8::MAX => Err(Refusal::RegistrationsFull),
        _ => Ok(done(
            0,
            records::with_flight(v, InFlight::Nothing),
            registrations + 1,
        )),
    }
}

// The caller's bit, where a self-IPI makes its vector pending; none where it was (7.20, 7.22).
fn self_named(v: Vcpu, id: u32, x: u8) -> u64
    ensures { result ≡ bits (λ j. eqb j id && not (pending (Item.Vector x) v)) 0 32 }
{
    if vector_set::contains(v.irr, x) {
        return 0;
    }
    u64::from(ipi::bit_of(id))
}

// A call that touches the caller's record and the count alone. What was in flight is forgotten first (5.3).
#[tactic(auto, unfolding(vcpu::specs::Records::call_on, model::specs::Events::call_effect, model::specs::Requests::serve))]
fn serve_local(v: Vcpu, id: u32, registrations: u8, o: Local) -> Result<VcpuCalled, Refusal>
    ensures { called_out registrations v result ≡ call_on (serve o id registrations (forget v)).verdict (Ok (Request.Local o)) id registrations v }
{
    let w = records::with_flight(v, InFlight::Nothing);
    let called = match o {
        Local::Features => done(0, w, registrations),
        Local::Leave => done(0, leave_at(w, registrations), registrations),
        Local::Release => {
            let left = released(registrations);
            done(0, leave_at(w, left), left)
        }
        Local::Register => register(v, registrations)?,
        Local::Allow(x) => done(0, permit(w, x, true), registrations),
        Local::Disallow(x) => done(0, permit(w, x, false), registrations),
        Local::Read(r) => done(apic::register_value(w, id, r), w, registrations),
        Local::SetTpr(x) => done(0, set_tpr(w, x), registrations),
        Local::Eoi => {
            let ended = end_vcpu(w);
            done(ended.answer, ended.vcpu, registrations)
        }
        Local::SelfIpi(x) => done(
            self_named(w, id, x),
            items::post_item(w, Item::Vector(x)),
            registrations,
        ),
    };
    Ok(called)
}

// The value of an ICR write is stored (7.19); whom it reaches is the module's to say.
#[tactic(auto, unfolding(vcpu::specs::Records::call_on, model::specs::Events::call_effect))]
fn store_icr(v: Vcpu, registrations: u8, x: u64) -> VcpuCalled
    ensures { called_out registrations v (Ok result) ≡ call_on accept (Ok (Request.Icr x)) 0 registrations v }
{
    VcpuCalled {
        reply: Reply::Sends(x),
        vcpu: Vcpu {
            icr: x,
            flight: InFlight::Nothing,
            ..v
        },
        registrations,
    }
}

// A guest call of the vCPU id (section 5).
// Kept: a call's numbers as parameters, here and in the gates: they are the three registers that the guest hands over (5.1).
#[tactic(auto, unfolding(vcpu::specs::Records::call_on, model::specs::Events::call_effect, model::specs::Events::vcpu_verdict, model::specs::Requests::call_verdict))]
pub fn call_vcpu(
    v: Vcpu,
    id: u32,
    registrations: u8,
    number: u32,
    ecx: u32,
    rdx: u64,
) -> Result<VcpuCalled, Refusal>
    ensures { called_out registrations v result
        ≡ call_on (vcpu_verdict id registrations v (Act.call number ecx rdx)) (request_of number ecx rdx) id registrations v }
{
    let Phase::Active = v.phase else {
        return Err(Refusal::NotActive);
    };
    match requests::request_of(number, ecx, rdx)? {
        Request::Local(o) => serve_local(v, id, registrations, o),
        Request::Icr(x) => Ok(store_icr(v, registrations, x)),
    }
}
