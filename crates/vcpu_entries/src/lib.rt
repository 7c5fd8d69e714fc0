// Entry and non-delivery on one record.
#![tactic(auto)]

ghost use Rattle.std.specs.Prelude.{◌≡◌, true, false, eqb, is_some};
ghost use Rattle.std.specs.Prelude.{Some, IfOk, IfErr};
ghost use Rattle.model.specs.Codes.{Answer, accept, refuse, presented_result, presented_by};
ghost use Rattle.model.specs.Items.{item_in_flight};
ghost use Rattle.model.specs.Requests.{forget};
ghost use Rattle.vector_set.specs.Summaries.{remade};
ghost use Rattle.model.specs.Events.{Act, offer, entered, undelivered, gains, vcpu_verdict};
ghost use Rattle.vcpu_stages.specs.Stages.{answered_on};
ghost use Rattle.vcpu.specs.Records.{entry_on, non_delivery_on, returned_out, entered_vcpu};

use model::{InFlight, Item, Phase, Presentation, Refusal, Vcpu};
use vcpu::{VcpuStepped, records};
use vcpu_stages::answers;
use vector_set::word_of;

// The set t, with x if s has x.
fn gain(x: u8, s: [u32; 8], t: [u32; 8]) -> [u32; 8]
    ensures { result ≡ gains x s t }
{
    if vector_set::contains(s, x) {
        return vector_set::insert(t, x);
    }
    t
}

// The summary of P once the vector x has come or gone and P is irr (2.21).
fn summary_after(summary: u8, irr: [u32; 8], x: u8) -> u8
    ensures { result ≡ remade (λ y. eqb y x) irr summary }
{
    let k = word_of(x);
    vector_set_search::with_word(summary, k, irr[k])
}

// Kept: a function for each mark, here and where they are returned: they differ in a field, which is no parameter.
// The NMI is marked no more, and is in flight (8.6, 8.14).
#[tactic(auto, unfolding(model::specs::Events::entered, model::specs::Events::present, model::specs::Items::unmark))]
fn present_nmi(v: Vcpu) -> Vcpu
    ensures { result ≡ entered (Answer.presents Item.Nmi) (forget v) }
{
    Vcpu {
        nmi: false,
        flight: InFlight::Nmi,
        ..v
    }
}

// The machine check is marked no more, and is in flight (8.14, 8.17).
#[tactic(auto, unfolding(model::specs::Events::entered, model::specs::Events::present, model::specs::Items::unmark))]
fn present_machine_check(v: Vcpu) -> Vcpu
    ensures { result ≡ entered (Answer.presents Item.MachineCheck) (forget v) }
{
    Vcpu {
        machine_check: false,
        flight: InFlight::MachineCheck,
        ..v
    }
}

// Kept: this and `return_vector` mirror one another: a common function would be handed four sets and give back four.
// The vector moves from the IRR to the ISR, its level mark with it, and is in flight (8.11, 8.12, 8.14).
#[tactic(auto, unfolding(model::specs::Events::entered, model::specs::Events::present, model::specs::Items::unmark, vector_set::specs::Sets::remove))]
fn present_vector(v: Vcpu, x: u8) -> Vcpu
    ensures { result ≡ entered (Answer.presents (Item.Vector x)) (forget v) }
{
    let irr = vector_set::remove(v.irr, x);
    Vcpu {
        irr,
        summary: summary_after(v.summary, irr, x),
        isr: vector_set::insert(v.isr, x),
        irr_level: vector_set::remove(v.irr_level, x),
        isr_level: gain(x, v.irr_level, v.isr_level),
        flight: InFlight::Vector(x),
        ..v
    }
}

// Kept: the flags as parameters, here and above: they are the arguments of the event (8.1), and each stage takes those that it asks for.
// What an entry on one record answers: one that is not active is refused (8.2, 8.6 to 8.13, 8.17, 8.18, 8.20).
pub fn answer_of(v: Vcpu, iflag: bool, shadow: bool, blocked: bool) -> Result<Presentation, Refusal>
    ensures { presented_result result ≡ answered_on (vcpu_verdict 0 0 v (Act.entry iflag shadow blocked)) (offer iflag shadow blocked v) }
{
    if let Some(presentation) = answers::answer_before(v, shadow, blocked)? {
        return Ok(presentation);
    }
    Ok(answers::answer_to(answers::candidate(v), v, iflag & !shadow))
}

// An entry on one record: what was in flight is forgotten, and what is presented is in flight (8.2 to 8.14, 8.17 to 8.19).
pub fn entry_vcpu(
    v: Vcpu,
    iflag: bool,
    shadow: bool,
    blocked: bool,
) -> Result<VcpuStepped<Presentation>, Refusal>
    ensures { entered_vcpu v result ≡ entry_on (vcpu_verdict 0 0 v (Act.entry iflag shadow blocked)) (offer iflag shadow blocked v) v }
{
    let answer = answer_of(v, iflag, shadow, blocked)?;
    let vcpu = match answer {
        Presentation::Nmi => present_nmi(v),
        Presentation::MachineCheck => present_machine_check(v),
        Presentation::Vector(x) => present_vector(v, x),
        _ => records::with_flight(v, InFlight::Nothing),
    };
    Ok(VcpuStepped { answer, vcpu })
}

// Whether an entry with IF and without shadow and NMI-blocked would present anything (8.21 to 8.23).
pub fn would_present_vcpu(v: Vcpu) -> bool
    ensures { result ≡ is_some (presented_by (answered_on (vcpu_verdict 0 0 v (Act.entry true false false)) (offer true false false v))) }
{
    matches!(
        answer_of(v, true, false, false),
        Ok(Presentation::Nmi | Presentation::MachineCheck | Presentation::Vector(_))
    )
}

// The vector moves back from the ISR to the IRR, its level mark with it (9.4 to 9.7).
#[tactic(auto, unfolding(model::specs::Events::undelivered, model::specs::Events::give_back, model::specs::Items::mark, vector_set::specs::Sets::insert))]
fn return_vector(v: Vcpu, x: u8) -> Vcpu
    ensures { result ≡ undelivered (Some (Item.Vector x)) v }
{
    let irr = vector_set::insert(v.irr, x);
    Vcpu {
        irr,
        summary: summary_after(v.summary, irr, x),
        isr: vector_set::remove(v.isr, x),
        irr_level: gain(x, v.isr_level, v.irr_level),
        isr_level: vector_set::remove(v.isr_level, x),
        flight: InFlight::Nothing,
        ..v
    }
}

// The NMI is marked again (9.3, 9.7).
#[tactic(auto, unfolding(model::specs::Events::undelivered, model::specs::Events::give_back, model::specs::Items::mark))]
fn return_nmi(v: Vcpu) -> Vcpu
    ensures { result ≡ undelivered (Some Item.Nmi) v }
{
    Vcpu {
        nmi: true,
        flight: InFlight::Nothing,
        ..v
    }
}

// The machine check is marked again (9.7, 9.9).
#[tactic(auto, unfolding(model::specs::Events::undelivered, model::specs::Events::give_back, model::specs::Items::mark))]
fn return_machine_check(v: Vcpu) -> Vcpu
    ensures { result ≡ undelivered (Some Item.MachineCheck) v }
{
    Vcpu {
        machine_check: true,
        flight: InFlight::Nothing,
        ..v
    }
}

// What a non-delivery on one record returns: refused where the vCPU is not active or nothing is in flight (9.2).
#[tactic(auto, unfolding(model::specs::Events::vcpu_verdict))]
pub fn item_to_return(v: Vcpu) -> Result<Item, Refusal>
    ensures ok { IfOk result (λ y. (vcpu_verdict 0 0 v Act.non_delivery ≡ accept) × (item_in_flight v.flight ≡ Some y)) }
    ensures err { IfErr result (λ c. vcpu_verdict 0 0 v Act.non_delivery ≡ refuse c) }
{
    let Phase::Active = v.phase else {
        return Err(Refusal::NotActive);
    };
    match v.flight {
        InFlight::Nothing => Err(Refusal::NothingInFlight),
        InFlight::Nmi => Ok(Item::Nmi),
        InFlight::MachineCheck => Ok(Item::MachineCheck),
        InFlight::Vector(x) => Ok(Item::Vector(x)),
    }
}

// The record once the item is pending again (9.3 to 9.7, 9.9).
pub fn return_item(v: Vcpu, item: Item) -> Vcpu
    ensures { result ≡ undelivered (Some item) v }
{
    match item {
        Item::Nmi => return_nmi(v),
        Item::MachineCheck => return_machine_check(v),
        Item::Vector(x) => return_vector(v, x),
    }
}

// A non-delivery on one record: what was in flight is pending again (9.2 to 9.7, 9.9).
#[tactic(auto, unfolding(vcpu::specs::Records::non_delivery_on))]
pub fn non_delivery_vcpu(v: Vcpu) -> Result<Vcpu, Refusal>
    ensures { returned_out v result ≡ non_delivery_on (vcpu_verdict 0 0 v Act.non_delivery) (item_in_flight v.flight) v }
{
    let item = item_to_return(v)?;
    Ok(return_item(v, item))
}
