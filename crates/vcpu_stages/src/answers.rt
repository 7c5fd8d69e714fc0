// What an entry answers, in the order in which it asks: first the phase and the marks, then P, as far as its summary marks it.
ghost use Rattle.std.specs.Prelude.{◌≡◌};
ghost use Rattle.vector_set.specs.Sets.{highest};
ghost use Rattle.vector_set.specs.Summaries.{in_marked};
ghost use Rattle.model.specs.Registers.{ppr};
ghost use Rattle.model.specs.Events.{offer_highest};
ghost use Rattle.vcpu_stages.specs.Stages.{answer_before, shown, rests_on};

use model::{InFlight, Phase, Presentation, Refusal, Vcpu};

// What an entry answers without a look at P: a refusal, the machine check before all else, which nothing holds back, or the NMI; `None` where P
// decides (8.2, 8.6, 8.7, 8.17, 8.18).
#[tactic(auto, unfolding(crate::specs::Stages::answer_before))]
pub fn answer_before(v: Vcpu, shadow: bool, blocked: bool) -> Result<Option<Presentation>, Refusal>
    ensures { result ≡ answer_before shadow blocked v }
{
    let Phase::Active = v.phase else {
        return Err(Refusal::NotActive);
    };
    if v.machine_check {
        return Ok(Some(Presentation::MachineCheck));
    }
    if v.nmi && !shadow && !blocked {
        return Ok(Some(Presentation::Nmi));
    }
    Ok(None)
}

// The highest pending vector in a marked word (8.20).
#[tactic(auto, unfolding(vector_set::specs::Sets::highest, vector_set::specs::Summaries::in_marked))]
pub fn candidate(v: Vcpu) -> Option<u8>
    ensures { result ≡ highest (in_marked v.summary v.irr) }
{
    vector_set_search::highest_marked(v.irr, v.summary).found
}

// The answer for that vector, where it is above the processor priority (8.8 to 8.13).
#[tactic(auto, unfolding(model::specs::Events::offer_highest, model::specs::Registers::ppr))]
pub fn answer_to(found: Option<u8>, v: Vcpu, ready: bool) -> Presentation
    ensures { result ≡ shown (offer_highest ready (ppr v) found) }
{
    let Some(vector) = found else {
        return Presentation::Nothing;
    };
    if vector / 16 <= apic::ppr(v.tpr, v.isr) / 16 {
        return Presentation::Nothing;
    }
    if ready {
        return Presentation::Vector(vector);
    }
    Presentation::Window(vector)
}

// An entry changes nothing and presents nothing: the vCPU is active, no item is in flight, no mark is set and no word is marked (8.24).
#[tactic(auto, unfolding(crate::specs::Stages::rests_on))]
pub fn rests(v: Vcpu) -> bool
    ensures { result ≡ rests_on v }
{
    let (Phase::Active, InFlight::Nothing) = (v.phase, v.flight) else {
        return false;
    };
    v.summary == 0 && !(v.nmi | v.machine_check)
}
