// Entry and non-delivery on a module lent by `&mut`, and the question whether an entry would present anything on one lent by `&`.
#![tactic(auto)]

ghost use Rattle.std.specs.Prelude.{◌≡◌, []};
ghost use Rattle.model.specs.Events.{Act, at, step, offer, out_of, entered_out, would_present, vcpu_verdict};
ghost use Rattle.vcpu.specs.Records.{entry_on};
ghost use Rattle.vcpu_stages.specs.Stages.{shown, settled, vector_offer};
ghost use Rattle.gate_mut_entries.specs.Steps.{level_moved, vector_shown, vector_entered, entered_in};

use gate::index_of;
use model::{InFlight, Module, Presentation, Refusal, Vcpu};
use vcpu_entries::{item_to_return, return_item, would_present_vcpu};
use vcpu_stages::answers::{answer_before, answer_to, candidate, rests};
use vcpu_stages::words::{level_words_after, marks_after, words_after};
use vector_set::word_of;

// The level mark of the vector x goes with it, from its word of PL to that of SL (8.12).
fn move_level(v: &mut Vcpu, x: u8)
    ensures { v.new ≡ level_moved x v.old }
{
    let k = word_of(x);
    let words = level_words_after(x, v.irr_level[k], v.isr_level[k]);
    v.irr_level[k] = words.irr_level;
    v.isr_level[k] = words.isr_level;
}

// Kept: by value it is `present_vector` of `vcpu_entries` (13.33).
// The vector x is presented: its words, the summary of P and what is in flight are stored, and nothing else (8.11, 8.12, 8.14).
fn present(v: &mut Vcpu, x: u8)
    ensures { v.new ≡ vector_shown x v.old }
{
    let k = word_of(x);
    let words = words_after(x, v.irr[k], v.isr[k], v.summary);
    v.irr[k] = words.irr;
    v.isr[k] = words.isr;
    v.summary = words.summary;
    v.flight = InFlight::Vector(x);
    move_level(v, x);
}

// An entry that presents no vector: the marks and what is in flight are stored, where one of them changes (8.3, 8.6, 8.14, 8.15, 8.17).
fn settle(v: &mut Vcpu, presentation: Presentation)
    ensures { v.new ≡ settled presentation v.old }
{
    if let Some(marks) = marks_after(*v, presentation) {
        v.nmi = marks.nmi;
        v.machine_check = marks.machine_check;
        v.flight = marks.flight;
    }
}

// An entry where no mark is presented: P decides, as far as its summary marks it (8.8 to 8.15, 8.20). The words in service are read only where a vector
// was found. It stays a function of its own, so that an entry that finds nothing saves no register.
#[inline(never)]
fn enter_vector(v: &mut Vcpu, ready: bool) -> Presentation
    ensures { (result ≡ shown (vector_offer ready v.old)) × (v.new ≡ vector_entered ready v.old) }
{
    let answer = answer_to(candidate(*v), *v, ready);
    if let Presentation::Vector(x) = answer {
        present(v, x);
    } else {
        settle(v, answer);
    }
    answer
}

// An entry that is not known to find nothing (section 8).
fn enter(v: &mut Vcpu, iflag: bool, shadow: bool, blocked: bool) -> Result<Presentation, Refusal>
    ensures { entered_in result v.new ≡ entry_on (vcpu_verdict 0 0 v.old (Act.entry iflag shadow blocked)) (offer iflag shadow blocked v.old) v.old }
{
    if let Some(presentation) = answer_before(*v, shadow, blocked)? {
        settle(v, presentation);
        return Ok(presentation);
    }
    Ok(enter_vector(v, iflag & !shadow))
}

// An entry of the guest: what it is to be presented (section 8; 13.33). Most find nothing, and return before any store (8.24). The summary alone turns away
// one that has a vector pending.
pub fn entry_in(
    m: &mut Module,
    vcpu: u32,
    iflag: bool,
    shadow: bool,
    blocked: bool,
) -> Result<Presentation, Refusal>
    ensures { entered_out (record { answer = result; after = m.new }) ≡ step m.old (at vcpu (Act.entry iflag shadow blocked)) }
{
    let i = index_of(m, vcpu)?;
    let v = &mut m.vcpus[i];
    if v.summary == 0 && rests(*v) {
        return Ok(Presentation::Nothing);
    }
    enter(v, iflag, shadow, blocked)
}

// Whether an entry with IF and without shadow and NMI-blocked would present anything (8.21 to 8.23; 13.33).
// Kept: by value it is `gate_entries::would_present`: the gate has each event by value and on a lent module (13.33).
pub fn would_present_in(m: &Module, vcpu: u32) -> bool
    ensures { result ≡ would_present m.now vcpu }
{
    match index_of(m, vcpu) {
        Ok(i) => would_present_vcpu(m.vcpus[i]),
        Err(_) => false,
    }
}

// What the latest entry presented was not delivered (section 9; 13.33).
pub fn non_delivery_in(m: &mut Module, vcpu: u32) -> Result<u64, Refusal>
    ensures { out_of (record { answer = result; after = m.new }) [] ≡ step m.old (at vcpu Act.non_delivery) }
{
    let i = index_of(m, vcpu)?;
    let item = item_to_return(m.vcpus[i])?;
    m.vcpus[i] = return_item(m.vcpus[i], item);
    Ok(0)
}
