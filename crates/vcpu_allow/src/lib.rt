// A list of ECX values on the allowed set of one vCPU, each as call 4 takes it.
#![tactic(auto)]

ghost use Rattle.std.specs.Prelude.{◌≡◌, Ok, ◌≤◌, length};
ghost use Rattle.model.specs.Codes.{accept};
ghost use Rattle.vcpu.specs.Records.{page_on};
ghost use Rattle.vcpu_allow.specs.Values.{value_code, permitted_word, list_verdict, codes_in, listed_on};

use model::{Phase, Refusal};
use requests::ALLOW_BIT;
use vector_set::{bit_of, word_of};

// The values that a list has at most (5.26).
pub const MOST_VALUES: usize = 256;

// The code of one value (5.17, 5.18, 5.29).
// Kept: a number, 0 where the value is accepted, since the second list holds it so.
#[tactic(auto, unfolding(crate::specs::Values::value_code))]
fn value_code(ecx: u32) -> u32
    ensures { result ≡ value_code ecx }
{
    if requests::is_nameable(ecx) {
        0
    } else {
        gate::code(Refusal::BadParameter)
    }
}

// The word of the value's vector, with the vector put in or taken out (5.16).
#[tactic(auto, unfolding(crate::specs::Values::permitted_word))]
fn permit_word(word: u32, ecx: u32) -> u32
    ensures { result ≡ permitted_word ecx word }
{
    let bit = bit_of((ecx % 256) as u8);
    if (ecx >> ALLOW_BIT) % 2 == 1 {
        word | bit
    } else {
        word & !bit
    }
}

// A list that is taken: each value in order, with a code for each, those behind a refused one too. The set is changed word by word; `None` where no value
// was accepted.
// Kept: `codes[k]` beside `enumerate`: with `zip` of the two lists some twenty goals on the iterator are left.
fn permit_all(values: &[u32], codes: &mut [u32], allowed: [u32; 8]) -> Option<[u32; 8]>
    requires { length values.now ≤ length codes.old }
    ensures { (Ok result ≡ listed_on accept values.now allowed)
        × (codes.new ≡ codes_in values.now codes.old) }
{
    let mut set = allowed;
    let mut accepts = false;
    for (k, ecx) in values.iter().enumerate() {
        let code = value_code(*ecx);
        codes[k] = code;
        if code == 0 {
            let w = word_of((ecx % 256) as u8);
            set[w] = permit_word(set[w], *ecx);
            accepts = true;
        }
    }
    accepts.then_some(set)
}

// Kept: a list and its codes as two parameters, here and in the gates: one is read and the other written, each of its own length.
// A list for a vCPU in the phase, with the set allowed: the set after it, where a value was accepted. The code of each value goes to the second list, whose
// entries past the count stay.
#[tactic(auto, unfolding(crate::specs::Values::list_verdict, model::specs::Events::list_fits, vcpu::specs::Records::page_on))]
pub fn allow_values(
    values: &[u32],
    codes: &mut [u32],
    phase: Phase,
    allowed: [u32; 8],
) -> Result<Option<[u32; 8]>, Refusal>
    ensures { (result ≡ listed_on (list_verdict phase values.now codes.old) values.now allowed)
        × (codes.new ≡ page_on (list_verdict phase values.now codes.old)
        (codes_in values.now codes.old) codes.old) }
{
    let Phase::Active = phase else {
        return Err(Refusal::NotActive);
    };
    if MOST_VALUES < values.len() || codes.len() < values.len() {
        return Err(Refusal::BadList);
    }
    Ok(permit_all(values, codes, allowed))
}
