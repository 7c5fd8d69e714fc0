// What an entry changes of a record, as it is stored in place: marks and what is in flight, or the words of one vector.
ghost use Rattle.std.specs.Prelude.{◌≡◌};
ghost use Rattle.vcpu_stages.specs.Stages.{marks_after, words_after, level_words_after};

use model::{InFlight, Presentation, Vcpu};
use vector_set::{bit_of, word_of};

// The marks and what is in flight after an entry that presents no vector.
#[derive(Clone, Copy)]
pub struct Marks {
    pub nmi: bool,
    pub machine_check: bool,
    pub flight: InFlight,
}

// The words of a vector in P and S, and the summary of P, once it is presented.
#[derive(Clone, Copy)]
pub struct Words {
    pub irr: u32,
    pub isr: u32,
    pub summary: u8,
}

// Its words in PL and SL.
#[derive(Clone, Copy)]
pub struct LevelWords {
    pub irr_level: u32,
    pub isr_level: u32,
}

// An entry that presents no vector, but may have presented the NMI or the machine check; `None` where it changes nothing (8.3, 8.6, 8.14, 8.15, 8.17).
#[tactic(auto, unfolding(crate::specs::Stages::marks_after))]
pub fn marks_after(v: Vcpu, presentation: Presentation) -> Option<Marks>
    ensures { result ≡ marks_after presentation v }
{
    let marks = Marks {
        nmi: v.nmi,
        machine_check: v.machine_check,
        flight: InFlight::Nothing,
    };
    match (presentation, v.flight) {
        (Presentation::Nmi, _) => Some(Marks {
            nmi: false,
            flight: InFlight::Nmi,
            ..marks
        }),
        (Presentation::MachineCheck, _) => Some(Marks {
            machine_check: false,
            flight: InFlight::MachineCheck,
            ..marks
        }),
        (_, InFlight::Nothing) => None,
        _ => Some(marks),
    }
}

// The vector x leaves its word of P for that of S (8.11).
#[tactic(auto, unfolding(crate::specs::Stages::words_after))]
pub fn words_after(x: u8, irr: u32, isr: u32, summary: u8) -> Words
    ensures { result ≡ words_after x irr isr summary }
{
    let left = irr & !bit_of(x);
    Words {
        irr: left,
        isr: isr | bit_of(x),
        summary: vector_set_search::with_word(summary, word_of(x), left),
    }
}

// Its level mark goes with it (8.12).
#[tactic(auto, unfolding(crate::specs::Stages::level_words_after))]
pub fn level_words_after(x: u8, irr_level: u32, isr_level: u32) -> LevelWords
    ensures { result ≡ level_words_after x irr_level isr_level }
{
    LevelWords {
        irr_level: irr_level & !bit_of(x),
        isr_level: isr_level | (irr_level & bit_of(x)),
    }
}
