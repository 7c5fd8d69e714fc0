// What a notice adds to a record, and what it counts.
ghost use Rattle.std.specs.Prelude.{◌≡◌, ◌<◌};
ghost use Rattle.std.specs.Int.Bits.{bit_or};
ghost use Rattle.vector_set.specs.Summaries.{summary_of};
ghost use Rattle.ipi.specs.Posts.{counts_of};
ghost use Rattle.vcpu.specs.Notices.{request_added, marks_added, marks_counted};

use crate::items;
use ipi::Posting;
use model::{Counts, Vcpu};

// The record with what a notice asks for beside its marks (4.25 to 4.28, 4.42).
pub fn add_request(v: Vcpu, posting: Posting, level: u32) -> Vcpu
    requires { posting.word < 8 }
    ensures { result ≡ request_added posting level v }
{
    let mut w = items::post(v, posting);
    w.irr_level[posting.word] |= level;
    w
}

// The summary of P once the marked vectors are added (2.21).
#[tactic(auto, unfolding(vector_set::specs::Summaries::summary_of))]
pub fn mark_words(summary: u8, edge: [u32; 8]) -> u8
    ensures { result ≡ bit_or summary (summary_of edge) }
{
    summary | vector_set_search::summary_of(edge)
}

// The record with the marked vectors (4.28).
pub fn add_marks(v: Vcpu, edge: [u32; 8]) -> Vcpu
    ensures { result ≡ marks_added edge v }
{
    Vcpu {
        irr: vector_set_algebra::union(v.irr, edge),
        summary: mark_words(v.summary, edge),
        ..v
    }
}

// The marked vectors are counted with the posting that was made to the word and the marks (4.29, 4.37).
pub fn count_marks(
    posting: Posting,
    word: u32,
    nmi: bool,
    machine_check: bool,
    edge: [u32; 8],
    irr: [u32; 8],
) -> Counts
    ensures { result ≡ marks_counted (counts_of posting word nmi machine_check) edge irr }
{
    let c = ipi::counts_of(posting, word, nmi, machine_check);
    let more = vector_set_algebra::difference(edge, irr);
    let again = vector_set_algebra::intersection(edge, irr);
    let new = c.new + vector_set_search::count_of(more);
    let merged = c.merged + vector_set_search::count_of(again);
    Counts { new, merged }
}
