// An item made pending in a record.
ghost use Rattle.std.specs.Prelude.{◌≡◌, ◌<◌};
ghost use Rattle.model.specs.Items.{mark};
ghost use Rattle.ipi.specs.Posts.{posted, Posted};

use ipi::Posting;
use model::{Item, Vcpu};

// What the events in place store, applied to a copy.
pub fn post(v: Vcpu, posting: Posting) -> Vcpu
    requires { posting.word < 8 }
    ensures { (result ≡ posted posting v) × Posted posting v result }
{
    let mut w = v;
    w.irr[posting.word] |= posting.bits;
    w.summary |= ipi::summary_of(posting);
    w.nmi |= posting.nmi;
    w.machine_check |= posting.machine_check;
    w
}

// The item is pending (4.27, 4.42, 7.17).
#[tactic(auto, unfolding(model::specs::Items::mark))]
pub fn post_item(v: Vcpu, item: Item) -> Vcpu
    ensures { result ≡ mark item v }
{
    post(v, ipi::posting_of(item))
}
