// A record with one of its fields changed.
ghost use Rattle.std.specs.Prelude.{◌≡◌};
ghost use Rattle.model.specs.State.{with_phase, with_flight};

use model::{InFlight, Phase, Vcpu};

pub fn with_flight(v: Vcpu, flight: InFlight) -> Vcpu
    ensures { result ≡ with_flight flight v }
{
    Vcpu { flight, ..v }
}

pub fn with_phase(v: Vcpu, phase: Phase) -> Vcpu
    ensures { result ≡ with_phase phase v }
{
    Vcpu { phase, ..v }
}
