// An event of the trace becomes the call of the method that plays it.
use crate::Play;
use console::{Answer, Parts, blank_codes, first, first_mut};
use model::Refusal;
use trace::Event;

// Plays an event, and lends it its page or its lists.
pub(crate) fn play<P: Play>(
    played: &mut P,
    parts: &mut Parts,
    event: Event,
) -> Result<Answer, Refusal> {
    match event {
        Event::Notice { vcpu, length } => {
            let page = first_mut(&mut parts.page, length);
            Ok(Answer::Counts(played.notice(vcpu, page)?))
        }
        Event::HandBack {
            vcpu,
            iflag,
            shadow,
            length,
        } => {
            let page = first_mut(&mut parts.page, length);
            Ok(Answer::Number(played.hand_back(vcpu, page, iflag, shadow)?))
        }
        Event::Allow {
            vcpu,
            count,
            length,
            fill,
        } => {
            let values = first(&parts.values, count);
            let codes = blank_codes(&mut parts.codes, length, fill);
            Ok(Answer::Number(played.allow(vcpu, values, codes)?))
        }
        _ => play_plain(played, event),
    }
}

// Plays an event that has neither page nor lists. The rest changes nothing: what is no event, `state`, and what `play` keeps for itself.
fn play_plain<P: Play>(played: &mut P, event: Event) -> Result<Answer, Refusal> {
    Ok(match event {
        Event::Start { n, vmpl } => Answer::Number(played.start(n, vmpl)?),
        Event::Call {
            vcpu,
            call,
            ecx,
            rdx,
        } => Answer::Number(played.call(vcpu, call, ecx, rdx)?),
        Event::Entry {
            vcpu,
            iflag,
            shadow,
            blocked,
        } => Answer::Presentation(played.entry(vcpu, iflag, shadow, blocked)?),
        Event::NonDelivery { vcpu } => Answer::Number(played.non_delivery(vcpu)?),
        Event::Ask { vcpu } => Answer::Asked(played.would_present(vcpu)),
        _ => Answer::Nothing,
    })
}
