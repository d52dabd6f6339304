// The place that five standings give an Announce, or the refusal.
ghost use Rattle.std.specs.Prelude.{◌≡◌, ◌<◌, not, position, IfOk, IfSome};
ghost use Rattle.rules_masters.specs.Inner.{place_in, seat_of};

use crate::admission::Entry;
use crate::standing::Standing;
use numbers::refusal::Refusal;

// The place of the sender's live record.
fn home(standings: &[Standing; 5]) -> Option<usize>
    ensures value { result ≡ position (λ s. s.known) standings.now }
    ensures within { IfSome result (λ at. at < 5) }
{
    standings.iter().position(|s| s.known)
}

// The first place that is not live.
fn free(standings: &[Standing; 5]) -> Option<usize>
    ensures value { result ≡ position (λ s. not s.live) standings.now }
    ensures within { IfSome result (λ at. at < 5) }
{
    standings.iter().position(|s| !s.live)
}

// The five in table order: the sender's live record is renewed; a new sender takes the first place that is not live.
pub fn seat(standings: &[Standing; 5]) -> Result<Entry, Refusal>
    ensures value { result ≡ seat_of standings.now }
    ensures within { IfOk result (λ e. place_in e < 5) }
{
    match home(standings) {
        Some(at) if standings[at].repeats => Err(Refusal::Repeat),
        Some(at) => Ok(Entry::Renewed(at)),
        None => match free(standings) {
            Some(at) => Ok(Entry::Entered(at)),
            None => Err(Refusal::Full),
        },
    }
}
