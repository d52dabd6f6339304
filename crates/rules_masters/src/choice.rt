// The choice of the master: place by place, the qualified ones only, each that is better taking over from the one held (rule 5.11).
ghost use Rattle.std.specs.Prelude.{◌≡◌};
ghost use Rattle.rules_masters.specs.Holding.{chosen_at};
ghost use Rattle.rules_masters.specs.Inner.{taken_over, kept_of, last_in, best_of};

use crate::candidate::Candidate;
use crate::chosen::Chosen;
use crate::comparison::better;
use crate::moment::Moment;
use crate::table::Table;

// A qualified one takes over where it is better than the one held, or none is held yet.
fn takes_over(held: &Option<Candidate>, next: Candidate) -> bool
    ensures { result ≡ taken_over held.now next }
{
    match *held {
        None => true,
        Some(held) => better(next, held),
    }
}

// One step of the choice, where the one held lies: only one that takes over is copied.
#[tactic(auto, unfolding(crate::specs::Inner::kept_of))]
pub fn meet(held: &mut Option<Candidate>, next: Option<Candidate>)
    ensures { held.new ≡ kept_of held.old next }
{
    if let Some(next) = next {
        if takes_over(held, next) {
            *held = Some(next);
        }
    }
}

fn keep(mut held: Option<Candidate>, next: Option<Candidate>) -> Option<Candidate>
    ensures { result ≡ kept_of held next }
{
    meet(&mut held, next);
    held
}

// The master that the one held after the last step is, or none.
pub fn chosen(held: &Option<Candidate>) -> Chosen
    ensures { result ≡ last_in held.now }
{
    match *held {
        Some(last) => Chosen {
            some: true,
            sender: last.nearness.sender,
        },
        None => Chosen::fresh(),
    }
}

// Of five in table order, made anew from the first on.
pub fn best(candidates: &[Option<Candidate>; 5]) -> Chosen
    ensures { result ≡ best_of candidates.now }
{
    chosen(&candidates.iter().fold(None, |held, next| keep(held, *next)))
}

// The master that the choice at `now` gives over this table; a is the announce exponent.
pub fn chosen_at(table: &Table, now: u64, a: u8) -> Chosen
    ensures { result ≡ chosen_at table.now.records now a }
{
    best(&table.candidates(Moment::of(now, a)))
}
