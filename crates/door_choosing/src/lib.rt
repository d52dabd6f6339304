// The steps of the door that choose, for an Announce and the bare time call: the one record to be stored, and what is chosen over the five.
#![tactic(auto)]

ghost use Rattle.std.specs.Prelude.{◌≡◌, ◌<◌, cond, eqb, IfOk, [], ◌∷◌, set, length};
ghost use Rattle.rules_masters.specs.Inner.{place_in, candidate_of, best_of};
ghost use Rattle.door_records.specs.Masters.{record_in};
ghost use Rattle.door_choosing.specs.Choosing.{announce_in, looked_of, candidates_of, placed_of, held_of, announced_of, passed_of, untabled_of};

use door_core::wiping::wipe;
use door_records::masters::MasterWords;
use door_records::unit::{ChosenWords, SettingsWords, StateWords};
use door_words::answers::AnswerWords;
use door_words::messages::offer_in;
use numbers::refusal::Refusal;
use rules_masters::admission::{Entry, barred};
use rules_masters::candidate::Candidate;
use rules_masters::choice::{chosen, meet};
use rules_masters::chosen::Chosen;
use rules_masters::moment::Moment;
use rules_masters::record::{Announce, Record};
use rules_masters::seats::seat;
use rules_masters::standing::Standing;
use unit_choosing::time_barred;
use wire_layout::message::{Header, Message};

// What the choice leaves. The state is there whether it wipes or not: what else a wipe empties is the caller's.
#[derive(Clone, Copy)]
pub struct Held {
    pub answer: AnswerWords,
    pub state: StateWords,
    pub wipes: bool,
}

// What an Announce leaves: the record to be stored at this place of the table, and what is chosen then.
#[derive(Clone, Copy)]
pub struct Seated {
    pub at: usize,
    pub stored: MasterWords,
    pub held: Held,
}

// The answer where the table is not of five.
pub fn untabled() -> AnswerWords
    ensures { result ≡ untabled_of }
{
    Refusal::Settings.into()
}

fn announce_in(m: Message) -> Announce
    ensures { result ≡ announce_in m }
{
    Announce {
        header: m.header,
        stamp: m.body.stamp(),
        offer: offer_in(m.body),
    }
}

// What an Announce asks of one record: for its place, and for the choice.
#[derive(Clone, Copy)]
pub struct Looked {
    pub standing: Standing,
    pub candidate: Option<Candidate>,
}

// Each record is read once.
pub fn look(r: MasterWords, heard: &Header, at: Moment) -> Looked
    ensures { result ≡ looked_of heard.now at.now at.interval (record_in r) }
{
    let record = Record::from(r);
    Looked {
        standing: record.stands(heard, at),
        candidate: record.candidate(at),
    }
}

// What the bare time call asks of it.
pub fn candidate(r: MasterWords, at: Moment) -> Option<Candidate>
    ensures { result ≡ candidate_of at.now at.interval (record_in r) }
{
    Record::from(r).candidate(at)
}

// At the place that was stored the new one, at any other the one that was read.
fn pick(
    at: usize,
    place: usize,
    new: Option<Candidate>,
    old: Option<Candidate>,
) -> Option<Candidate>
    ensures { result ≡ cond (eqb at place) new old }
{
    if at == place { new } else { old }
}

// The choice over the five that were looked at, with the new one at its place. The five are met one by one, and neither a list nor an array is made of
// them: a candidate that may be none is written and copied with the octets between its fields (docs/DECISIONS.md, "The five at the door").
fn best_stored(
    at: usize,
    new: Option<Candidate>,
    a: Looked,
    b: Looked,
    c: Looked,
    d: Looked,
    e: Looked,
) -> Chosen
    requires { at < 5 }
    ensures { result ≡ best_of (set (a.candidate ∷ b.candidate ∷ c.candidate ∷ d.candidate ∷ e.candidate ∷ []) at new) }
{
    let mut held = None;
    meet(&mut held, pick(at, 0, new, a.candidate));
    meet(&mut held, pick(at, 1, new, b.candidate));
    meet(&mut held, pick(at, 2, new, c.candidate));
    meet(&mut held, pick(at, 3, new, d.candidate));
    meet(&mut held, pick(at, 4, new, e.candidate));
    chosen(&held)
}

// The choice over the lent table as it lies.
fn best_over(table: &[MasterWords; 5], at: Moment) -> Chosen
    ensures { result ≡ best_of (candidates_of table.now at.now at.interval) }
{
    let [a, b, c, d, e] = table;
    let mut held = None;
    meet(&mut held, candidate(*a, at));
    meet(&mut held, candidate(*b, at));
    meet(&mut held, candidate(*c, at));
    meet(&mut held, candidate(*d, at));
    meet(&mut held, candidate(*e, at));
    chosen(&held)
}

// The record of the place: renewed where it is the sender's, else a new one.
fn placed(table: &[MasterWords; 5], entry: Entry, heard: Announce, now: u64) -> Record
    requires { place_in entry < 5 }
    ensures { result ≡ placed_of table.now heard now entry }
{
    match entry {
        Entry::Renewed(place) => Record::from(table[place]).renewed(heard, now),
        Entry::Entered(_) => Record::entered(heard, now),
    }
}

// This master, or none, is chosen. A new or lost one wipes.
#[tactic(auto, unfolding(crate::specs::Choosing::held_of))]
fn hold(mut t: StateWords, now: u64, chosen: Chosen) -> Held
    ensures { result ≡ held_of t now chosen }
{
    let decision = Chosen::from(t.chosen).decide(chosen);
    let answer = AnswerWords::from(decision);
    t.now = now;
    t.chosen = ChosenWords::from(chosen);
    let wipes = decision.wipes();
    Held {
        answer,
        state: if wipes { wipe(t) } else { t },
        wipes,
    }
}

// An Announce, told by its message: refused, for a table that is not of five too, or seated.
pub fn announce(
    s: SettingsWords,
    t: StateWords,
    table: &[MasterWords],
    m: Message,
    now: u64,
) -> Result<Seated, Refusal>
    ensures value { result ≡ announced_of s t table.now m now }
    ensures within { IfOk result (λ q. q.at < length table.now) }
{
    let five: &[MasterWords; 5] = table.as_array().ok_or(Refusal::Settings)?;
    let heard = announce_in(m);
    barred(heard, s.domain, s.own(), t.now, now)?;
    let at = Moment::of(now, s.announce);
    let [a, b, c, d, e] = five;
    let a = look(*a, &m.header, at);
    let b = look(*b, &m.header, at);
    let c = look(*c, &m.header, at);
    let d = look(*d, &m.header, at);
    let e = look(*e, &m.header, at);
    let entry = seat(&[a.standing, b.standing, c.standing, d.standing, e.standing])?;
    let record = placed(five, entry, heard, now);
    let place = entry.place();
    let best = best_stored(place, record.candidate(at), a, b, c, d, e);
    Ok(Seated {
        at: place,
        stored: record.into(),
        held: hold(t, now, best),
    })
}

// The bare time call: refused, for a table that is not of five too, or chosen anew.
pub fn pass(
    s: SettingsWords,
    t: StateWords,
    table: &[MasterWords],
    now: u64,
) -> Result<Held, Refusal>
    ensures { result ≡ passed_of s t table.now now }
{
    let five: &[MasterWords; 5] = table.as_array().ok_or(Refusal::Settings)?;
    time_barred(t.now, now)?;
    let at = Moment::of(now, s.announce);
    Ok(hold(t, now, best_over(five, at)))
}
