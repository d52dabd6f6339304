// The calls that a unit takes, and its answers.
use numbers::refusal::Refusal;
use numbers::stamp::Stamp;
use numbers::units::Ppb;
use rules_exchange::said::Said;
use rules_masters::chosen::{Chosen, Decision};
use rules_servo::shown::Shown;
use rules_watch::Pulse;
use rules_watch::totals::Line;
use wire_layout::message::Message;

#[derive(Clone, Copy)]
pub enum Call {
    Receive(u64, Stamp, Message), // now, the stamp of its arrival, a read message
    Request(u64, usize), // now, the octets of the lent frame
    Sent(u64, u16, Stamp), // now, the request's sequenceId, t3
    Time(u64), // now
    Reset,
    Tick(i64, i64), // the second pulse's two stamps: reference, clock
    Line,
    Show,
}

// What the port shows, by its number at the door.
#[derive(Clone, Copy)]
pub enum PortState {
    Faulty = 0,
    Listening = 1,
    Uncalibrated = 2,
    Slave = 3,
}

#[derive(Clone, Copy)]
pub struct Shows {
    pub port: PortState,
    pub servo: Shown,
    pub output: Ppb,
    pub now: u64,
    pub master: Chosen,
    pub wipes: u32,
    pub sequence: u16, // of the next request
}

// The answers of the choice, of the exchange and of the watch are one case each. Which of them wipe is said in specs/Answers.antt.
#[derive(Clone, Copy)]
pub enum Answer {
    Refused(Refusal), // one of the cases: whatever is asked of a list of calls is one answer for each
    Choice(Decision), // of an Announce, or of a time call
    Exchange(Said, Ppb), // with the output that is set after it
    Watch(Pulse),
    Wiped, // the operator's reset
    Line(Line, u32), // with the wipe count
    Shows(Shows),
}
