// The unit whole: its core with its servo, its table of masters and its watch. One step for each call.
#![tactic(auto)]

ghost use Rattle.std.specs.Prelude.{◌≡◌, length};
ghost use Rattle.unit_measuring.specs.Frame.{frame_after};
ghost use Rattle.unit.specs.Calls.{fresh_unit, stepped_after, receive_of, step_of};

use numbers::stamp::Stamp;
use rules_masters::record::Announce;
use rules_masters::table::Table;
use rules_servo::Servo;
use rules_settings::Settings;
use rules_watch::Watch;
use unit_choosing::{announce, time};
use unit_core::calls::{Answer, Call};
use unit_core::run::Fresh;
use unit_core::{Core, Moved};
use unit_measuring::asking::{request, sent};
use unit_measuring::frame;
use unit_measuring::hearing::heard;
use unit_ticking::{line, tick};
use wire_layout::message::{Body, Message};

#[derive(Clone, Copy)]
pub struct Unit {
    pub core: Core,
    pub servo: Servo,
    pub table: Table,
    pub watch: Watch,
}

#[derive(Clone, Copy)]
pub struct Stepped {
    pub answer: Answer,
    pub unit: Unit,
}

impl Unit {
    pub fn fresh(settings: Settings) -> Unit
        ensures { result ≡ fresh_unit settings }
    {
        Unit {
            core: Core::fresh(settings),
            servo: Fresh::with(settings.kp, settings.ki).servo,
            table: Table::fresh(),
            watch: Watch::fresh(),
        }
    }

    // Core and servo as a call left them, and a fresh watch where it wiped.
    fn after(mut self, moved: Moved) -> Stepped
        ensures { result ≡ stepped_after self moved }
    {
        self.core = moved.core;
        self.servo = moved.servo;
        if moved.wipes {
            self.watch.empty();
        }
        Stepped {
            answer: moved.answer,
            unit: self,
        }
    }

    // A call that changes nothing.
    fn says(self, answer: Answer) -> Stepped
        ensures { result ≡ record { answer = answer; unit = self } }
    {
        Stepped { answer, unit: self }
    }

    // A read message: an Announce is handed over with the table.
    fn receive(mut self, now: u64, arrival: Stamp, m: Message) -> Stepped
        ensures { result ≡ receive_of self now arrival m }
    {
        match m.body {
            Body::Announce(stamp, offer) => {
                let m = Announce {
                    header: m.header,
                    stamp,
                    offer,
                };
                let seated = announce(self.core, self.servo, self.table, now, m);
                self.table = seated.table;
                self.after(seated.moved)
            }
            _ => self.after(heard(self.core, self.servo, now, arrival, m)),
        }
    }

    // A second pulse.
    fn pulse(mut self, reference: i64, clock: i64) -> Stepped
        ensures { result ≡ step_of self (Call.Tick reference clock) }
    {
        let ticked = tick(self.core, self.servo, self.watch, reference, clock);
        self.watch = ticked.watch;
        self.after(ticked.moved)
    }

    // Any call, in any state.
    pub fn step(self, call: Call) -> Stepped
        ensures { result ≡ step_of self call }
    {
        match call {
            Call::Receive(now, arrival, m) => self.receive(now, arrival, m),
            Call::Request(now, room) => self.after(request(self.core, self.servo, now, room)),
            Call::Sent(now, sequence, t3) => {
                self.after(sent(self.core, self.servo, now, sequence, t3))
            }
            Call::Time(now) => self.after(time(self.core, self.servo, self.table, now)),
            Call::Reset => self.after(self.core.reset()),
            Call::Tick(reference, clock) => self.pulse(reference, clock),
            Call::Line => self.says(line(self.core, self.watch)),
            Call::Show => self.says(self.core.show(self.servo)),
        }
    }
}

// The request into a lent frame: the unit's own Delay_Req is put behind the Ethernet header, or nothing is touched.
pub fn request_into(unit: Unit, time: u64, frame: &mut [u8]) -> Stepped
    ensures value { result ≡ step_of unit (Call.Request time (length frame.old)) }
    ensures frame_after { frame.new ≡ frame_after unit.core time frame.old }
{
    unit.after(frame::request_into(unit.core, unit.servo, time, frame))
}
