// The unit as C holds it: settings, state, halves and delays, each a record of its own. Servo, table and watch lie beside it.
ghost use Rattle.std.specs.Prelude.{◌≡◌};
ghost use Rattle.door_records.specs.Unit.{chosen_in, chosen_words, own_in, watch_in, settings_in, settings_words, exchange_in, core_in, state_words, unit_words};

use crate::exchange::{DelaysWords, HalvesWords};
use numbers::units::Ppb;
use rules_delays::Delays;
use rules_exchange::Exchange;
use rules_masters::chosen::Chosen;
use rules_settings::Settings;
use rules_watch::settings::WatchSettings;
use unit_core::run::Run;
use unit_core::{Core, Domain};
use wire_layout::message::Port;

#[repr(C)]
#[derive(Clone, Copy, Default)]
pub struct ChosenWords {
    pub clock: u64,
    pub number: u16,
    pub some: u16, // a flag
    pub spare: u32,
}

#[repr(C)]
#[derive(Clone, Copy)]
pub struct SettingsWords {
    pub clock: u64, // of the own port
    pub limit: Ppb,
    pub tolerance: u32,
    pub spike: u32,
    pub jump: u32,
    pub kp: u16,
    pub ki: u16,
    pub number: u16, // of the own port
    pub domain: u8,
    pub announce: u8,
    pub sync: u8,
    pub window: u8,
    pub minimum: u8,
    pub holdoff: u8,
    pub spare: u32,
}

#[repr(C)]
#[derive(Clone, Copy)]
pub struct StateWords {
    pub now: u64,
    pub at: u64,
    pub chosen: ChosenWords,
    pub wipes: u32,
    pub sequence: u16,
    pub measured: u8, // a flag
    pub faulty: u8, // a flag
}

#[repr(C)]
#[derive(Clone, Copy)]
pub struct UnitWords {
    pub settings: SettingsWords,
    pub state: StateWords,
    pub halves: HalvesWords,
    pub delays: DelaysWords,
}

impl From<ChosenWords> for Chosen {
    ghost from_gives = { λ w c. c ≡ chosen_in w };

    fn from(w: ChosenWords) -> Chosen {
        Chosen {
            some: w.some != 0,
            sender: Port {
                clock: w.clock,
                number: w.number,
            },
        }
    }
}

impl From<Chosen> for ChosenWords {
    ghost from_gives = { λ c w. w ≡ chosen_words c };

    fn from(c: Chosen) -> ChosenWords {
        ChosenWords {
            clock: c.sender.clock,
            number: c.sender.number,
            some: c.some.into(),
            spare: 0,
        }
    }
}

impl SettingsWords {
    // The own port.
    // A method and no From, as `watch` and `exchange` are: each reads a part of the record, and its name says which.
    pub fn own(self) -> Port
        ensures { result ≡ own_in self }
    {
        Port {
            clock: self.clock,
            number: self.number,
        }
    }

    // Those of the watch.
    pub fn watch(self) -> WatchSettings
        ensures { result ≡ watch_in self }
    {
        WatchSettings {
            window: self.window,
            minimum: self.minimum,
            holdoff: self.holdoff,
            tolerance: self.tolerance,
            spike: self.spike,
            jump: self.jump,
        }
    }
}

impl From<SettingsWords> for Settings {
    ghost from_gives = { λ w s. s ≡ settings_in w };

    fn from(w: SettingsWords) -> Settings {
        Settings {
            domain: w.domain,
            own: w.own(),
            announce: w.announce,
            sync: w.sync,
            kp: w.kp,
            ki: w.ki,
            limit: w.limit,
            watch: w.watch(),
        }
    }
}

impl From<Settings> for SettingsWords {
    ghost from_gives = { λ s w. w ≡ settings_words s };

    fn from(s: Settings) -> SettingsWords {
        SettingsWords {
            clock: s.own.clock,
            limit: s.limit,
            tolerance: s.watch.tolerance,
            spike: s.watch.spike,
            jump: s.watch.jump,
            kp: s.kp,
            ki: s.ki,
            number: s.own.number,
            domain: s.domain,
            announce: s.announce,
            sync: s.sync,
            window: s.watch.window,
            minimum: s.watch.minimum,
            holdoff: s.watch.holdoff,
            spare: 0,
        }
    }
}

impl From<Core> for StateWords {
    ghost from_gives = { λ c w. w ≡ state_words c };

    fn from(c: Core) -> StateWords {
        StateWords {
            now: c.now,
            at: c.domain.run.at,
            chosen: c.domain.chosen.into(),
            wipes: c.domain.wipes,
            sequence: c.domain.sequence,
            measured: c.domain.run.measured.into(),
            faulty: c.domain.faulty.into(),
        }
    }
}

impl UnitWords {
    // The exchange, which two of the records tell.
    pub fn exchange(&self) -> Exchange
        ensures { result ≡ exchange_in self.now.halves self.now.delays }
    {
        Exchange {
            sync: self.halves.sync.into(),
            request: self.halves.request.into(),
            last: self.halves.last.into(),
            delays: Delays {
                five: self.delays.five,
                count: self.delays.count,
                used: self.delays.used,
            },
            huge: self.delays.huge,
            path: self.delays.path,
        }
    }
}

impl From<UnitWords> for Core {
    ghost from_gives = { λ w c. c ≡ core_in w };

    fn from(w: UnitWords) -> Core {
        Core {
            settings: w.settings.into(),
            now: w.state.now,
            domain: Domain {
                chosen: w.state.chosen.into(),
                run: Run {
                    exchange: w.exchange(),
                    measured: w.state.measured != 0,
                    at: w.state.at,
                },
                wipes: w.state.wipes,
                faulty: w.state.faulty != 0,
                sequence: w.state.sequence,
            },
        }
    }
}

impl From<Core> for UnitWords {
    ghost from_gives = { λ c w. w ≡ unit_words c };

    fn from(c: Core) -> UnitWords {
        UnitWords {
            settings: c.settings.into(),
            state: c.into(),
            halves: c.domain.run.exchange.into(),
            delays: c.domain.run.exchange.into(),
        }
    }
}
