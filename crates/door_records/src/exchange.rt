// The exchange as C holds it, in two records: the halves with the last stamp, which most calls touch, and the delays.
ghost use Rattle.std.specs.Prelude.{◌≡◌};
ghost use Rattle.door_records.specs.Unit.{sync_in, sync_words, request_in, request_words, last_in, last_words, halves_words, delays_words};

use crate::stamp::StampWords;
use numbers::stamp::Stamp;
use rules_exchange::halves::{Request, Sync};
use rules_exchange::{Exchange, Last};

#[repr(C)]
#[derive(Clone, Copy)]
pub struct SyncWords {
    pub t1: StampWords,
    pub t2: StampWords,
    pub correction: i64,
    pub follow: i64,
    pub sequence: u16,
    pub held: u8, // a flag
    pub known: u8, // a flag
    pub spare: u32,
}

#[repr(C)]
#[derive(Clone, Copy)]
pub struct RequestWords {
    pub t3: StampWords,
    pub sequence: u16,
    pub pending: u8, // a flag
    pub given: u8, // a flag
    pub spare: u32,
}

#[repr(C)]
#[derive(Clone, Copy)]
pub struct LastWords {
    pub seconds: u64,
    pub nanoseconds: u32,
    pub taken: u32, // a flag
}

#[repr(C)]
#[derive(Clone, Copy)]
pub struct HalvesWords {
    pub sync: SyncWords,
    pub request: RequestWords,
    pub last: LastWords,
}

#[repr(C)]
#[derive(Clone, Copy)]
pub struct DelaysWords {
    pub five: [u32; 5],
    pub used: u32,
    pub count: u8,
    pub huge: u8,
    pub path: u8,
    pub gap: u8,
    pub spare: u32,
}

impl From<SyncWords> for Sync {
    ghost from_gives = { λ w s. s ≡ sync_in w };

    fn from(w: SyncWords) -> Sync {
        Sync {
            held: w.held != 0,
            known: w.known != 0,
            sequence: w.sequence,
            t1: w.t1.into(),
            t2: w.t2.into(),
            correction: w.correction,
            follow: w.follow,
        }
    }
}

impl From<Sync> for SyncWords {
    ghost from_gives = { λ s w. w ≡ sync_words s };

    fn from(s: Sync) -> SyncWords {
        SyncWords {
            t1: s.t1.into(),
            t2: s.t2.into(),
            correction: s.correction,
            follow: s.follow,
            sequence: s.sequence,
            held: s.held.into(),
            known: s.known.into(),
            spare: 0,
        }
    }
}

impl From<RequestWords> for Request {
    ghost from_gives = { λ w q. q ≡ request_in w };

    fn from(w: RequestWords) -> Request {
        Request {
            pending: w.pending != 0,
            given: w.given != 0,
            sequence: w.sequence,
            t3: w.t3.into(),
        }
    }
}

impl From<Request> for RequestWords {
    ghost from_gives = { λ q w. w ≡ request_words q };

    fn from(q: Request) -> RequestWords {
        RequestWords {
            t3: q.t3.into(),
            sequence: q.sequence,
            pending: q.pending.into(),
            given: q.given.into(),
            spare: 0,
        }
    }
}

impl From<LastWords> for Last {
    ghost from_gives = { λ w l. l ≡ last_in w };

    fn from(w: LastWords) -> Last {
        Last {
            taken: w.taken != 0,
            stamp: Stamp {
                seconds: w.seconds,
                nanoseconds: w.nanoseconds,
            },
        }
    }
}

impl From<Last> for LastWords {
    ghost from_gives = { λ l w. w ≡ last_words l };

    fn from(l: Last) -> LastWords {
        LastWords {
            seconds: l.stamp.seconds,
            nanoseconds: l.stamp.nanoseconds,
            taken: l.taken.into(),
        }
    }
}

impl From<Exchange> for HalvesWords {
    ghost from_gives = { λ x w. w ≡ halves_words x };

    fn from(x: Exchange) -> HalvesWords {
        HalvesWords {
            sync: x.sync.into(),
            request: x.request.into(),
            last: x.last.into(),
        }
    }
}

impl From<Exchange> for DelaysWords {
    ghost from_gives = { λ x w. w ≡ delays_words x };

    fn from(x: Exchange) -> DelaysWords {
        let five = x.delays.five; // by itself: an array that is stored straight from a field gets no proof
        DelaysWords {
            five,
            used: x.delays.used,
            count: x.delays.count,
            huge: x.huge,
            path: x.path,
            gap: 0,
            spare: 0,
        }
    }
}
