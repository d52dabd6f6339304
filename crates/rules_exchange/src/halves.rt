// The two halves of a measurement: the Sync that is held and the request that is pending.
ghost use Rattle.std.specs.Prelude.{◌≡◌};
ghost use Rattle.rules_exchange.specs.Halves.{fresh_sync, fresh_request, as_sync, heard};
ghost use Rattle.rules_exchange.specs.Inner.{sync_waits_for, sync_complete, request_waits_for, request_complete};

use numbers::stamp::Stamp;

// The Sync held, if any. Corrections stay uncut, in 1/65,536 ns.
// `held` and `known` stay flags beside their values: what C's octets hold under a flag of 0 is read and written back as it lies
// (sinezhab_receive, sinezhab_sent).
#[repr(C)]
#[derive(Clone, Copy, Default)]
pub struct Sync {
    pub held: bool,
    pub known: bool, // t1 is
    pub sequence: u16,
    pub t1: Stamp,
    pub t2: Stamp,
    pub correction: i64,
    pub follow: i64, // the Follow_Up's correction
}

// The request pending, if any. `pending` and `given` stay flags for the same reason.
#[repr(C)]
#[derive(Clone, Copy, Default)]
pub struct Request {
    pub pending: bool,
    pub given: bool, // t3 is
    pub sequence: u16,
    pub t3: Stamp,
}

impl Sync {
    // None held.
    pub fn fresh() -> Sync
        ensures { result ≡ fresh_sync }
    {
        Sync::default()
    }

    // A Sync that came, its correction uncut. A two-step one has no t1 yet.
    pub(crate) fn heard(
        two_step: bool,
        sequence: u16,
        correction: i64,
        t1: Stamp,
        t2: Stamp,
    ) -> Sync
        ensures { result ≡ as_sync (heard two_step sequence correction t1 t2) }
    {
        Sync {
            held: true,
            known: !two_step,
            sequence,
            t1: if two_step { Stamp::zero() } else { t1 },
            t2,
            correction,
            follow: 0,
        }
    }

    // A Follow_Up of this sequenceId gives t1.
    #[tactic(auto, unfolding(crate::specs::Halves::sync_half))]
    pub(crate) fn waits_for(self, sequence: u16) -> bool
        ensures { result ≡ sync_waits_for self sequence }
    {
        self.held && !self.known && self.sequence == sequence
    }

    // t1 and t2 are there.
    #[tactic(auto, unfolding(crate::specs::Halves::sync_half))]
    pub(crate) fn complete(self) -> bool
        ensures { result ≡ sync_complete self }
    {
        self.held && self.known
    }
}

impl Request {
    // None pending.
    pub fn fresh() -> Request
        ensures { result ≡ fresh_request }
    {
        Request::default()
    }

    // t3 is given for this sequenceId.
    #[tactic(auto, unfolding(crate::specs::Halves::request_half))]
    pub(crate) fn waits_for(self, sequence: u16) -> bool
        ensures { result ≡ request_waits_for self sequence }
    {
        self.pending && !self.given && self.sequence == sequence
    }

    // t3 is there, and a Delay_Resp of this sequenceId answers.
    #[tactic(auto, unfolding(crate::specs::Halves::request_half))]
    pub(crate) fn complete(self, sequence: u16) -> bool
        ensures { result ≡ request_complete self sequence }
    {
        self.pending && self.given && self.sequence == sequence
    }
}
