// A record of the table of masters as C holds it.
ghost use Rattle.std.specs.Prelude.{◌≡◌};
ghost use Rattle.door_records.specs.Masters.{header_in, header_words, offer_in, offer_words, record_in, master_words};

use crate::stamp::StampWords;
use rules_masters::record::{Announce, Record};
use wire_layout::message::{Header, Offer, Port};

#[repr(C)]
#[derive(Clone, Copy)]
pub struct HeaderWords {
    pub correction: i64,
    pub clock: u64, // of the source
    pub specific: u32,
    pub flags: u16,
    pub sequence: u16,
    pub number: u16, // of the source
    pub sdo: u8,
    pub minor: u8,
    pub domain: u8,
    pub minorsdo: u8,
    pub control: u8,
    pub interval: i8,
}

#[repr(C)]
#[derive(Clone, Copy)]
pub struct OfferWords {
    pub grandmaster: u64,
    pub utc: i16,
    pub variance: u16,
    pub steps: u16,
    pub reserved: u8,
    pub priority1: u8,
    pub class: u8,
    pub accuracy: u8,
    pub priority2: u8,
    pub time: u8,
    pub spare: u32,
}

#[repr(C)]
#[derive(Clone, Copy)]
pub struct MasterWords {
    pub header: HeaderWords,
    pub offer: OfferWords,
    pub stamp: StampWords,
    pub newer: u64,
    pub older: u64,
    pub held: u64,
}

impl From<HeaderWords> for Header {
    ghost from_gives = { λ w h. h ≡ header_in w };

    fn from(w: HeaderWords) -> Header {
        Header {
            sdo: w.sdo,
            minor: w.minor,
            domain: w.domain,
            minorsdo: w.minorsdo,
            flags: w.flags,
            correction: w.correction,
            specific: w.specific,
            source: Port {
                clock: w.clock,
                number: w.number,
            },
            sequence: w.sequence,
            control: w.control,
            interval: w.interval,
        }
    }
}

impl From<Header> for HeaderWords {
    ghost from_gives = { λ h w. w ≡ header_words h };

    fn from(h: Header) -> HeaderWords {
        HeaderWords {
            correction: h.correction,
            clock: h.source.clock,
            specific: h.specific,
            flags: h.flags,
            sequence: h.sequence,
            number: h.source.number,
            sdo: h.sdo,
            minor: h.minor,
            domain: h.domain,
            minorsdo: h.minorsdo,
            control: h.control,
            interval: h.interval,
        }
    }
}

impl From<OfferWords> for Offer {
    ghost from_gives = { λ w o. o ≡ offer_in w };

    fn from(w: OfferWords) -> Offer {
        Offer {
            utc: w.utc,
            reserved: w.reserved,
            priority1: w.priority1,
            class: w.class,
            accuracy: w.accuracy,
            variance: w.variance,
            priority2: w.priority2,
            grandmaster: w.grandmaster,
            steps: w.steps,
            time: w.time,
        }
    }
}

impl From<Offer> for OfferWords {
    ghost from_gives = { λ o w. w ≡ offer_words o };

    fn from(o: Offer) -> OfferWords {
        OfferWords {
            grandmaster: o.grandmaster,
            utc: o.utc,
            variance: o.variance,
            steps: o.steps,
            reserved: o.reserved,
            priority1: o.priority1,
            class: o.class,
            accuracy: o.accuracy,
            priority2: o.priority2,
            time: o.time,
            spare: 0,
        }
    }
}

impl From<MasterWords> for Record {
    ghost from_gives = { λ w r. r ≡ record_in w };

    fn from(w: MasterWords) -> Record {
        Record {
            announce: Announce {
                header: w.header.into(),
                stamp: w.stamp.into(),
                offer: w.offer.into(),
            },
            held: w.held,
            newer: w.newer,
            older: w.older,
        }
    }
}

impl From<Record> for MasterWords {
    ghost from_gives = { λ r w. w ≡ master_words r };

    fn from(r: Record) -> MasterWords {
        MasterWords {
            header: r.announce.header.into(),
            offer: r.announce.offer.into(),
            stamp: r.announce.stamp.into(),
            newer: r.newer,
            older: r.older,
            held: r.held,
        }
    }
}
