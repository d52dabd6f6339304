// A message with every field, reserved and control ones too (rule 2.10), and the answers of reading and writing.
ghost use Rattle.std.specs.Prelude.{◌≡◌};
ghost use Rattle.wire_layout.specs.Kinds.{kind_of, body_size, stamp_in};

use crate::kinds;
use numbers::stamp::Stamp;

// A port identity: 8 octets of clock identity, 2 of port number.
#[repr(C)]
#[derive(Clone, Copy, PartialEq, Eq, PartialOrd, Ord, Default)]
pub struct Port {
    pub clock: u64,
    pub number: u16,
}

// The header but for what is derived: version, kind and messageLength.
#[repr(C)]
#[derive(Clone, Copy, Default)]
pub struct Header {
    pub sdo: u8,
    pub minor: u8,
    pub domain: u8,
    pub minorsdo: u8,
    pub flags: u16,
    pub correction: i64,
    pub specific: u32,
    pub source: Port,
    pub sequence: u16,
    pub control: u8,
    pub interval: i8,
}

// What an Announce offers behind its timestamp.
#[repr(C)]
#[derive(Clone, Copy, Default)]
pub struct Offer {
    pub utc: i16,
    pub reserved: u8,
    pub priority1: u8,
    pub class: u8,
    pub accuracy: u8,
    pub variance: u16,
    pub priority2: u8,
    pub grandmaster: u64,
    pub steps: u16,
    pub time: u8,
}

// What follows the header: the timestamp, and what comes after it.
#[derive(Clone, Copy)]
pub enum Body {
    Sync(Stamp),
    DelayReq(Stamp),
    FollowUp(Stamp),
    DelayResp(Stamp, Port),
    Announce(Stamp, Offer),
}

#[derive(Clone, Copy)]
pub struct Message {
    pub header: Header,
    pub body: Body,
}

// The octets of a part, from the first to just before the last. It is copied, as std's Range is not.
#[derive(Clone, Copy)]
pub struct Part {
    pub from: usize,
    pub to: usize,
}

impl Body {
    pub fn kind(self) -> u8
        ensures { result ≡ kind_of self }
    {
        match self {
            Body::Sync(_) => kinds::Sync::KIND,
            Body::DelayReq(_) => kinds::DelayReq::KIND,
            Body::FollowUp(_) => kinds::FollowUp::KIND,
            Body::DelayResp(_, _) => kinds::DelayResp::KIND,
            Body::Announce(_, _) => kinds::Announce::KIND,
        }
    }

    // The fixed length.
    pub fn size(self) -> usize
        ensures { result ≡ body_size self }
    {
        kinds::fixed_length(self.kind())
    }

    // The timestamp.
    pub fn stamp(self) -> Stamp
        ensures { result ≡ stamp_in self }
    {
        match self {
            Body::Sync(t)
            | Body::DelayReq(t)
            | Body::FollowUp(t)
            | Body::DelayResp(t, _)
            | Body::Announce(t, _) => t,
        }
    }
}
