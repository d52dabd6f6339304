// A message as numbers: read from octets, and written to them.
ghost use Rattle.std.specs.Prelude.{◌≡◌, length, Ok};
ghost use Rattle.numbers.specs.Grounds.{first_of};
ghost use Rattle.numbers.specs.Orders.{number_of};
ghost use Rattle.wire_layout.specs.Positions.{message_of};
ghost use Rattle.wire_layout.specs.Reading.{reading_grounds, suffix_at, read_of};
ghost use Rattle.door_words.specs.Messages.{refused_words, offer_in, got_words, read_words, by_kind, message_by, put_by, written_words, written_by, left_words};

use numbers::refusal::Refusal;
use numbers::stamp::Stamp;
use wire_layout::kinds;
use wire_layout::message::{Body, Header, Message, Offer, Port};
use wire_octets::u16_at;

#[repr(C)]
#[derive(Clone, Copy, Default)]
pub struct MessageWords {
    pub refused: u8, // 0, or the number of the refusal: then all else is 0
    pub kind: u8,
    pub header: Header,
    pub stamp: Stamp,
    pub requester: Port, // of a Delay_Resp
    pub offer: Offer, // of an Announce
    pub from: usize, // where the TLV suffix lies in the octets that were read ..
    pub to: usize, // .. and ends
}

#[repr(C)]
#[derive(Clone, Copy)]
pub struct WrittenWords {
    pub refused: u8, // 0, or the number of the refusal
    pub length: usize, // of the message
}

pub fn offer_in(body: Body) -> Offer
    ensures { result ≡ offer_in body }
{
    match body {
        Body::Announce(_, offer) => offer,
        _ => Offer::default(),
    }
}

impl From<Refusal> for MessageWords {
    ghost from_gives = { λ r w. w ≡ refused_words (number_of r) };

    fn from(refusal: Refusal) -> MessageWords {
        MessageWords {
            refused: refusal.number(),
            ..MessageWords::default()
        }
    }
}

impl From<Result<usize, Refusal>> for WrittenWords {
    ghost from_gives = { λ r w. w ≡ written_words r };

    fn from(written: Result<usize, Refusal>) -> WrittenWords {
        match written {
            Ok(length) => WrittenWords { refused: 0, length },
            Err(refusal) => WrittenWords {
                refused: refusal.number(),
                length: 0,
            },
        }
    }
}

impl MessageWords {
    // The words of octets that nothing bars, each field from where it lies.
    // Each case returns by itself, with all of its fields: where they meet (a match, or ..words), the compiler reads numbers octet by octet, and reading
    // an Announce misses its bar of 176 instructions (docs/COST.md).
    fn got(s: &[u8]) -> MessageWords
        requires { first_of (reading_grounds s.now) ≡ Ok tt }
        ensures { result ≡ got_words (message_of s.now) (suffix_at s.now) }
    {
        let stamp = wire_reader::stamp_at(s, 34);
        let header = wire_reader::header_of(s);
        let to = u16_at(s, 2) as usize;
        let kind = s[0] % 16;
        if kind == kinds::DelayResp::KIND {
            return MessageWords {
                refused: 0,
                kind,
                header,
                stamp,
                requester: wire_reader::port_at(s, 44),
                offer: Offer::default(),
                from: kinds::DelayResp::LENGTH,
                to,
            };
        }
        if kind == kinds::Announce::KIND {
            return MessageWords {
                refused: 0,
                kind,
                header,
                stamp,
                requester: Port::default(),
                offer: wire_reader::offer_of(s),
                from: kinds::Announce::LENGTH,
                to,
            };
        }
        MessageWords {
            refused: 0,
            kind,
            header,
            stamp,
            requester: Port::default(),
            offer: Offer::default(),
            from: kinds::Sync::LENGTH,
            to,
        }
    }

    // What reading the octets answers.
    pub fn read(octets: &[u8]) -> MessageWords
        ensures { result ≡ read_words (read_of octets.now) }
    {
        match wire_reader::barred(octets) {
            Err(refusal) => refusal.into(),
            Ok(()) => MessageWords::got(octets),
        }
    }

    // The message of its kind: one that is in no table is KIND.
    #[tactic(auto, unfolding(crate::specs::Messages::by_kind))]
    fn kinded(self) -> Result<Message, Refusal>
        ensures { result ≡ by_kind self.kind self.header self.stamp self.requester self.offer }
    {
        let body = match self.kind {
            kinds::Sync::KIND => Body::Sync(self.stamp),
            kinds::DelayReq::KIND => Body::DelayReq(self.stamp),
            kinds::FollowUp::KIND => Body::FollowUp(self.stamp),
            kinds::DelayResp::KIND => Body::DelayResp(self.stamp, self.requester),
            kinds::Announce::KIND => Body::Announce(self.stamp, self.offer),
            _ => return Err(Refusal::Kind),
        };
        Ok(Message {
            header: self.header,
            body,
        })
    }

    // The length of the message that was written.
    fn put(self, suffix: &[u8], part: &mut [u8]) -> Result<usize, Refusal>
        ensures value { result ≡ put_by (message_by self) suffix.now (length part.old) }
        ensures part_after { part.new ≡ left_words (message_by self) suffix.now part.old }
    {
        wire_writer::write(Message::try_from(self)?, suffix, part)
    }

    // Writes the message into the lent part.
    pub fn write(self, suffix: &[u8], part: &mut [u8]) -> WrittenWords
        ensures value { result ≡ written_by (message_by self) suffix.now (length part.old) }
        ensures part_after { part.new ≡ left_words (message_by self) suffix.now part.old }
    {
        self.put(suffix, part).into()
    }
}

// The message again. One that was refused in reading is none, of whatever number: what C puts there may be in no table.
impl TryFrom<MessageWords> for Message {
    type Error = Refusal;

    ghost try_from_gives = { λ w r. r ≡ message_by w };

    #[tactic(auto, unfolding(crate::specs::Messages::message_by))]
    fn try_from(w: MessageWords) -> Result<Message, Refusal> {
        if w.refused == 0 {
            return w.kinded();
        }
        Err(Refusal::Kind)
    }
}
