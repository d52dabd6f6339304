// The wire: messages on whole frames, the unit's own Delay_Req, and both round trips as promises of code.
#![tactic(auto)]

ghost use Rattle.std.specs.Prelude.{◌≡◌, ◌++◌, ◌-◌, length, take, drop};
ghost use Rattle.wire_layout.specs.Writing.{write_of, left_by};
ghost use Rattle.wire_frames.specs.Frames.{request_of, written_read, read_written, copied};

use numbers::refusal::Refusal;
use numbers::stamp::Stamp;
use wire_layout::message::{Body, Header, Message, Part, Port};
use wire_reader::read;
use wire_writer::write;

// A message into a frame: behind its 14 octets of Ethernet header, which are not lent on (rules 2.12 and 12.10). A shorter frame lends an empty part, by a call of its own: rule 12.10 names the form of the other.
pub fn write_frame(m: Message, suffix: &[u8], frame: &mut [u8]) -> Result<usize, Refusal>
    ensures value { result ≡ write_of m suffix.now (length frame.old - 14) }
    ensures frame_after { frame.new ≡ take 14 frame.old ++ left_by (write_of m suffix.now (length frame.old - 14)) m suffix.now (drop 14 frame.old) }
{
    let end = frame.len();
    if end < 14 {
        return write(m, suffix, &mut frame[end..]);
    }
    write(m, suffix, &mut frame[14..])
}

// The unit's own Delay_Req (rule 2.13).
pub fn request(domain: u8, own: Port, sequence: u16) -> Message
    ensures { result ≡ request_of domain own sequence }
{
    let header = Header {
        domain,
        source: own,
        sequence,
        control: 1,
        interval: 127,
        ..Header::default()
    };
    Message {
        header,
        body: Body::DelayReq(Stamp::default()),
    }
}

// There and back: the message is written into the lent part and read again.
pub fn written_read(m: Message, suffix: &[u8], part: &mut [u8]) -> Result<(Message, Part), Refusal>
    ensures value { result ≡ written_read m (write_of m suffix.now (length part.old)) }
    ensures part_after { part.new ≡ left_by (write_of m suffix.now (length part.old)) m suffix.now part.old }
{
    write(m, suffix, part)?;
    read(part)
}

// Back and there: octets are read, and the message with its suffix is written into the lent part.
pub fn read_written(s: &[u8], part: &mut [u8]) -> Result<usize, Refusal>
    ensures value { result ≡ read_written s.now (length part.old) }
    ensures part_after { part.new ≡ copied (read_written s.now (length part.old)) s.now part.old }
{
    let (m, suffix) = read(s)?;
    write(m, &s[suffix.from..suffix.to], part)
}
