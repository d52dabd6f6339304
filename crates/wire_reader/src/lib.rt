// Reading: the octets of a message, behind the Ethernet header, become the message, or the refusal that says why not.
#![tactic(auto)]

ghost use Rattle.std.specs.Prelude.{◌≡◌, ◌+◌, ◌≤◌, ◌<◌, length};
ghost use Rattle.numbers.specs.Grounds.{first_of};
ghost use Rattle.wire_layout.specs.Kinds.{fixed_length_of};
ghost use Rattle.wire_layout.specs.Positions.{length_in, port_at, header_of, stamp_at, offer_of, body_of};
ghost use Rattle.wire_layout.specs.Reading.{reading_grounds, read_of};

use numbers::refusal::Refusal;
use numbers::stamp::{Stamp, sound};
use wire_layout::kinds;
use wire_layout::message::{Body, Header, Message, Offer, Part, Port};
use wire_layout::suffix::whole;
use wire_octets::{octets_at, u48_at};

// Fields where they lie. Each asks that its octets are there.
#[tactic(auto, unfolding(wire_octets::specs::Octets::num, wire_octets::specs::Octets::part))]
pub fn length_in(s: &[u8]) -> u16
    requires { 4 ≤ length s.now }
    ensures { result ≡ length_in s.now }
{
    u16::from_be_bytes(octets_at(s, 2))
}

#[tactic(auto, unfolding(wire_layout::specs::Positions::port_at, wire_octets::specs::Octets::num, wire_octets::specs::Octets::part))]
pub fn port_at(s: &[u8], at: usize) -> Port
    requires { at + 10 ≤ length s.now }
    ensures { result ≡ port_at at s.now }
{
    Port {
        clock: u64::from_be_bytes(octets_at(s, at)),
        number: u16::from_be_bytes(octets_at(s, at + 8)),
    }
}

#[tactic(auto, unfolding(wire_layout::specs::Positions::header_of, wire_octets::specs::Octets::num, wire_octets::specs::Octets::part))]
pub fn header_of(s: &[u8]) -> Header
    requires { 34 ≤ length s.now }
    ensures { result ≡ header_of s.now }
{
    Header {
        sdo: s[0] / 16,
        minor: s[1] / 16,
        domain: s[4],
        minorsdo: s[5],
        flags: u16::from_be_bytes(octets_at(s, 6)),
        correction: i64::from_be_bytes(octets_at(s, 8)),
        specific: u32::from_be_bytes(octets_at(s, 16)),
        source: port_at(s, 20),
        sequence: u16::from_be_bytes(octets_at(s, 30)),
        control: s[32],
        interval: s[33].cast_signed(),
    }
}

#[tactic(auto, unfolding(wire_layout::specs::Positions::stamp_at, wire_octets::specs::Octets::num, wire_octets::specs::Octets::part))]
pub fn stamp_at(s: &[u8], at: usize) -> Stamp
    requires { at + 10 ≤ length s.now }
    ensures { result ≡ stamp_at at s.now }
{
    Stamp {
        seconds: u48_at(s, at),
        nanoseconds: u32::from_be_bytes(octets_at(s, at + 6)),
    }
}

#[tactic(auto, unfolding(wire_layout::specs::Positions::offer_of, wire_octets::specs::Octets::num, wire_octets::specs::Octets::part))]
pub fn offer_of(s: &[u8]) -> Offer
    requires { 64 ≤ length s.now }
    ensures { result ≡ offer_of s.now }
{
    Offer {
        utc: i16::from_be_bytes(octets_at(s, 44)),
        reserved: s[46],
        priority1: s[47],
        class: s[48],
        accuracy: s[49],
        variance: u16::from_be_bytes(octets_at(s, 50)),
        priority2: s[52],
        grandmaster: u64::from_be_bytes(octets_at(s, 53)),
        steps: u16::from_be_bytes(octets_at(s, 61)),
        time: s[63],
    }
}

#[tactic(auto, unfolding(wire_layout::specs::Positions::body_of, wire_layout::specs::Kinds::fixed_length_of))]
fn body_of(s: &[u8], kind: u8) -> Body
    requires kind_nonzero { 0 < fixed_length_of kind }
    requires kind_in_bounds { fixed_length_of kind ≤ length s.now }
    ensures { result ≡ body_of kind s.now }
{
    let stamp = stamp_at(s, 34);
    match kind {
        kinds::Sync::KIND => Body::Sync(stamp),
        kinds::DelayReq::KIND => Body::DelayReq(stamp),
        kinds::FollowUp::KIND => Body::FollowUp(stamp),
        kinds::DelayResp::KIND => Body::DelayResp(stamp, port_at(s, 44)),
        _ => Body::Announce(stamp, offer_of(s)),
    }
}

// What bars the reading: the first refusal that is due. Octets past messageLength are padding.
#[tactic(auto, unfolding(numbers::specs::Grounds::first_of))]
pub fn barred(s: &[u8]) -> Result<(), Refusal>
    ensures { result ≡ first_of (reading_grounds s.now) }
{
    if s.len() < 34 {
        return Err(Refusal::Short);
    }
    if s[1] % 16 != 2 {
        return Err(Refusal::Version);
    }
    let fixed = kinds::fixed_length(s[0] % 16);
    if fixed == 0 {
        return Err(Refusal::Kind);
    }
    let length = usize::from(length_in(s));
    if length < fixed {
        return Err(Refusal::Length);
    }
    if s.len() < length {
        return Err(Refusal::Short);
    }
    if !sound(stamp_at(s, 34)) {
        return Err(Refusal::Field);
    }
    if !whole(&s[fixed..length]) {
        return Err(Refusal::Suffix);
    }
    Ok(())
}

// The message with every field and where its suffix lies, or the first refusal that is due.
pub fn read(s: &[u8]) -> Result<(Message, Part), Refusal>
    ensures { result ≡ read_of s.now }
{
    barred(s)?;
    let kind = s[0] % 16;
    let message = Message {
        header: header_of(s),
        body: body_of(s, kind),
    };
    let suffix = Part {
        from: kinds::fixed_length(kind),
        to: usize::from(length_in(s)),
    };
    Ok((message, suffix))
}
