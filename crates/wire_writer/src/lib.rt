// Writing: a message and its suffix become octets in the part of a frame that is lent, or the refusal that says why not.
#![tactic(auto)]

ghost use Rattle.std.specs.Prelude.{◌≡◌, ◌+◌, ◌≤◌, ◌<◌, length};
ghost use Rattle.wire_octets.specs.Octets.{put};
ghost use Rattle.wire_layout.specs.Kinds.{body_size};
ghost use Rattle.wire_layout.specs.Writing.{port_octets, front_octets, back_octets, header_octets, stamp_octets, offer_octets, body_octets, fields_fit, write_of, left_by};

use numbers::refusal::Refusal;
use numbers::stamp::{Stamp, sound};
use wire_layout::message::{Body, Header, Message, Offer, Port};
use wire_layout::suffix::whole;
use wire_octets::copy_in;

// Each part as its octets. The header in front of its source's port identity:
#[tactic(auto, unfolding(wire_layout::specs::Writing::front_bits, wire_octets::specs::Octets::big_endian))]
fn front_octets(h: Header, kind: u8, len: u16) -> [u8; 20]
    requires { (h.sdo < 16) × (h.minor < 16) × (kind < 16) }
    ensures { result ≡ front_octets h kind len }
{
    let [len0, len1] = len.to_be_bytes();
    let [flags0, flags1] = h.flags.to_be_bytes();
    let [c0, c1, c2, c3, c4, c5, c6, c7] = h.correction.to_be_bytes();
    let [s0, s1, s2, s3] = h.specific.to_be_bytes();
    [
        h.sdo * 16 + kind,
        h.minor * 16 + 2,
        len0,
        len1,
        h.domain,
        h.minorsdo,
        flags0,
        flags1,
        c0,
        c1,
        c2,
        c3,
        c4,
        c5,
        c6,
        c7,
        s0,
        s1,
        s2,
        s3,
    ]
}

// The header behind it.
#[tactic(auto, unfolding(wire_layout::specs::Writing::back_bits, wire_octets::specs::Octets::big_endian))]
fn back_octets(h: Header) -> [u8; 4]
    ensures { result ≡ back_octets h }
{
    let [s0, s1] = h.sequence.to_be_bytes();
    [s0, s1, h.control, h.interval.cast_unsigned()]
}

#[tactic(auto, unfolding(wire_layout::specs::Writing::stamp_octets, wire_octets::specs::Octets::big_endian))]
fn stamp_octets(t: Stamp) -> [u8; 10]
    ensures { result ≡ stamp_octets t }
{
    let [_, _, s0, s1, s2, s3, s4, s5] = t.seconds.to_be_bytes();
    let [n0, n1, n2, n3] = t.nanoseconds.to_be_bytes();
    [s0, s1, s2, s3, s4, s5, n0, n1, n2, n3]
}

#[tactic(auto, unfolding(wire_layout::specs::Writing::port_octets, wire_octets::specs::Octets::big_endian))]
fn port_octets(p: Port) -> [u8; 10]
    ensures { result ≡ port_octets p }
{
    let [c0, c1, c2, c3, c4, c5, c6, c7] = p.clock.to_be_bytes();
    let [n0, n1] = p.number.to_be_bytes();
    [c0, c1, c2, c3, c4, c5, c6, c7, n0, n1]
}

#[tactic(auto, unfolding(wire_layout::specs::Writing::offer_bits, wire_octets::specs::Octets::big_endian))]
fn offer_octets(o: Offer) -> [u8; 20]
    ensures { result ≡ offer_octets o }
{
    let [u0, u1] = o.utc.to_be_bytes();
    let [v0, v1] = o.variance.to_be_bytes();
    let [g0, g1, g2, g3, g4, g5, g6, g7] = o.grandmaster.to_be_bytes();
    let [s0, s1] = o.steps.to_be_bytes();
    [
        u0,
        u1,
        o.reserved,
        o.priority1,
        o.class,
        o.accuracy,
        v0,
        v1,
        o.priority2,
        g0,
        g1,
        g2,
        g3,
        g4,
        g5,
        g6,
        g7,
        s0,
        s1,
        o.time,
    ]
}

// Header and body, each into its place.
fn put_header(out: &mut [u8], h: Header, kind: u8, len: u16)
    requires in_bounds { 34 ≤ length out.old }
    requires sdo_bound { (h.sdo < 16) × (h.minor < 16) × (kind < 16) }
    ensures { out.new ≡ put out.old 0 (header_octets h kind len) }
{
    copy_in(out, 0, &front_octets(h, kind, len));
    copy_in(out, 20, &port_octets(h.source));
    copy_in(out, 30, &back_octets(h));
}

fn put_body(out: &mut [u8], b: Body)
    requires { body_size b ≤ length out.old }
    ensures { out.new ≡ put out.old 34 (body_octets b) }
{
    copy_in(out, 34, &stamp_octets(b.stamp()));
    match b {
        Body::DelayResp(_, p) => copy_in(out, 44, &port_octets(p)),
        Body::Announce(_, o) => copy_in(out, 44, &offer_octets(o)),
        _ => {}
    }
}

// No FIELD.
#[tactic(auto, unfolding(wire_layout::specs::Writing::fields_fit))]
fn fields_fit(h: Header, t: Stamp) -> bool
    ensures { result ≡ fields_fit h t }
{
    h.sdo < 16 && h.minor < 16 && sound(t)
}

// The message's length, its octets being in front of the lent part; or the first refusal that holds, the part being as it was.
#[tactic(auto, unfolding(wire_layout::specs::Writing::write_of, numbers::specs::Grounds::first_of))]
pub fn write(m: Message, suffix: &[u8], part: &mut [u8]) -> Result<usize, Refusal>
    ensures value { result ≡ write_of m suffix.now (length part.old) }
    ensures part_after { part.new ≡ left_by (write_of m suffix.now (length part.old)) m suffix.now part.old }
{
    let Message { header, body } = m;
    if !fields_fit(header, body.stamp()) {
        return Err(Refusal::Field);
    }
    if !whole(suffix) {
        return Err(Refusal::Suffix);
    }
    let fixed = body.size();
    let Ok(length) = u16::try_from(fixed + suffix.len()) else {
        return Err(Refusal::Length);
    };
    let n = usize::from(length);
    if part.len() < n {
        return Err(Refusal::Room);
    }
    put_header(part, header, body.kind(), length);
    put_body(part, body);
    copy_in(part, fixed, suffix);
    Ok(n)
}
