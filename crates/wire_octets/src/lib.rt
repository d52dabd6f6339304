// Octets at a place: read, and copied in. The leaves of reading and writing.
#![tactic(auto)]

ghost use Rattle.std.specs.Prelude.{◌≡◌, ◌+◌, ◌≤◌, length};
ghost use Rattle.wire_octets.specs.Octets.{num, part, put};

// The N octets from a place. std makes them a number: in this form the compiler makes one load of four octets, and of eight.
pub fn octets_at<const N: usize>(s: &[u8], at: usize) -> [u8; N]
    requires { at + N ≤ length s.now }
    ensures { result ≡ part N at s.now }
{
    *s[at..].first_chunk().unwrap()
}

// The number in two octets.
#[tactic(auto, unfolding(crate::specs::Octets::num, crate::specs::Octets::part))]
pub fn u16_at(s: &[u8], at: usize) -> u16
    requires { at + 2 ≤ length s.now }
    ensures { result ≡ num 2 at s.now }
{
    u16::from_be_bytes(octets_at(s, at))
}

// The number in six octets, for which std has no type.
#[tactic(auto, unfolding(crate::specs::Octets::num, crate::specs::Octets::part))]
pub fn u48_at(s: &[u8], at: usize) -> u64
    requires { at + 6 ≤ length s.now }
    ensures { result ≡ num 6 at s.now }
{
    let [a, b, c, d, e, f] = octets_at::<6>(s, at);
    u64::from_be_bytes([0, 0, a, b, c, d, e, f])
}

// All of a, copied into d from at.
pub fn copy_in(d: &mut [u8], at: usize, a: &[u8])
    requires { at + length a.now ≤ length d.old }
    ensures { d.new ≡ put d.old at a.now }
{
    for j in 0..a.len() {
        d[at + j] = a[j];
    }
}
