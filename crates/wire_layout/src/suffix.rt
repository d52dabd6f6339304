// The TLV suffix: whole TLVs of even length, one behind the other.
ghost use Rattle.std.specs.Prelude.{◌≡◌, drop};
ghost use Rattle.wire_layout.specs.Suffix.{tlv_of, whole_of};

// What is at a place of a suffix: nothing more, a whole TLV with its type and its value's length, or neither. Three cases, so no Option or Result.
#[derive(Clone, Copy)]
pub enum Tlv {
    End,
    Whole(u16, usize),
    Broken,
}

// The TLV from `at`. The next one comes behind its 4 octets and its value.
#[tactic(auto, unfolding(crate::specs::Suffix::tlv_of, wire_octets::specs::Octets::num))]
pub fn tlv_at(t: &[u8], at: usize) -> Tlv
    ensures { result ≡ tlv_of (drop at t.now) }
{
    let Some(rest) = t.get(at..) else {
        return Tlv::End;
    };
    match rest {
        [] => Tlv::End,
        [a, b, c, d, value @ ..] => {
            let n = u16::from_be_bytes([*c, *d]) as usize;
            if n % 2 != 0 || value.len() < n {
                return Tlv::Broken;
            }
            Tlv::Whole(u16::from_be_bytes([*a, *b]), n)
        }
        _ => Tlv::Broken,
    }
}

// Whole, even TLVs and nothing else.
pub fn whole(t: &[u8]) -> bool
    ensures { result ≡ whole_of t.now }
{
    let mut at = 0;
    // A loop that yields by break what ended the walk: a chain would be a state, a step and a fold that stops, and no plainer.
    loop {
        match tlv_at(t, at) {
            Tlv::End => break true,
            Tlv::Whole(_, n) => at += 4 + n,
            Tlv::Broken => break false,
        }
    }
}
