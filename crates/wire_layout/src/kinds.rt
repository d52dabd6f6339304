// The five kinds of message: each one's number and fixed length (rules 2.5 and 12.8).
ghost use Rattle.std.specs.Prelude.{◌≡◌};
ghost use Rattle.wire_layout.specs.Kinds.{fixed_length_of};

// Associated constants, and no trait of them: no code is generic over a kind.
#[derive(Clone, Copy)]
pub struct Sync {}

impl Sync {
    pub const KIND: u8 = 0;

    pub const LENGTH: usize = 44;
}

#[derive(Clone, Copy)]
pub struct DelayReq {}

impl DelayReq {
    pub const KIND: u8 = 1;

    pub const LENGTH: usize = 44;
}

#[derive(Clone, Copy)]
pub struct FollowUp {}

impl FollowUp {
    pub const KIND: u8 = 8;

    pub const LENGTH: usize = 44;
}

#[derive(Clone, Copy)]
pub struct DelayResp {}

impl DelayResp {
    pub const KIND: u8 = 9;

    pub const LENGTH: usize = 54;
}

#[derive(Clone, Copy)]
pub struct Announce {}

impl Announce {
    pub const KIND: u8 = 11;

    pub const LENGTH: usize = 64;
}

// The fixed length of a kind, 0 where there is no such kind.
// 0 and no Option: that is the length which reading asks for.
#[tactic(auto, unfolding(crate::specs::Kinds::fixed_length_of))]
pub fn fixed_length(kind: u8) -> usize
    ensures { result ≡ fixed_length_of kind }
{
    match kind {
        Sync::KIND => Sync::LENGTH,
        DelayReq::KIND => DelayReq::LENGTH,
        FollowUp::KIND => FollowUp::LENGTH,
        DelayResp::KIND => DelayResp::LENGTH,
        Announce::KIND => Announce::LENGTH,
        _ => 0,
    }
}
