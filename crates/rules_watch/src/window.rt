// A sample, and the head of the ring that holds the last W taken: `next` is written next, and the last `len` written are held.
ghost use Rattle.std.specs.Prelude.{◌≡◌, ◌+◌, ◌%◌, min};
ghost use Rattle.rules_watch.specs.Window.{head_after};

// What can't be derived of a sample: its clock stamp is reference + y + the head's origin. The ring holds each of the three in a column of its own.
#[derive(Clone, Copy)]
pub struct Sample {
    pub reference: i64,
    pub y: i32,
    pub valid: bool,
}

#[repr(C)]
#[derive(Clone, Copy, Default)]
pub struct Head {
    pub origin: i64, // clock - reference of the first sample since the wipe
    pub next: u32, // the place that is written next; past the ring it is taken round it
    pub len: u16, // how many are held; past the ring it means the whole ring
    pub taken: u16, // samples taken since the wipe, as far as the widest holdoff asks: 10 at most
}

impl Head {
    // With one sample more: of those held before it the last size - 1 stay.
    pub(crate) fn after(self, size: u8, origin: i64) -> Head
        ensures { result ≡ head_after size origin self }
    {
        Head {
            origin,
            next: (self.next % 128 + 1) % 128,
            len: (self.count() + 1).min(u16::from(size)),
            taken: self.taken.saturating_add(1).min(10),
        }
    }

    // How many are held.
    pub(crate) fn count(self) -> u16
        ensures { result ≡ min self.len 128 }
    {
        self.len.min(128)
    }

    // The place that is written next.
    pub(crate) fn place(self) -> usize
        ensures { result ≡ self.next % 128 }
    {
        self.next as usize % 128
    }

    // The place of the sample taken last; of an empty ring some other.
    pub(crate) fn newest(self) -> usize
        ensures { result ≡ (self.next % 128 + 127) % 128 }
    {
        (self.place() + 127) % 128
    }
}
