// The six settings of the watch. rules_settings asks their ranges, and gives none outside them.
ghost use Rattle.std.specs.Prelude.{◌≡◌, ◌&&◌, min, max, leb};
ghost use Rattle.rules_watch.specs.Settings.{size_of, least_of, wait_of};

#[repr(C)]
#[derive(Clone, Copy, Default)]
pub struct WatchSettings {
    pub window: u8, // W
    pub minimum: u8, // of valid samples in the window
    pub holdoff: u8, // samples since the wipe
    pub tolerance: u32, // of the reference interval, in ns
    pub spike: u32, // in ns
    pub jump: u32, // in ns
}

impl WatchSettings {
    // W. Accepted settings have it as it was set; any other gets the nearer end, so that the ring is never passed.
    pub(crate) fn size(self) -> u8
        ensures { result ≡ size_of self }
    {
        self.window.clamp(2, 128)
    }

    // The minimum. A line needs two points, whatever was set.
    pub(crate) fn least(self) -> u8
        ensures { result ≡ least_of self }
    {
        self.minimum.max(2)
    }

    // The holdoff. The watch counts to 10, the widest that is accepted, and no further.
    pub(crate) fn wait(self) -> u8
        ensures { result ≡ wait_of self }
    {
        self.holdoff.min(10)
    }

    // Valid: y moved by the spike at most, and the reference interval is off a second by the tolerance at most.
    pub(crate) fn calm(self, moved: u32, late: u64) -> bool
        ensures { result ≡ (leb late self.tolerance && leb moved self.spike) }
    {
        late <= u64::from(self.tolerance) && moved <= self.spike
    }
}
