// Stamps of the watch.
ghost use Rattle.std.specs.Prelude.{◌≡◌};
ghost use Rattle.rules_watch.specs.Rules.{outside_of};

// TICK: a stamp outside 0 to 2^62 - 1.
pub(crate) fn outside(stamp: i64) -> bool
    ensures { result ≡ outside_of stamp }
{
    !(0..4_611_686_018_427_387_904).contains(&stamp)
}
