// What is made of a second pulse, judged on small values: the window stays with the caller.
ghost use Rattle.std.specs.Prelude.{◌≡◌, pos, ◌-ℤ◌, ◌≤ℤ◌};
ghost use Rattle.rules_watch.specs.Rules.{settled, followed, outcome};
ghost use Rattle.rules_watch.specs.Inner.{latest};

use crate::Pulse;
use crate::settings::WatchSettings;
use crate::stamps::outside;
use crate::window::Sample;
use numbers::refusal::Refusal;

// A taken sample comes with the origin that then holds. The rules' definitions are over this type too.
#[derive(Clone, Copy)]
pub enum Judged {
    Wipe(Pulse),
    Take(i64, Sample),
}

// JUMP, or taken.
// What it is handed comes one by one, as `settled`, `followed` and `outcome` of the rules take it.
fn settle(settings: WatchSettings, origin: i64, previous: Sample, reference: i64, y: i32) -> Judged
    requires { pos 0 ≤ℤ reference }
    ensures { result ≡ settled settings origin previous reference y }
{
    let moved = y.abs_diff(previous.y);
    if settings.jump < moved {
        return Judged::Wipe(Pulse::Jump);
    }
    let late = (reference - 1_000_000_000).abs_diff(previous.reference);
    let valid = settings.calm(moved, late);
    Judged::Take(
        origin,
        Sample {
            reference,
            y,
            valid,
        },
    )
}

// A sample after another: BACK, RANGE, then as above. `offset` is clock - reference. Whatever the origin is, y is made only once it is known
// to be below a second.
fn follow(
    settings: WatchSettings,
    origin: i64,
    previous: Sample,
    reference: i64,
    offset: i64,
) -> Judged
    requires { pos 0 ≤ℤ reference }
    ensures { result ≡ followed settings origin previous reference (offset -ℤ origin) }
{
    if reference <= previous.reference {
        return Judged::Wipe(Pulse::Back);
    }
    if 1_000_000_000 <= offset.abs_diff(origin) {
        return Judged::Wipe(Pulse::Range);
    }
    let y = offset - origin;
    settle(settings, origin, previous, reference, y as i32)
}

// A second pulse after the sample taken last, or the first one where the window is empty.
pub(crate) fn judge(
    settings: WatchSettings,
    origin: i64,
    last: Option<Sample>,
    reference: i64,
    clock: i64,
) -> Result<Judged, Refusal>
    ensures { result ≡ outcome settings (latest origin last) reference clock }
{
    if outside(reference) || outside(clock) {
        return Err(Refusal::Tick);
    }
    let offset = clock - reference;
    match last {
        None => Ok(Judged::Take(
            offset,
            Sample {
                reference,
                y: 0,
                valid: true,
            },
        )),
        Some(previous) => Ok(follow(settings, origin, previous, reference, offset)),
    }
}
