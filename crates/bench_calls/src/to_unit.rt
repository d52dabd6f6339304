// The calls to the unit: the words behind each call word become typed values.
use crate::Store;
use crate::fields::{port, stamp};
use crate::words::{Octets, Words};
use numbers::stamp::Stamp;
use rules_settings::Given;

// What a line tells the unit, as it is written: no octets are read yet and no setting is tested.
#[derive(Clone, Copy)]
pub enum ToUnit<'a> {
    Make(Given),
    Receive(u64, Stamp, Octets<'a>),
    Request(u64, usize),
    Sent(u64, u16, Stamp),
    Time(u64),
    Reset,
    Tick(i64, i64),
    Line,
    Show,
}

// The settings in the line's order.
fn given(words: &mut Words) -> Option<Given> {
    Some(Given {
        domain: words.number()?,
        own: port(words)?,
        announce: words.number()?,
        sync: words.number()?,
        kp: words.number()?,
        ki: words.number()?,
        limit: words.number()?,
        window: words.number()?,
        minimum: words.number()?,
        holdoff: words.number()?,
        tolerance: words.number()?,
        spike: words.number()?,
        jump: words.number()?,
    })
}

// The call of this call word.
pub(crate) fn call_to_unit<'a>(
    word: &str,
    words: &mut Words,
    store: &'a mut Store,
) -> Option<ToUnit<'a>> {
    Some(match word {
        "unit" => ToUnit::Make(given(words)?),
        "receive" => ToUnit::Receive(words.number()?, stamp(words)?, words.octets(store)?),
        "request" => ToUnit::Request(words.number()?, words.up_to(2000)?),
        "sent" => ToUnit::Sent(words.number()?, words.number()?, stamp(words)?),
        "time" => ToUnit::Time(words.number()?),
        "reset" => ToUnit::Reset,
        "tick" => ToUnit::Tick(words.number()?, words.number()?),
        "line" => ToUnit::Line,
        "show" => ToUnit::Show,
        _ => return None,
    })
}
