// The fields of a message, each read from its words.
use crate::words::Words;
use numbers::stamp::Stamp;
use wire_layout::kinds;
use wire_layout::message::{Body, Header, Offer, Port};

pub(crate) fn port(words: &mut Words) -> Option<Port> {
    Some(Port {
        clock: words.identity()?,
        number: words.number()?,
    })
}

pub(crate) fn stamp(words: &mut Words) -> Option<Stamp> {
    Some(Stamp {
        seconds: words.number()?,
        nanoseconds: words.number()?,
    })
}

pub(crate) fn header(words: &mut Words) -> Option<Header> {
    Some(Header {
        sdo: words.number()?,
        minor: words.number()?,
        domain: words.number()?,
        minorsdo: words.number()?,
        flags: words.number()?,
        correction: words.number()?,
        specific: words.number()?,
        source: port(words)?,
        sequence: words.number()?,
        control: words.number()?,
        interval: words.number()?,
    })
}

fn offer(words: &mut Words) -> Option<Offer> {
    Some(Offer {
        utc: words.number()?,
        reserved: words.number()?,
        priority1: words.number()?,
        class: words.number()?,
        accuracy: words.number()?,
        variance: words.number()?,
        priority2: words.number()?,
        grandmaster: words.identity()?,
        steps: words.number()?,
        time: words.number()?,
    })
}

// The kind says which words follow the timestamp. Of any other kind there is no message.
pub(crate) fn body(words: &mut Words, kind: u8) -> Option<Body> {
    let stamp = stamp(words)?;
    match kind {
        kinds::Sync::KIND => Some(Body::Sync(stamp)),
        kinds::DelayReq::KIND => Some(Body::DelayReq(stamp)),
        kinds::FollowUp::KIND => Some(Body::FollowUp(stamp)),
        kinds::DelayResp::KIND => Some(Body::DelayResp(stamp, port(words)?)),
        kinds::Announce::KIND => Some(Body::Announce(stamp, offer(words)?)),
        _ => None,
    }
}
