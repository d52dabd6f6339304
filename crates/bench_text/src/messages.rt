// A message as text.
use crate::Text;
use numbers::stamp::Stamp;
use std::fmt;
use wire_layout::message::{Body, Header, Message, Offer, Port};

// A port identity, CLOCK-PORT.
impl fmt::Display for Text<Port> {
    fn fmt<W: fmt::Write>(&self, f: &mut fmt::Formatter<W>) -> fmt::Result {
        let Port { clock, number } = self.0;
        write!(f, "{clock:016x}-{number}")
    }
}

impl fmt::Display for Text<Header> {
    fn fmt<W: fmt::Write>(&self, f: &mut fmt::Formatter<W>) -> fmt::Result {
        let h = self.0;
        write!(
            f,
            "sdo={} minor={} domain={} minorsdo={} flags={} correction={} specific={}",
            h.sdo, h.minor, h.domain, h.minorsdo, h.flags, h.correction, h.specific
        )?;
        let Port { clock, number } = h.source;
        write!(
            f,
            " clock={clock:016x} port={number} sequence={} control={} interval={}",
            h.sequence, h.control, h.interval
        )
    }
}

impl fmt::Display for Text<Stamp> {
    fn fmt<W: fmt::Write>(&self, f: &mut fmt::Formatter<W>) -> fmt::Result {
        let t = self.0;
        write!(f, "seconds={} nanos={}", t.seconds, t.nanoseconds)
    }
}

impl fmt::Display for Text<Offer> {
    fn fmt<W: fmt::Write>(&self, f: &mut fmt::Formatter<W>) -> fmt::Result {
        let o = self.0;
        write!(f, "utc={} reserved={}", o.utc, o.reserved)?;
        // What the grandmaster is compared by.
        write!(
            f,
            " p1={} class={} accuracy={} variance={} p2={} grandmaster={:016x}",
            o.priority1, o.class, o.accuracy, o.variance, o.priority2, o.grandmaster
        )?;
        write!(f, " steps={} source={}", o.steps, o.time)
    }
}

impl fmt::Display for Text<Message> {
    fn fmt<W: fmt::Write>(&self, f: &mut fmt::Formatter<W>) -> fmt::Result {
        let Message { header, body } = self.0;
        let stamp = body.stamp();
        write!(
            f,
            "message kind={} {} {}",
            body.kind(),
            Text(header),
            Text(stamp)
        )?;
        match body {
            Body::DelayResp(_, port) => write!(f, " requesting={}", Text(port)),
            Body::Announce(_, offer) => write!(f, " {}", Text(offer)),
            _ => Ok(()),
        }
    }
}
