// What is answered to `read` and `write`, which need no unit. Neither can fail: a write that does is kept by `out`, which tells it.
#![tactic(auto)]

use bench_text::{Octets, Out, Text};
use std::io;
use std::io::Write;
use wire_layout::message::{Message, Part};

// The octets of a part.
fn part_of(octets: &[u8], part: Part) -> &[u8] {
    octets.get(part.from..part.to).unwrap_or(b"")
}

pub fn read(out: &mut Out, octets: &[u8]) {
    let _ = read_to(out, octets);
}

fn read_to(out: &mut Out, octets: &[u8]) -> io::Result<()> {
    match wire_reader::read(octets) {
        Ok((message, suffix)) => {
            let suffix = part_of(octets, suffix);
            write!(out, "{} suffix={}", Text(message), Octets(suffix))
        }
        Err(refusal) => write!(out, "{}", Text(refusal)),
    }
}

// The part that is lent to writing has `room` octets, each ee before the call.
pub fn write(out: &mut Out, message: Message, suffix: &[u8], room: usize) {
    let _ = write_to(out, message, suffix, room);
}

fn write_to(out: &mut Out, message: Message, suffix: &[u8], room: usize) -> io::Result<()> {
    let mut whole = [0xeeu8; 70_000];
    let Some(part) = whole.get_mut(..room) else {
        return write!(out, "bad line");
    };
    match wire_writer::write(message, suffix, part) {
        Ok(_) => write!(out, "wrote {}", Octets(part)),
        Err(refusal) => write!(out, "{}", Text(refusal)),
    }
}
