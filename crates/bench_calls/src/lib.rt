// A line of the bench's page becomes a call: the words behind the call word are read into typed values.
#![tactic(auto)]

mod fields;
#[cfg(test)]
mod tests;
pub mod to_unit;
mod words;

use fields::{body, header};
use to_unit::{ToUnit, call_to_unit};
use wire_layout::message::Message;
pub use words::Octets;
use words::Words;

// Where the octets of a call are put: more than the longest line can have.
pub type Store = [u8; 131_072];

#[derive(Clone, Copy)]
pub enum Call<'a> {
    Lend(u8),
    Read(Octets<'a>),
    Write(Message, Octets<'a>, usize),
    ToUnit(ToUnit<'a>),
}

fn message(words: &mut Words) -> Option<Message> {
    let kind = words.number()?;
    Some(Message {
        header: header(words)?,
        body: body(words, kind)?,
    })
}

// The call that the line is; None where it has a word too many or too few, or one that its field's type can't hold.
pub fn call_of<'a>(line: &[u8], store: &'a mut Store) -> Option<Call<'a>> {
    let mut words = Words::of(line)?;
    let call = match words.word()? {
        "lend" => Call::Lend(words.up_to(8)? as u8),
        "read" => Call::Read(words.octets(store)?),
        "write" => Call::Write(
            message(&mut words)?,
            words.octets(store)?,
            words.up_to(70_000)?,
        ),
        word => Call::ToUnit(call_to_unit(word, &mut words, store)?),
    };
    words.word().is_none().then_some(call)
}
