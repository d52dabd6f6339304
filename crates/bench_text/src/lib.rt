// Text, gathered in a buffer and written out, and values of the crates below as text.
#![tactic(auto)]

pub mod messages;
#[cfg(test)]
mod tests;

ghost use Rattle.std.specs.Prelude.{◌≡◌, ◌≤◌, ◌<◌, ◌++◌, None, Some, Ok, MatchResult, [], length, codes};
ghost use Rattle.std.specs.Fmt.{decimal};
ghost use Rattle.numbers.specs.Orders.{number_of};
ghost use Rattle.std.specs.Io.{WritesAtMost};
ghost use Rattle.std.specs.Io.KnownBytes.{Keeps, WriteAppends};
ghost use Rattle.bench_text.specs.Out.{told_by, Kept, fitting, staying};

use arrayvec::ArrayVec;
use numbers::refusal::Refusal;
use std::io::{Stdout, Write};
use std::{fmt, io, str};

// The buffer, where it is written out to, and the first write that failed: nothing is written behind it.
#[derive(Drop)]
pub struct Out {
    octets: ArrayVec<u8, 65_536>,
    to: Stdout,
    failed: Option<io::Error>,
}

impl Out {
    pub fn new(to: Stdout) -> Out
        ensures empty { result.octets.items ≡ [] }
        ensures none_failed { result.failed ≡ None }
    {
        Out {
            octets: ArrayVec::new(),
            to,
            failed: None,
        }
    }

    // Whether all that was to be written out was.
    pub fn done(&self) -> io::Result<()>
        ensures { result ≡ told_by self.now.failed }
    {
        match self.failed {
            Some(e) => Err(e),
            None => Ok(()),
        }
    }
}

impl Write for Out {
    // Where the buffer is full it is written out first. Where there is room, as much as fits is taken, whatever failed before: `done` tells that.
    fn write(&mut self, text: &[u8]) -> io::Result<usize>
        ensures bound { WritesAtMost result text.now }
        ensures bytes { WriteAppends None None result text.now }
        ensures failure { Kept self.old.failed self.new.failed }
        ensures room { length self.old.octets.items < 65_536 → (result ≡ Ok (fitting self.old.octets.items text.now)) × (self.new.failed ≡ self.old.failed) }
        ensures full { 65_536 ≤ length self.old.octets.items → MatchResult result (λ n. (self.new.failed ≡ None) × (n ≡ fitting [] text.now)) (λ e. self.new.failed ≡ Some e) }
        ensures taken { WriteAppends (Some (staying self.old.octets.items)) (Some self.new.octets.items) result text.now }
    {
        if self.octets.is_full() {
            self.flush()?;
        }
        self.octets.write(text)
    }

    // The gathered octets are written out: none are left.
    fn flush(&mut self) -> io::Result<()>
        ensures bytes { Keeps None None }
        ensures none_left { self.new.octets.items ≡ [] }
        ensures told { result ≡ told_by self.new.failed }
        ensures failure { Kept self.old.failed self.new.failed }
    {
        if self.failed.is_none() {
            self.failed = self.to.write_all(&self.octets).err();
        }
        self.octets.clear();
        self.done()
    }
}

// A value of a crate below, as text.
#[derive(Clone, Copy)]
pub struct Text<T>(pub T);

impl fmt::Display for Text<Refusal> {
    ghost output = { λ t. Some (codes "refused " ++ decimal (number_of t.0)) };

    fn fmt<W: fmt::Write>(&self, f: &mut fmt::Formatter<W>) -> fmt::Result {
        write!(f, "refused {}", self.0.number())
    }
}

// Two digits for each octet, at the front of the store.
fn digits_of<'a>(piece: &[u8], store: &'a mut [u8; 512]) -> &'a str
    requires { length piece.now ≤ 256 }
{
    let digits = &mut store[..2 * piece.len()];
    let Ok(()) = hex::encode_to_slice(piece, digits) else {
        unreachable!();
    };
    let Ok(text) = str::from_utf8(digits) else {
        unreachable!();
    };
    text
}

// Octets in hex, two digits each; `-` means none.
#[derive(Clone, Copy)]
pub struct Octets<'a>(pub &'a [u8]);

impl fmt::Display for Octets<'_> {
    fn fmt<W: fmt::Write>(&self, f: &mut fmt::Formatter<W>) -> fmt::Result {
        if self.0.is_empty() {
            return write!(f, "-");
        }
        // By the piece: a format for each octet takes ten times as long.
        let mut store = [0u8; 512];
        for piece in self.0.chunks(256) {
            f.write_str(digits_of(piece, &mut store))?;
        }
        Ok(())
    }
}
