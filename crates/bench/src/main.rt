// The bench: reads a list of calls on standard input and writes one line of answer to each.
#![tactic(auto)]

use arrayvec::ArrayVec;
use bench_calls::{Store, call_of};
use bench_desk::Desk;
use bench_text::Out;
use std::io;
use std::io::{Read, Stdin, Stdout, Write};

// What is kept between two reads.
#[derive(Drop)]
struct Bench {
    desk: Desk,
    line: ArrayVec<u8, 262_145>, // as far as it is read; a full one is longer than any call
    store: Store,
    out: Out,
}

impl Bench {
    fn new(to: Stdout) -> Bench {
        Bench {
            desk: Desk::bare(),
            line: ArrayVec::new(),
            store: [0; 131_072],
            out: Out::new(to),
        }
    }

    // The line is whole: it has its answer, but for an empty one and a remark, and the next one begins.
    fn line_end(&mut self) -> io::Result<()> {
        if !matches!(self.line.as_slice(), [] | [b'#', ..]) {
            if self.line.is_full() {
                self.desk.answer(&mut self.out, None);
            } else {
                let call = call_of(&self.line, &mut self.store);
                self.desk.answer(&mut self.out, call);
            }
            // The answer whose write failed is the last.
            self.out.done()?;
            writeln!(self.out)?;
        }
        self.line.clear();
        Ok(())
    }

    // The lines of a block are answered, but for the last where it goes on in the next block. What a line has no room for is cut off.
    fn block(&mut self, block: &[u8]) -> io::Result<()> {
        for piece in block.split_inclusive(|b| *b == b'\n') {
            self.line.write(piece.strip_suffix(b"\n").unwrap_or(piece))?;
            if piece.ends_with(b"\n") {
                self.line_end()?;
            }
        }
        self.out.flush()
    }

    fn run(&mut self, mut input: Stdin) -> io::Result<()> {
        let mut block = [0; 65_536];
        // A proved loop has to end, and nothing says that the input does: no run uses up so many reads.
        for _ in 0..u64::MAX {
            let n = input.read(&mut block)?;
            if n == 0 {
                break;
            }
            self.block(&block[..n])?;
        }
        // The last line may lack its newline.
        self.line_end()?;
        self.out.flush()
    }
}

fn main(rt: HostRuntime) -> io::Result<()> {
    Bench::new(rt.stdout()).run(rt.stdin())
}
