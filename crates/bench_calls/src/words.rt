// The words of a line: numbers, clock identities and octets.
ghost use Rattle.std.specs.Prelude.{◌≤◌, ◌*◌, length, IfSome};

use crate::Store;
use std::str;
use std::str::{FromStr, Split};

// The octets of a call, at the front of the store that they were put into.
#[derive(Clone, Copy)]
pub struct Octets<'a> {
    pub held: &'a [u8],
    ghost stored: { length held.now ≤ 131_072 },
}

// What is left of a line's words; one space lies between each two. Where a word is not what its field holds, it is None, and with it the line.
#[derive(Drop)]
pub(crate) struct Words<'a>(Split<'a, char>);

impl<'a> Words<'a> {
    // A line that is no text is no call: every call is ASCII.
    pub(crate) fn of(line: &'a [u8]) -> Option<Words<'a>> {
        Some(Words(str::from_utf8(line).ok()?.split(' ')))
    }

    pub(crate) fn word(&mut self) -> Option<&'a str> {
        self.0.next()
    }

    // std's numbers may begin with a plus, and a line's may not.
    fn digits(&mut self) -> Option<&'a str> {
        self.word().filter(|word| !word.starts_with('+'))
    }

    // A decimal number of the field's type.
    pub(crate) fn number<T: FromStr>(&mut self) -> Option<T>
    where
        T::Err: Drop,
    {
        self.digits()?.parse().ok()
    }

    // A number from 0 to `most`.
    pub(crate) fn up_to(&mut self, most: usize) -> Option<usize>
        ensures { IfSome result (λ n. n ≤ most) }
    {
        self.number().filter(|n| *n <= most)
    }

    // A clock identity: 16 hex digits, of either case.
    pub(crate) fn identity(&mut self) -> Option<u64> {
        let digits = self.digits().filter(|word| word.len() == 16)?;
        u64::from_str_radix(digits, 16).ok()
    }

    // Octets in lower-case hex, put at the front of the store; `-` means none.
    pub(crate) fn octets<'s>(&mut self, store: &'s mut Store) -> Option<Octets<'s>> {
        octets_of(self.word()?, store)
    }
}

// No octet is handed on but those that the word has.
fn octets_of<'s>(word: &str, store: &'s mut Store) -> Option<Octets<'s>>
    ensures { IfSome result (λ octets. 2 * length octets.held.now ≤ length word.now) }
{
    match word {
        "" => None,
        "-" => Some(Octets { held: &[] }),
        _ => {
            if word.bytes().any(|b| b.is_ascii_uppercase()) {
                return None;
            }
            let held = store.get_mut(..word.len() / 2)?;
            hex::decode_to_slice(word, held).ok()?;
            Some(Octets { held })
        }
    }
}
