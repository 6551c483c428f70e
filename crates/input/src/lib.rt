// A text taken line by line, for the programs that read standard input whole.
#![tactic(auto)]

ghost use Rattle.std.specs.Prelude.{◌≡◌, ◌==◌, ℕ, List};
ghost use Rattle.std.specs.List.{position};
ghost use Rattle.std.specs.Iterator.{YieldsFirstRef, item_count};
ghost use Rattle.input.specs.Lines.{lines_of};

use std::io;
use std::io::Read;
use std::marker::Model;

// The most that a program reads of standard input; the rest is left.
pub const INPUT_OCTETS: usize = 1048576;

// An input that ends where a read of it fails. It knows afterwards how many octets came, and the error. So a read that a signal interrupted is not tried
// again either, as std does where it gets the error.
#[derive(Drop)]
pub struct UpToFailure<R> {
    pub input: R,
    pub came: usize,
    pub failure: Option<io::Error>,
}

impl<R: Read> Read for UpToFailure<R> {
    fn read(&mut self, room: &mut [u8]) -> io::Result<usize> {
        match self.input.read(room) {
            Ok(count) => {
                self.came = self.came.saturating_add(count);
                Ok(count)
            }
            Err(e) => {
                self.failure = Some(e);
                Ok(0)
            }
        }
    }
}

// The lines of a text that are still to come.
#[derive(Drop)]
pub struct Lines<'a> {
    rest: &'a [u8],
}

impl<'a> Model for Lines<'a> {
    ghost Value = { List (List ℕ) };

    ghost view = { λ s. lines_of s.rest.now };
}

impl<'a> Iterator for Lines<'a> {
    type Item = &'a [u8];

    ghost next_gives = { YieldsFirstRef (λ rest. rest) };

    ghost remaining = { item_count (λ rest. rest) };

    fn next(&mut self) -> Option<&'a [u8]> {
        let text = self.rest;
        if text.is_empty() {
            return None;
        }
        match find_feed(text) {
            Some(end) => {
                self.rest = &text[end + 1..];
                Some(&text[..end])
            }
            None => {
                self.rest = &[];
                Some(text)
            }
        }
    }
}

// All lines of a text, for a loop that takes them one by one: a text is cut at each line feed, and a last line without one counts.
pub fn each_line(text: &[u8]) -> Lines<'_>
    ensures { result ≡ lines_of text.now }
{
    Lines { rest: text }
}

// `lent::session` looks for a feed too, in a piece that may end in mid-line: the two share std's `position`.
fn find_feed(text: &[u8]) -> Option<usize>
    ensures { result ≡ position (λ octet. octet == 10) text.now }
{
    text.iter().position(|octet| *octet == b'\n')
}
