// Reading a request from a line of numbers.
ghost use Rattle.std.specs.Prelude.{◌≡◌, ◌↔◌, IsTrue};
ghost use Rattle.requests.specs.Line.{blank, unblanked, OnlyBlanks, digits, behind, Taken, Parsed};

use crate::request::{BadLine, Request};
use std::str;

// Spaces, tabs and ends of lines.
fn is_blank_byte(b: u8) -> bool
    ensures { result ≡ blank b }
{
    matches!(b, b' ' | b'\t' | b'\n' | b'\r')
}

// The text behind the blanks that it begins with.
fn skip_blanks(text: &[u8]) -> &[u8]
    ensures { result.now ≡ unblanked text.now }
{
    let blanks = text.iter().take_while(|b| is_blank_byte(**b)).count();
    &text[blanks..]
}

// Whether the text has nothing but blanks.
fn is_blank(text: &[u8]) -> bool
    ensures { IsTrue result ↔ OnlyBlanks text.now }
{
    skip_blanks(text).is_empty()
}

// The first run of digits, after blanks, and the text behind it.
fn split_digits(text: &[u8]) -> (&[u8], &[u8])
    ensures digits { result.0.now ≡ digits text.now }
    ensures behind { result.1.now ≡ behind text.now }
{
    let text = skip_blanks(text);
    text.split_at(text.iter().take_while(|b| b.is_ascii_digit()).count())
}

// What is left of a line whose numbers are taken one after the other.
#[derive(Drop)]
struct Line<'a> {
    rest: &'a [u8],
}

impl<'a> Line<'a> {
    // The number that it begins with, after blanks. It goes on behind that number, or stays where there is none.
    fn number(&mut self) -> Result<u32, BadLine>
        ensures { Taken self.old.rest.now result self.new.rest.now }
    {
        let (digits, rest) = split_digits(self.rest);
        let digits = str::from_utf8(digits).map_err(|_| BadLine)?;
        let n = digits.parse().map_err(|_| BadLine)?;
        self.rest = rest;
        Ok(n)
    }
}

// Six numbers with blanks between them.
impl TryFrom<&[u8]> for Request {
    type Error = BadLine;

    ghost try_from_gives = { λ line r. Parsed line.now r };

    fn try_from(line: &[u8]) -> Result<Request, BadLine> {
        let mut line = Line { rest: line };
        let request = Request {
            events: line.number()?,
            resends: line.number()?,
            denominator: line.number()?,
            request: line.number()?,
            receipt: line.number()?,
            steps: line.number()?,
        };
        if !is_blank(line.rest) {
            return Err(BadLine);
        }
        Ok(request)
    }
}
