// A request: the five numbers of a retry sheet, and the number of steps to show.
ghost use Rattle.std.specs.Prelude.{Some};
ghost use Rattle.requests.specs.Words.{in_words, wanted};

use std::fmt;

// Its first five fields are those of the retry sheet, written again: this crate stands on none, so that a line is read without a sheet.
#[derive(Clone, Copy)]
pub struct Request {
    pub events: u32,
    pub resends: u32,
    pub denominator: u32,
    // The weight of a lost request.
    pub request: u32,
    // The weight of a lost receipt.
    pub receipt: u32,
    pub steps: u32,
}

// The line is not six whole numbers below 2^32.
#[derive(Clone, Copy, Debug)]
pub struct BadLine;

impl fmt::Display for Request {
    ghost output = { λ q. Some (in_words q) };

    fn fmt<W: fmt::Write>(&self, f: &mut fmt::Formatter<W>) -> fmt::Result {
        let Request {
            events,
            resends,
            denominator,
            request,
            receipt,
            ..
        } = self;
        write!(
            f,
            "Retry sheet: events {events}, resends of each {resends}. \
             Of {denominator} sendings {request} lose the request and {receipt} the receipt."
        )
    }
}

impl fmt::Display for BadLine {
    ghost output = { λ x. Some (wanted x) };

    fn fmt<W: fmt::Write>(&self, f: &mut fmt::Formatter<W>) -> fmt::Result {
        f.write_str(
            "bad line: six whole numbers are wanted, E M D a b N, each from 0 to 4294967295",
        )
    }
}
