// The records of a stream: each tried, counted, and its answer printed.
#![tactic(auto, unfolding(crate::specs::Passes::tried, crate::specs::Passes::closed, crate::specs::Passes::close_answer, crate::specs::Passes::countable, crate::specs::Passes::pass_answer, crate::specs::Printed::answer_text))]

ghost use Rattle.std.specs.Prelude.{◌≡◌, cond, [], ◌++◌, ◌+◌, ◌≤◌, ◌<◌, ◌^◌, min, leb, length, take, Some, None, Ok, IsOk, IsErr};
ghost use Rattle.book.specs.Runs.{first_hours};
ghost use Rattle.report.specs.Buffers.{Stays};
ghost use Rattle.report.specs.Printed.{end_line, lines_most, pair_most};
ghost use Rattle.report.specs.Passes.{State, standing, state_of, at_first, post_area, tried, HoursTaken, stopped, passed, free, room, Left, emptied, countable, pass_answer, text_given, close_answer, finish_answer, ended};

use crate::buffer::Buffer;
use crate::standing::Report;
use crate::text::{LINES_MOST, PAIR_MOST, put_end, put_lines, put_refusal};
use book::Book;
use records::decode::decode;
use records::format::Record;
use records::stream::{Next, next_record};

// Why a pass over a slice stopped.
#[derive(Clone, Copy)]
pub enum Stop {
    // There is no room for another answer.
    Full,
    // What is left is not a whole record.
    Partial,
    // A record was broken: nothing more is read.
    Broken,
}

#[derive(Clone, Copy)]
pub struct Pass {
    // Where the record begins that the pass stopped at; a broken one takes all that is left.
    pub next: usize,
    pub stop: Stop,
}

// There is no last line: the text has no room for it, or the counts do not fit 64 bits. One value for both, since a caller can only
// end without it.
#[derive(Clone, Copy)]
pub struct Unfinished;

// What stays free for one more answer and the last line.
const ROOM: usize = LINES_MOST + PAIR_MOST;

// The area of a Post; 0, and no Option, for other records, as they have no lines to print it in.
fn post_area(bytes: &[u8]) -> u32
    ensures { result ≡ post_area bytes.now }
{
    match decode(bytes) {
        Ok(Record::Post(area)) => area,
        _ => 0,
    }
}

// The last line, whatever was counted: two numbers here, and no Report, in which no more are accepted than tried.
pub fn last_line<B: Buffer>(out: &mut B, tried: u64, accepted: u64) -> Result<(), Unfinished>
    ensures value { text_given result (B.text out.new)
        ≡ cond (leb (length (B.text out.old) + pair_most) (B.size out.old)) (Some (B.text out.old ++ end_line tried accepted)) None }
    ensures stays { Stays B.size B.place out.old out.new }
    ensures given { length (B.text out.old) + pair_most ≤ B.size out.old → IsOk result }
{
    if out.room() < PAIR_MOST {
        return Err(Unfinished);
    }
    put_end(out, tried, accepted);
    Ok(())
}

impl Report {
    pub fn new() -> Self
        ensures { state_of result [] ≡ at_first }
    {
        Self {
            book: Book::new(),
            tried: 0,
            accepted: 0,
        }
    }

    // A run from any standing; no more records are accepted than tried.
    pub fn resume(book: Book, tried: u64, accepted: u64) -> Self
        ensures { state_of result [] ≡ standing book tried (min accepted tried) [] }
    {
        Self {
            book,
            tried,
            accepted: accepted.min(tried),
        }
    }

    // The book, and the records tried and accepted.
    pub fn into_parts(self) -> (Book, u64, u64)
        ensures { standing result.0 result.1 result.2 [] ≡ state_of self [] }
    {
        let Self {
            book,
            tried,
            accepted,
        } = self;
        (book, tried, accepted)
    }

    // A string is tried: entered, counted, and its answer printed.
    fn try_record<B: Buffer>(&mut self, bytes: &[u8], out: &mut B)
        requires fits { self.old.tried + 1 < 2 ^ 64 }
        requires has_room { length (B.text out.old) + lines_most ≤ B.size out.old }
        ensures value { state_of self.new (B.text out.new) ≡ tried (state_of self.old (B.text out.old)) bytes.now }
        ensures stays { Stays B.size B.place out.old out.new }
        ensures most { length (B.text out.new) ≤ length (B.text out.old) + lines_most }
    {
        self.tried += 1;
        match self.book.enter(bytes) {
            Ok(lines) => {
                self.accepted += 1;
                put_lines(out, post_area(bytes), lines);
            }
            Err(refusal) => put_refusal(out, self.tried, u32::from(refusal)),
        }
    }

    // Accepted Hours and Days in a row: they are counted, and nothing is printed. Answers how many bytes they are.
    fn take_hours(&mut self, s: &[u8]) -> usize
        requires { self.old.tried + length s.now < 2 ^ 64 }
        ensures { HoursTaken (state_of self.old []) s.now result (state_of self.new []) }
    {
        let taken = self.book.hours(s);
        // `as`, here and below: no `From` between `usize` and `u64`.
        let records = taken.records as u64;
        self.tried += records;
        self.accepted += records;
        taken.bytes
    }

    // The records of s, until there is no room for another answer or no whole record is left. Each turn takes a record, of a
    // size that it only then knows: no `for` goes by that.
    fn pass_over<B: Buffer>(&mut self, s: &[u8], out: &mut B) -> Pass
        requires { self.old.tried + length s.now < 2 ^ 64 }
        ensures value { stopped (state_of self.new (B.text out.new)) result.next result.stop
            ≡ passed (B.size out.old) (state_of self.old (B.text out.old)) s.now }
        ensures stays { Stays B.size B.place out.old out.new }
        ensures has_room { length (B.text out.new) + free result.stop ≤ B.size out.old }
        ensures left { Left result.next self.new.tried self.old.tried s.now }
    {
        let mut at = 0;
        loop {
            if out.room() < ROOM {
                return Pass {
                    next: at,
                    stop: Stop::Full,
                };
            }
            at += self.take_hours(&s[at..]);
            let rest = &s[at..];
            match next_record(rest) {
                Next::Partial => {
                    return Pass {
                        next: at,
                        stop: Stop::Partial,
                    };
                }
                Next::Broken => {
                    self.try_record(rest, out);
                    return Pass {
                        next: s.len(),
                        stop: Stop::Broken,
                    };
                }
                Next::Whole(length) => {
                    self.try_record(&rest[..length], out);
                    at += length;
                }
            }
        }
    }

    // So many records, if the count of records tried fits 64 bits with them; else none, a number as well: what to take of s.
    fn countable(&self, more: usize) -> usize
        ensures value { result ≡ countable self.now.tried more }
        ensures most { (result ≤ more) × (self.now.tried + result < 2 ^ 64) }
    {
        match self.tried.checked_add(more as u64) {
            Some(_) => more,
            None => 0,
        }
    }

    // The records of s are tried, until there is no room for another answer or no whole record is left. Where the counts might
    // not fit, none is.
    pub fn take<B: Buffer>(&mut self, s: &[u8], out: &mut B) -> Pass
        ensures value { stopped (state_of self.new (B.text out.new)) result.next result.stop
            ≡ pass_answer (B.size out.old) (state_of self.old (B.text out.old)) s.now }
        ensures stays { Stays B.size B.place out.old out.new }
        ensures has_room { length (B.text out.new) + free result.stop ≤ B.size out.old }
        ensures left { Left result.next self.new.tried self.old.tried s.now }
    {
        let end = self.countable(s.len());
        self.pass_over(&s[..end], out)
    }

    // The last line, after a broken record.
    pub fn close<B: Buffer>(&self, out: &mut B) -> Result<(), Unfinished>
        ensures value { text_given result (B.text out.new) ≡ close_answer (B.size out.old) (state_of self.now (B.text out.old)) }
        ensures stays { Stays B.size B.place out.old out.new }
        ensures given { length (B.text out.old) + pair_most ≤ B.size out.old → IsOk result }
    {
        last_line(out, self.tried, self.accepted)
    }

    // The end of the input: what is left of it is a cut record, and is tried; then comes the last line.
    pub fn finish<B: Buffer>(&mut self, rest: &[u8], out: &mut B) -> Result<(), Unfinished>
        ensures value { text_given result (B.text out.new) ≡ finish_answer (B.size out.old) (state_of self.old (B.text out.old)) rest.now }
        ensures stays { Stays B.size B.place out.old out.new }
        ensures given { self.old.tried + 1 < 2 ^ 64 → length (B.text out.old) + room ≤ B.size out.old → IsOk result }
        ensures run { IsOk result → state_of self.new [] ≡ emptied (ended (state_of self.old []) rest.now) }
        ensures kept { IsErr result → state_of self.new [] ≡ state_of self.old [] }
        ensures tried { self.new.tried ≤ self.old.tried + 1 }
    {
        if !rest.is_empty() {
            if self.tried == u64::MAX || out.room() < ROOM {
                return Err(Unfinished);
            }
            self.try_record(rest, out);
        }
        self.close(out)
    }
}
