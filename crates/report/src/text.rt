// What is printed, put at the end of a buffer's text: piece by piece, and not by `write!`, of which no clause says that it succeeds
// where there is room.
#![tactic(auto, using(crate::proofs::Texts::std_decimal, crate::proofs::Texts::std_signed), unfolding(crate::specs::Printed::party_lines, crate::specs::Printed::unless_zero, crate::specs::Printed::refused_line, crate::specs::Printed::party_line, crate::specs::Printed::end_line))]

ghost use Rattle.std.specs.Prelude.{◌≡◌, [], ◌∷◌, ◌++◌, ◌+◌, ◌≤◌, length};
ghost use Rattle.records.specs.Format.{party_count};
ghost use Rattle.report.specs.Buffers.{Puts};
ghost use Rattle.report.specs.Printed.{decimal, signed, field, line_end, refused_line, party_line, end_line, unless_zero, party_lines};
ghost use Rattle.report.specs.Printed.{field_most, signed_field_most, pair_most, line_most, lines_most};

use crate::buffer::Buffer;
use book::Book;
use itoa::Integer;
use money::Cents;

// What a text asks is room for the most bytes that it can have, and a type for room would be longer than the clause. The buffer is
// the caller's, and lent to each. The most bytes of each text, from those of its parts; specs/Printed.antt says what the parts are.
const DIGITS_MOST: usize = 20;

const FIELD_MOST: usize = 1 + DIGITS_MOST;

const SIGNED_FIELD_MOST: usize = 1 + 1 + DIGITS_MOST;

pub(crate) const PAIR_MOST: usize = 1 + FIELD_MOST + FIELD_MOST + 1;

const LINE_MOST: usize = 1 + FIELD_MOST + FIELD_MOST + SIGNED_FIELD_MOST + 1;

pub(crate) const LINES_MOST: usize = Book::PARTIES * LINE_MOST;

fn put<B: Buffer>(out: &mut B, text: &[u8])
    requires { length (B.text out.old) + length text.now ≤ B.size out.old }
    ensures put { Puts B.text B.size B.place out.old out.new text.now }
{
    out.put(text);
}

// A blank and a number.
fn put_field<I: Integer, B: Buffer>(out: &mut B, n: I)
    requires { length (B.text out.old) + 1 + I.MAX_STR_LEN ≤ B.size out.old }
    ensures put { Puts B.text B.size B.place out.old out.new (field (I.text n)) }
    ensures most { length (B.text out.new) ≤ length (B.text out.old) + 1 + I.MAX_STR_LEN }
{
    put(out, b" ");
    put(out, itoa::Buffer::new().format(n).as_bytes());
}

// Two functions for `put_field` at two types, each of which says its text in the words of the definitions.
fn put_number<B: Buffer>(out: &mut B, n: u64)
    requires { length (B.text out.old) + field_most ≤ B.size out.old }
    ensures put { Puts B.text B.size B.place out.old out.new (field (decimal n)) }
    ensures most { length (B.text out.new) ≤ length (B.text out.old) + field_most }
{
    put_field(out, n);
}

fn put_amount<B: Buffer>(out: &mut B, v: i64)
    requires { length (B.text out.old) + signed_field_most ≤ B.size out.old }
    ensures put { Puts B.text B.size B.place out.old out.new (field (signed v)) }
    ensures most { length (B.text out.new) ≤ length (B.text out.old) + signed_field_most }
{
    put_field(out, v);
}

// A letter and two numbers, with which each line begins.
fn put_start<B: Buffer>(out: &mut B, letter: &[u8; 1], n: u64, k: u64)
    requires { length (B.text out.old) + 1 + field_most + field_most ≤ B.size out.old }
    ensures put { Puts B.text B.size B.place out.old out.new (letter.now ++ field (decimal n) ++ field (decimal k)) }
    ensures most { length (B.text out.new) ≤ length (B.text out.old) + 1 + field_most + field_most }
{
    put(out, letter);
    put_number(out, n);
    put_number(out, k);
}

fn put_pair<B: Buffer>(out: &mut B, letter: &[u8; 1], n: u64, k: u64)
    requires { length (B.text out.old) + pair_most ≤ B.size out.old }
    ensures put { Puts B.text B.size B.place out.old out.new (letter.now ++ field (decimal n) ++ field (decimal k) ++ line_end) }
    ensures most { length (B.text out.new) ≤ length (B.text out.old) + pair_most }
{
    put_start(out, letter, n, k);
    put(out, b"\n");
}

// Two lines of a kind: a letter as a parameter would be no plainer where they are called.
pub(crate) fn put_refusal<B: Buffer>(out: &mut B, n: u64, c: u32)
    requires { length (B.text out.old) + pair_most ≤ B.size out.old }
    ensures put { Puts B.text B.size B.place out.old out.new (refused_line n c) }
    ensures most { length (B.text out.new) ≤ length (B.text out.old) + pair_most }
{
    put_pair(out, b"R", n, u64::from(c));
}

pub(crate) fn put_end<B: Buffer>(out: &mut B, n: u64, k: u64)
    requires { length (B.text out.old) + pair_most ≤ B.size out.old }
    ensures put { Puts B.text B.size B.place out.old out.new (end_line n k) }
    ensures most { length (B.text out.new) ≤ length (B.text out.old) + pair_most }
{
    put_pair(out, b"E", n, k);
}

fn put_line<B: Buffer>(out: &mut B, area: u32, party: u64, v: i64)
    requires { length (B.text out.old) + line_most ≤ B.size out.old }
    ensures put { Puts B.text B.size B.place out.old out.new (party_line area party v) }
    ensures most { length (B.text out.new) ≤ length (B.text out.old) + line_most }
{
    put_start(out, b"P", u64::from(area), party);
    put_amount(out, v);
    put(out, b"\n");
}

fn put_unless_zero<B: Buffer>(out: &mut B, area: u32, party: u64, v: i64)
    requires { length (B.text out.old) + line_most ≤ B.size out.old }
    ensures put { Puts B.text B.size B.place out.old out.new (unless_zero area party v) }
    ensures most { length (B.text out.new) ≤ length (B.text out.old) + line_most }
{
    if v != 0 {
        put_line(out, area, party, v);
    }
}

// The sixteen lines of a post of an area.
#[tactic(auto, using(crate::proofs::Texts::lines_more), unfolding(crate::specs::Printed::party_lines))]
pub(crate) fn put_lines<B: Buffer>(out: &mut B, area: u32, lines: [Cents; Book::PARTIES])
    requires { length (B.text out.old) + lines_most ≤ B.size out.old }
    ensures put { Puts B.text B.size B.place out.old out.new (party_lines area lines party_count) }
    ensures most { length (B.text out.new) ≤ length (B.text out.old) + lines_most }
{
    for (p, line) in lines.iter().enumerate() {
        // `as`: no `From` between `usize` and `u64`.
        put_unless_zero(out, area, p as u64 + 1, line.amount());
    }
}
