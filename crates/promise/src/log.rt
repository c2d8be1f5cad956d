// A whole log of strings, entered into a book that starts empty.
ghost use Rattle.std.specs.Prelude.{◌≡◌, map, ◌+◌, ◌-◌, ◌≤◌, min, length, take, drop, set};
ghost use Rattle.book.specs.Books.{empty_book, Sound};
ghost use Rattle.rules.specs.Refusal.{number_of};
ghost use Rattle.book.specs.Entered.{lines_given, book_after};
ghost use Rattle.promise.specs.Promise.{from_empty};
ghost use Rattle.promise.specs.Logs.{strings, stored_from, stored, all_numbers, all_lines};

use book::Book;
use money::Cents;
use rules::refusal::Refusal;

// The string between two places of the bytes.
fn between(bytes: &[u8], from: usize, end: usize) -> &[u8]
    ensures { result.now ≡ take (end - from) (drop from bytes.now) }
{
    let first = from.min(bytes.len());
    let last = end.min(bytes.len()).max(first);
    &bytes[first..last]
}

// 0 for what is no refusal, as the promise counts.
fn number(answer: Result<[Cents; Book::PARTIES], Refusal>) -> u32
    ensures { result ≡ number_of answer }
{
    match answer {
        Ok(_) => 0,
        Err(row) => u32::from(row),
    }
}

#[tactic(auto, unfolding(numbers::specs::Lists::list_below))]
fn amounts(answer: Result<[Cents; Book::PARTIES], Refusal>) -> [Cents; Book::PARTIES]
    ensures { result ≡ lines_given answer }
{
    answer.unwrap_or([Cents::zero(); Book::PARTIES])
}

// An index test: where `get_mut` gives nothing, no clause says that the slice stays as it was.
fn put_number(numbers: &mut [u32], i: usize, number: u32)
    ensures { numbers.new ≡ set numbers.old i number }
{
    if i < numbers.len() {
        numbers[i] = number;
    }
}

// As many of the amounts as there is room for. Answers the next place, which is never past the end.
fn put_lines(lines: &mut [i64], at: usize, amounts: [Cents; Book::PARTIES]) -> usize
    requires { at ≤ length lines.old }
    ensures lines_after { lines.new ≡ stored_from at lines.old (map (λ c. c.0) amounts) }
    ensures value { result ≡ min (at + length amounts) (length lines.old) }
{
    let amounts = amounts.map(Cents::amount);
    let end = lines.len().min(at + amounts.len());
    lines[at..end].copy_from_slice(&amounts[..end - at]);
    end
}

// The run that the promise speaks of. The strings stand end to end in bytes, and ends says where each of them ends. Their
// numbers, and their lines, sixteen for each string, are stored as far as there is room; the answer is the book after them. Lent
// slices, and no list of strings or of answers: a slice of slices would ask more of the caller.
pub fn run(bytes: &[u8], ends: &[usize], numbers: &mut [u32], lines: &mut [i64]) -> Book
    ensures value { (result ≡ book_after empty_book (strings bytes.now ends.now)) × Sound result }
    ensures numbers_after { numbers.new ≡ stored numbers.old (all_numbers (from_empty (strings bytes.now ends.now))) }
    ensures lines_after { lines.new ≡ stored lines.old (all_lines (from_empty (strings bytes.now ends.now))) }
{
    let mut book = Book::new();
    let mut from = 0;
    let mut next = 0;
    for (i, end) in ends.iter().enumerate() {
        let answer = book.enter(between(bytes, from, *end));
        put_number(numbers, i, number(answer));
        next = put_lines(lines, next, amounts(answer));
        from = *end;
    }
    book
}
