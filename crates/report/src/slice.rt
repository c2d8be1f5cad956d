// A run whose text is in a slice of the caller's, of any length: what stands in it before a place, which the caller keeps beside it.
ghost use Rattle.std.specs.Prelude.{◌≡◌, cond, [], ◌++◌, ◌+◌, ◌≤◌, leb, Some, None, IsOk, IsErr, IfOk, length, take};
ghost use Rattle.std.specs.Io.Cursor.{cursor_position, cursor_inner};
ghost use Rattle.report.specs.Printed.{end_line, pair_most};
ghost use Rattle.report.specs.Passes.{state_of, standing, stopped, free, Left, pass_answer, text_before, emptied, ended, close_answer, finish_answer, finish_from_answer};

use crate::buffer::Buffer;
use crate::pass::{Pass, Unfinished, last_line};
use crate::standing::Report;
use book::Book;
use std::io::Cursor;

// Such a slice as a buffer. `as`: no `From` between `usize` and `u64`.
fn text_in(out: &mut [u8], used: usize) -> Cursor<&mut [u8]>
    ensures slice { (cursor_inner result).now ≡ out.old }
    ensures same { (cursor_inner result).ghost_name ≡ out.entry.ghost_name }
    ensures place { cursor_position result ≡ used }
{
    let mut text = Cursor::new(out);
    text.set_position(used as u64);
    text
}

// `last_line`, and where the text ends.
fn last_line_in(out: &mut [u8], used: usize, tried: u64, accepted: u64) -> Result<usize, Unfinished>
    ensures value { text_before result out.new ≡ cond (leb (length (take used out.old) + pair_most) (length out.old))
        (Some (take used out.old ++ end_line tried accepted)) None }
    ensures inside { IfOk result (λ end. end ≤ length out.new) }
{
    let mut text = text_in(out, used);
    last_line(&mut text, tried, accepted)?;
    Ok(text.as_slice().len())
}

impl Report {
    // `take`, and where the text ends.
    pub fn take_in(&mut self, s: &[u8], out: &mut [u8], used: usize) -> (Pass, usize)
        ensures value { stopped (state_of self.new (take result.1 out.new)) result.0.next result.0.stop
            ≡ pass_answer (length out.old) (state_of self.old (take used out.old)) s.now }
        ensures has_room { result.1 + free result.0.stop ≤ length out.new }
        ensures left { Left result.0.next self.new.tried self.old.tried s.now }
    {
        let mut text = text_in(out, used);
        let pass = self.take(s, &mut text);
        (pass, text.as_slice().len())
    }

    // `close`, and where the text ends.
    pub fn close_in(&self, out: &mut [u8], used: usize) -> Result<usize, Unfinished>
        ensures value { text_before result out.new ≡ close_answer (length out.old) (state_of self.now (take used out.old)) }
        ensures inside { IfOk result (λ end. end ≤ length out.new) }
    {
        let mut text = text_in(out, used);
        self.close(&mut text)?;
        Ok(text.as_slice().len())
    }

    // `finish`, and where the text ends.
    pub fn finish_in(
        &mut self,
        rest: &[u8],
        out: &mut [u8],
        used: usize,
    ) -> Result<usize, Unfinished>
        ensures value { text_before result out.new ≡ finish_answer (length out.old) (state_of self.old (take used out.old)) rest.now }
        ensures run { IsOk result → state_of self.new [] ≡ emptied (ended (state_of self.old []) rest.now) }
        ensures kept { IsErr result → state_of self.new [] ≡ state_of self.old [] }
        ensures inside { IfOk result (λ end. end ≤ length out.new) }
    {
        let mut text = text_in(out, used);
        self.finish(rest, &mut text)?;
        Ok(text.as_slice().len())
    }

    // `finish_in`, from any counts: where more count as accepted than tried, and a record is left, there is no last line.
    #[tactic(auto, unfolding(crate::specs::Passes::closed, crate::specs::Passes::close_answer))]
    pub fn finish_from(
        book: Book,
        tried: u64,
        accepted: u64,
        rest: &[u8],
        out: &mut [u8],
        used: usize,
    ) -> Result<usize, Unfinished>
        ensures value { text_before result out.new
            ≡ finish_from_answer (length out.old) (standing book tried accepted (take used out.old)) rest.now }
        ensures inside { IfOk result (λ end. end ≤ length out.new) }
    {
        if rest.is_empty() {
            return last_line_in(out, used, tried, accepted);
        }
        if tried < accepted {
            return Err(Unfinished);
        }
        Self::resume(book, tried, accepted).finish_in(rest, out, used)
    }
}
