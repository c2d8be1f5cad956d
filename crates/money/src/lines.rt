// The lines of a post.
ghost use Rattle.std.specs.Prelude.{◌≡◌};
ghost use Rattle.money.specs.Quantities.{cents};
ghost use Rattle.money.specs.Lines.{line_answer, lines_answer};

use crate::Cents;
use std::array;

// The most cents of a due in size.
const DUE_MOST: u64 = 2_928_000_000;

impl Cents {
    // A due's line: the due less the earlier lines; where either is past the bound 0, and no Option: the definition `line_answer`
    // gives 0 there. Those of an area never are.
    #[tactic(auto, unfolding(crate::specs::Lines::line_answer))]
    fn line_after(self, earlier: Self) -> Self
        ensures { result ≡ cents (line_answer self.0 earlier.0) }
    {
        if self.cents_size() <= DUE_MOST && earlier.cents_size() <= DUE_MOST {
            Cents::difference(
                self.cents_above() + earlier.cents_below(),
                self.cents_below() + earlier.cents_above(),
            )
        } else {
            Cents(0)
        }
    }
}

// The sixteen lines of a post, from the dues and the sums of the parties' earlier lines in the area. No twin of `add_shares` of
// capacity: two quantities.
pub fn lines(dues: [Cents; 16], earlier: [Cents; 16]) -> [Cents; 16]
    ensures { result ≡ lines_answer dues earlier }
{
    array::from_fn(|p| dues[p].line_after(earlier[p]))
}
