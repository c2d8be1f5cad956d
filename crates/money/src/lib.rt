// Area money: from the parties' nets to their dues, and the lines of a post.
#![tactic(auto)]

ghost use Rattle.std.specs.Prelude.{◌≡◌, pos};
ghost use Rattle.money.specs.Quantities.{cents};

// Money, with a private number. Below zero a party pays.
#[derive(Clone, Copy)]
pub struct Cents(i64);

impl Cents {
    pub fn zero() -> Self
        ensures { result ≡ cents (pos 0) }
    {
        Self(0)
    }

    pub fn amount(self) -> i64
        ensures { result ≡ self.0 }
    {
        self.0
    }
}

mod amounts;
pub mod area;
pub mod laws;
pub mod lines;
