// Where a run of records stands.
ghost use Rattle.std.specs.Prelude.{◌≡◌, ◌≤◌};

use book::Book;

// The book, how many records were tried and how many of them accepted.
#[derive(Drop)]
pub struct Report {
    pub(crate) book: Book,
    pub(crate) tried: u64,
    pub(crate) accepted: u64,
    ghost counted: { accepted ≤ tried },
}

impl Report {
    pub fn tried(&self) -> u64
        ensures { result ≡ self.now.tried }
    {
        self.tried
    }

    pub fn accepted(&self) -> u64
        ensures { result ≡ self.now.accepted }
    {
        self.accepted
    }
}
