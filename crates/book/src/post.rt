// A post: from the units and commitments of a book to an area's lines.
ghost use Rattle.std.specs.Prelude.{◌≡◌, cond, ◌+◌, ◌<◌};
ghost use Rattle.numbers.specs.Sum.{capped};
ghost use Rattle.numbers.specs.Lists.{list_below};
ghost use Rattle.capacity.specs.Quantities.{unforced_watts};
ghost use Rattle.capacity.specs.Shortfall.{is_ready};
ghost use Rattle.capacity.specs.Shares.{shares_answer, nets_answer, excess_answer};
ghost use Rattle.records.specs.Format.{area_count, unit_count, party_count};
ghost use Rattle.rules.specs.Facts.{is_entered};
ghost use Rattle.rules.specs.Dues.{part_for, net_after, settled_in};
ghost use Rattle.rules.specs.Rules.{party_index};
ghost use Rattle.book.specs.Books.{commitment_in, facts_of_book, SoundCommitments};
ghost use Rattle.book.specs.Entered.{answered};
ghost use Rattle.book.specs.Steps.{unit_answer, post_answer};

use crate::{Book, UnitEntry};
use calendar::delivery_year::delivery_days;
use capacity::UnforcedWatts;
use capacity::shares::{add_shares, lower_nets, no_nets, owner_excess, unit_shares};
use capacity::shortfall::{committed, is_ready, limited_shortfall, watt_days};
use money::Cents;
use money::area::{Undistributed, area_money};
use money::lines::lines;
use numbers::split::capped_sum;
use records::format::CommitmentRecord;
use rules::indices::index;
use rules::refusal::Refusal;

// The parties' parts of unit u's V.
fn parts(commitments: &[CommitmentRecord; Book::COMMITMENTS], u: usize) -> [u64; Book::PARTIES]
    requires { SoundCommitments commitments.now × (u < unit_count) }
    ensures { result ≡ list_below party_count (part_for (commitment_in commitments.now) u) }
{
    let mut parts = [0; Book::PARTIES];
    for c in commitments {
        // `as`, here and below: no `From` between `u32` and `usize`.
        if c.unit as usize == u + 1 {
            let p = index::<{ Book::PARTIES }>(c.party);
            parts[p] += watt_days(u64::from(c.watts), u64::from(c.first), u64::from(c.last));
        }
    }
    parts
}

// The parties' nets in an area, and the ready excesses of their units there, as far as its units have been gone through.
#[derive(Clone, Copy)]
struct AreaNets {
    nets: [UnforcedWatts; Book::PARTIES],
    excesses: [UnforcedWatts; Book::PARTIES],
}

impl AreaNets {
    // With one unit of the area more, given the parties' parts of its V.
    fn with_unit(self, u: UnitEntry, parts: [u64; Book::PARTIES], days: u64) -> Self
        ensures nets { result.nets ≡ nets_answer self.nets (shares_answer (unit_answer u (capped parts) days) parts) }
        ensures excesses { result.excesses ≡ cond (is_ready (is_entered u.owner) (capped parts)) (nets_answer self.excesses (excess_answer (unit_answer u (capped parts) days) (party_index u.owner))) self.excesses }
    {
        let v = capped_sum(&parts);
        let owned = 0 < u.owner;
        let t = committed(u.entry.rating, owned, v, days);
        let s = limited_shortfall(u.entry.rating, u.hours, t);
        let nets = add_shares(self.nets, unit_shares(s, parts));
        if !is_ready(owned, v) {
            return Self { nets, ..self };
        }
        let owner = index::<{ Book::PARTIES }>(u.owner);
        let excesses = add_shares(self.excesses, owner_excess(s, owner));
        Self { nets, excesses }
    }
}

// That a number is an area's index is asked by three functions here; a type for it would be longer than the three clauses.
impl Book {
    // Each party's net in an area, after the ready excesses.
    fn area_nets(&self, area: usize) -> [UnforcedWatts; Book::PARTIES]
        requires { area < area_count }
        ensures { result ≡ list_below party_count (λ p. unforced_watts (net_after (facts_of_book self.now) area p)) }
    {
        let days = u64::from(delivery_days(self.year));
        let mut so_far = AreaNets {
            nets: no_nets(),
            excesses: no_nets(),
        };
        for (k, u) in self.units.iter().enumerate() {
            if u.entry.area as usize == area + 1 {
                so_far = so_far.with_unit(*u, parts(&self.commitments, k), days);
            }
        }
        lower_nets(so_far.nets, so_far.excesses)
    }

    // What an area comes to.
    fn area_settled(&self, area: usize) -> Result<[Cents; Book::PARTIES], Undistributed>
        requires { area < area_count }
        ensures { result ≡ settled_in (facts_of_book self.now) area }
    {
        let days = u64::from(delivery_days(self.year));
        let nets = self.area_nets(area);
        let obligations = std::array::from_fn(|p| u64::from(self.obligations[area][p]));
        area_money(nets, u64::from(self.areas[area].price), days, obligations)
    }

    // The post of an area that is entered: row 11, or the lines and the posted sums.
    pub(crate) fn post(&mut self, area: usize) -> Result<[Cents; Book::PARTIES], Refusal>
        requires { area < area_count }
        ensures { answered result self.new ≡ post_answer self.old area }
    {
        let dues = self.area_settled(area)?;
        let lines = lines(dues, self.posted[area]);
        self.posted[area] = dues;
        Ok(lines)
    }
}
