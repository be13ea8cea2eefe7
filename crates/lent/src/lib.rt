// "The station record is lent by its owner and updated there" (01, "A station's record", "What form
// each place takes").
#![tactic(auto)]

ghost use Rattle.station.specs.Outcomes.{said};
ghost use Rattle.station.specs.Calls.{open_said, listen_said, abort_said, resend_said, power_cut_said};
ghost use Rattle.station.specs.Arrival.{arrive_said, octets_said};
ghost use Rattle.lent.specs.Lent.{Lent, OneOutcome, RefusedUnchanged};

use segment::{Refusal, Segment};
use station::{Done, Station};

// What a lent call that is taken answers: what was sent, and whether the number offered was drawn.
#[derive(Clone, Copy, Debug, PartialEq, Eq)]
pub struct Reply {
    pub sent: Option<Segment>,
    pub drawn: bool,
}

// A call on a copy of the record; the next record is stored, after a refusal none.
fn lend<F: FnOnce(Station) -> Result<Done, Refusal>>(
    s: &mut Station,
    call: F,
) -> Result<Reply, Refusal>
    requires { F.pre call s.old }
    ensures { (r : _) × F.post call s.old r × Lent s.old (said r) s.new result }
{
    let done = call(*s)?;
    *s = done.next;
    Ok(Reply {
        sent: done.sent,
        drawn: done.drawn,
    })
}

// ---- the lent calls, each the station's call of its name

pub fn open_lent(s: &mut Station, n: u32) -> Result<Reply, Refusal>
    ensures { Lent s.old (open_said s.old n) s.new result }
{
    lend(s, |before| before.open(n))
}

pub fn listen_lent(s: &mut Station) -> Result<Reply, Refusal>
    ensures { Lent s.old (listen_said s.old) s.new result }
{
    lend(s, |before| before.listen())
}

pub fn abort_lent(s: &mut Station) -> Result<Reply, Refusal>
    ensures { Lent s.old (abort_said s.old) s.new result }
{
    lend(s, |before| before.abort())
}

pub fn resend_lent(s: &mut Station) -> Result<Reply, Refusal>
    ensures { Lent s.old (resend_said s.old) s.new result }
{
    lend(s, |before| before.resend())
}

pub fn power_cut_lent(s: &mut Station) -> Result<Reply, Refusal>
    ensures { Lent s.old (power_cut_said s.old) s.new result }
{
    lend(s, |before| before.power_cut())
}

pub fn arrive_lent(s: &mut Station, g: Segment, fresh: u32) -> Result<Reply, Refusal>
    ensures { Lent s.old (arrive_said s.old g fresh) s.new result }
{
    lend(s, |before| before.arrive(g, fresh))
}

// Octets arrive between two addresses.
pub fn octets_lent(
    s: &mut Station,
    src: u32,
    dst: u32,
    octets: &[u8],
    fresh: u32,
) -> Result<Reply, Refusal>
    ensures { Lent s.old (octets_said s.old src dst octets.now fresh) s.new result }
{
    lend(s, |before| before.arrive_octets(src, dst, octets, fresh))
}

// ---- theorems, each promised by a function that does nothing

// After a refusal the record at exit is the one before it.
pub fn refused_unchanged()
    ensures { RefusedUnchanged }
{}

// The contracts leave one outcome.
pub fn one_outcome()
    ensures { OneOutcome }
{}
