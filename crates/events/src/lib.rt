// Events in octets, ten to an event: its kind, its side, a place and a number.
#![tactic(auto)]

ghost use Rattle.std.specs.Prelude.{◌≡◌};
ghost use Rattle.events.specs.Lists.{side_of, event_of, event_at, names_event, is_event, is_list, count_of, list_at};
ghost use Rattle.events.specs.Theorems.{CrossesBack, Examples};

use model::{Event, Side};

// Each number has a side and a kind, as `event_at` promises of all octets; `names_event` tells which name one.
#[tactic(auto, unfolding(crate::specs::Lists::side_of))]
fn side_of(n: u32) -> Side
    ensures { result ≡ side_of n }
{
    match n {
        0 => Side::A,
        _ => Side::B,
    }
}

#[tactic(auto, unfolding(crate::specs::Lists::event_of))]
fn event_of(kind: u32, side: Side, place: usize, number: u32) -> Event
    ensures { result ≡ event_of kind side place number }
{
    match kind {
        0 => Event::Open(side, number),
        1 => Event::Listen(side),
        2 => Event::Abort(side),
        3 => Event::Resend(side),
        4 => Event::PowerCut(side),
        5 => Event::Deliver(side, place, number),
        6 => Event::Copy(side, place),
        _ => Event::Lose(side, place),
    }
}

// The event at the start of the octets, whatever they are: no Option, since this promise is of all octets.
#[tactic(auto, unfolding(crate::specs::Lists::event_at))]
pub fn event_at(s: &[u8]) -> Event
    ensures { result ≡ event_at s.now }
{
    event_of(
        segment::octet(s, 0),
        side_of(segment::octet(s, 1)),
        segment::get32(s, 2) as usize,
        segment::get32(s, 6),
    )
}

// Kind and side at the start of the octets name one.
#[tactic(auto, unfolding(crate::specs::Lists::names_event))]
fn names_event(s: &[u8]) -> bool
    ensures { result ≡ names_event s.now }
{
    (segment::octet(s, 0) < 8) & (segment::octet(s, 1) < 2)
}

// The octets are one event.
#[tactic(auto, unfolding(crate::specs::Lists::is_event))]
pub fn is_event(s: &[u8]) -> bool
    ensures { result ≡ is_event s.now }
{
    (s.len() == 10) & names_event(s)
}

// How many events the octets have room for.
pub fn count(s: &[u8]) -> usize
    ensures { result ≡ count_of s.now }
{
    s.len() / 10
}

// The octets are a list of events: a test beside `list`, which is promised of all octets.
#[tactic(auto, unfolding(crate::specs::Lists::is_list))]
pub fn is_list(s: &[u8]) -> bool
    ensures { result ≡ is_list s.now }
{
    let (events, rest) = s.as_chunks::<10>();
    rest.is_empty() && events.iter().all(|e| names_event(e))
}

// The events in the octets, as far as the player's limit; each place behind them listens at A. An array, with
// `count` beside it: memory is fixed, and a longer list is refused by its count.
#[tactic(auto, using(crate::proofs::Listed::filling))]
pub fn list(s: &[u8]) -> [Event; 4096]
    ensures { result ≡ list_at s.now }
{
    let (chunks, _) = s.as_chunks::<10>();
    let n = chunks.len().min(4096);
    let mut events = [Event::Listen(Side::A); 4096];
    // By place: after `iter_mut` a proof knows nothing of the elements.
    for (i, octets) in chunks[..n].iter().enumerate() {
        events[i] = event_at(octets);
    }
    events
}

// ---- theorems, promised by functions that do nothing

// What crosses comes back as it was.
#[tactic(auto, using(crate::proofs::Crossing::crosses_back))]
pub fn crosses_back()
    ensures { CrossesBack }
{}

// Which number is which, by hand.
#[tactic(auto, using(crate::proofs::Crossing::examples))]
pub fn examples()
    ensures { Examples }
{}
