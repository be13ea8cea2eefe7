// What is told in numbers, and how: of a station's step, of a header read and written, of an event and of a list that is played.
#![tactic(auto)]

ghost use Rattle.std.specs.Prelude.{◌≡◌, length};
ghost use Rattle.segment.specs.Refusals.{refused, said as answer_said};
ghost use Rattle.station.specs.Outcomes.{said, segments};
ghost use Rattle.telling.specs.Told.{sent_numbers, told_of, reading_of, number_of, stepped_of, answer_of, played_of, report_of};

use model::Totals;
use numbers::{Header, Model, Record, Segment};
use segment::Refusal;
use station::Done;

// The structs of this file are C's, three of them with other fields; so each has a refusal and an answer of its
// own, and a refusal is a number: 255 is none of 01's.

// What a call tells. A refusal has 01's number, 0 for none, and then the record that came in, nothing
// sent and nothing drawn. Where nothing is sent the segment is zero.
#[repr(C)]
#[derive(Clone, Copy, Debug, PartialEq, Eq)]
pub struct Told {
    pub next: Record,
    pub segment: Segment,
    pub refusal: u8,
    pub sent: u8,
    pub drawn: u8,
}

// What a header read tells: the fields, or 01's number and zero.
#[repr(C)]
#[derive(Clone, Copy, Debug, PartialEq, Eq)]
pub struct Reading {
    pub header: Header,
    pub refusal: u8,
}

// What one event tells: as a call does, and whether what was sent was turned away. After a refusal the
// model that came in, and zero.
#[repr(C)]
#[derive(Clone, Copy, Debug, PartialEq, Eq)]
pub struct Stepped {
    pub model: Model,
    pub segment: Segment,
    pub refusal: u8,
    pub sent: u8,
    pub drawn: u8,
    pub turned: u8,
}

// What the player tells: after a refusal the model that came in and no totals.
#[repr(C)]
#[derive(Clone, Copy, Debug, PartialEq, Eq)]
pub struct Played {
    pub model: Model,
    pub taken: usize,
    pub refused: usize,
    pub turned: usize,
    pub refusal: u8,
}

// ---- a station's step

// The segment sent, or zero.
#[tactic(auto, unfolding(crate::specs::Told::no_segment, crate::specs::Told::no_header))]
fn sent_numbers(sent: Option<segment::Segment>) -> Segment
    ensures { result ≡ sent_numbers (segments sent) }
{
    match sent {
        Some(g) => Segment::from(g),
        None => Segment::default(),
    }
}

// How many segments were sent.
fn count_sent(sent: Option<segment::Segment>) -> u8
    ensures { result ≡ length (segments sent) }
{
    u8::from(sent.is_some())
}

// A refusal: the record that came in, and 01's number.
#[tactic(auto, unfolding(crate::specs::Told::no_segment, crate::specs::Told::no_header))]
pub fn refused(r: Record, number: u8) -> Told
    ensures { result ≡ told_of r (refused number) }
{
    Told {
        next: r,
        segment: Segment::default(),
        refusal: number,
        sent: 0,
        drawn: 0,
    }
}

pub fn told_of(r: Record, outcome: Result<Done, Refusal>) -> Told
    ensures { result ≡ told_of r (said outcome) }
{
    match outcome {
        Err(why) => refused(r, why.number()),
        Ok(done) => Told {
            next: Record::from(done.next),
            segment: sent_numbers(done.sent),
            refusal: 0,
            sent: count_sent(done.sent),
            drawn: u8::from(done.drawn),
        },
    }
}

// ---- headers

// What a reading tells.
#[tactic(auto, unfolding(crate::specs::Told::no_header))]
pub fn reading_of(reading: Result<segment::Header, Refusal>) -> Reading
    ensures { result ≡ reading_of (answer_said reading) }
{
    match reading {
        Err(why) => Reading {
            header: Header::default(),
            refusal: why.number(),
        },
        Ok(h) => Reading {
            header: Header::from(h),
            refusal: 0,
        },
    }
}

// What a writing tells.
pub fn number_of(writing: Result<(), Refusal>) -> u8
    ensures { result ≡ number_of (answer_said writing) }
{
    match writing {
        Err(why) => why.number(),
        Ok(()) => 0,
    }
}

// ---- two stations and their links

// A refusal: the model that came in and its number.
#[tactic(auto, unfolding(crate::specs::Told::no_segment, crate::specs::Told::no_header))]
pub fn not_stepped(m: Model, number: u8) -> Stepped
    ensures { result ≡ stepped_of m (refused number) }
{
    Stepped {
        model: m,
        segment: Segment::default(),
        refusal: number,
        sent: 0,
        drawn: 0,
        turned: 0,
    }
}

// What an event's answer tells, with the model after it.
pub fn stepped_of(m: Model, after: model::Model, answer: Result<model::Told, Refusal>) -> Stepped
    ensures { result ≡ stepped_of m (answer_of after answer) }
{
    match answer {
        Err(why) => not_stepped(m, why.number()),
        Ok(told) => Stepped {
            model: Model::from(after),
            segment: sent_numbers(told.sent),
            refusal: 0,
            sent: count_sent(told.sent),
            drawn: u8::from(told.drawn),
            turned: u8::from(told.turned),
        },
    }
}

// A refusal: the model that came in, its number and no totals.
pub fn not_played(m: Model, number: u8) -> Played
    ensures { result ≡ played_of m (refused number) }
{
    Played {
        model: m,
        taken: 0,
        refused: 0,
        turned: 0,
        refusal: number,
    }
}

// What the player's report tells, with the model after the list.
pub fn played_of(m: Model, after: model::Model, report: Result<Totals, Refusal>) -> Played
    ensures { result ≡ played_of m (report_of after report) }
{
    match report {
        Err(why) => not_played(m, why.number()),
        Ok(totals) => Played {
            model: Model::from(after),
            taken: totals.taken,
            refused: totals.refused,
            turned: totals.turned,
            refusal: 0,
        },
    }
}
