// Two stations with a link each way, events, and the player (01, "Two stations and their links").
#![tactic(auto)]

mod links;
mod playing;
mod stepping;

ghost use Rattle.std.specs.Prelude.{take};
ghost use Rattle.model.specs.Step.{Steps};
ghost use Rattle.model.specs.Play.{Plays};
ghost use Rattle.model.specs.Theorems.{RefusalsExact, DrawsExactly, OneOutcome, KeepsForms, LinksMean};

use segment::{Refusal, Segment};
use station::Station;
use stepping::Sound;

// One of the two stations.
#[derive(Clone, Copy, Debug, PartialEq, Eq)]
pub enum Side {
    A,
    B,
}

// A link: the first count slots hold segments, in the order sent. 01 names this form: an array and a count.
#[derive(Clone, Copy, Debug, PartialEq, Eq)]
pub struct Link {
    pub slots: [Segment; 32],
    pub count: usize,
}

// Two stations, the link towards A and the link towards B.
#[derive(Clone, Copy, Debug, PartialEq, Eq)]
pub struct Model {
    pub a: Station,
    pub b: Station,
    pub toa: Link,
    pub tob: Link,
}

// What can happen: the calls of a station and its power cut; a delivery to a station, by place on the
// link towards it and with a fresh number; a copy and a loss on that link.
#[derive(Clone, Copy, Debug, PartialEq, Eq)]
pub enum Event {
    Open(Side, u32),
    Listen(Side),
    Abort(Side),
    Resend(Side),
    PowerCut(Side),
    Deliver(Side, usize, u32),
    Copy(Side, usize),
    Lose(Side, usize),
}

// An event that was taken: what the station sent, whether it drew the number offered, and whether
// what it sent was turned away.
#[derive(Clone, Copy, Debug, Default, PartialEq, Eq)]
pub struct Told {
    pub sent: Option<Segment>,
    pub drawn: bool,
    pub turned: bool,
}

// An event that was taken: the next model, and what is told of it.
#[derive(Clone, Copy)]
struct Next {
    model: Model,
    told: Told,
}

// How many events were taken and refused, and how many segments were turned away.
#[derive(Clone, Copy, Debug, Default, PartialEq, Eq)]
pub struct Totals {
    pub taken: usize,
    pub refused: usize,
    pub turned: usize,
}

impl Model {
    // One event. Refusals 1, then those of the event, and then the model stays as it is.
    #[tactic(auto, unfolding(crate::specs::Step::step_said))]
    pub fn step(&mut self, e: Event) -> Result<Told, Refusal>
        ensures { Steps self.old e self.new result }
    {
        let next = Sound::of(self)?.applied(e)?;
        *self = next.model;
        Ok(next.told)
    }

    // The first n of a list of events, one after another. Refusals 1, 12, and then nothing is played.
    // An array with a count and no slice: `tabor_play` holds 4,096 events of a list of any length, and a longer one is
    // refused by its count.
    #[tactic(auto, unfolding(crate::specs::Play::play_said))]
    pub fn play(&mut self, events: &[Event; 4096], n: usize) -> Result<Totals, Refusal>
        ensures { Plays self.old n (take n events.now) self.new result }
    {
        Sound::of(self)?;
        if 4096 < n {
            return Err(Refusal::Events);
        }
        Ok(self.run(&events[..n]))
    }
}

// ---- theorems, each promised by a function that does nothing

// Each refusal is given exactly when 01's table says, and then the model is unchanged.
#[tactic(auto, using(crate::proofs::Exact::refusals_exact))]
pub fn refusals_exact()
    ensures { RefusalsExact }
{}

// A number is drawn exactly where its station draws it, and is then its ISS.
#[tactic(auto, using(crate::proofs::Draws::draws_exactly))]
pub fn draws_exactly()
    ensures { DrawsExactly }
{}

// The contracts leave one outcome.
pub fn one_outcome()
    ensures { OneOutcome }
{}

// Records of the forms, links within 32 and mirrored endpoints stay so.
#[tactic(auto, using(crate::proofs::Keeps::keeps_forms))]
pub fn keeps_forms()
    ensures { KeepsForms }
{}

// The slots and the count of a link mean the list of its segments.
#[tactic(auto, using(crate::proofs::Means::links_mean))]
pub fn links_mean()
    ensures { LinksMean }
{}
