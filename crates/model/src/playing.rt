// The player (01, "Two stations and their links").
ghost use Rattle.std.specs.Prelude.{◌≡◌, ◌<◌, ◌≤◌, length, Ok};
ghost use Rattle.segment.specs.Refusals.{given};
ghost use Rattle.model.specs.Step.{said_answer};
ghost use Rattle.model.specs.Play.{tallied, run, begun, Reports};

use crate::{Event, Model, Told, Totals};
use segment::Refusal;

impl Totals {
    // The totals, with one event more.
    fn tallied(self, answer: Result<Told, Refusal>) -> Totals
        requires { (self.taken < 4096) × (self.refused < 4096) × (self.turned < 4096) }
        ensures { result ≡ tallied self (said_answer answer) }
    {
        match answer {
            Err(_) => Totals {
                refused: self.refused + 1,
                ..self
            },
            Ok(told) => Totals {
                taken: self.taken + 1,
                turned: self.turned + usize::from(told.turned),
                ..self
            },
        }
    }
}

impl Model {
    // The events, one after another.
    #[tactic(auto, using(crate::proofs::Runs::run_start))]
    pub(crate) fn run(&mut self, events: &[Event]) -> Totals
        requires { length events.now ≤ 4096 }
        ensures { Reports self.old (given (run (begun self.old) events.now)) self.new (Ok result) }
    {
        let mut totals = Totals::default();
        for e in events {
            totals = totals.tallied(self.step(*e));
        }
        totals
    }
}
