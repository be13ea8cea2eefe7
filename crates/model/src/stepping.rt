// One event of the model (01, "Two stations and their links").
ghost use Rattle.std.specs.Prelude.{◌≡◌, true, not, [], ◌∷◌};
ghost use Rattle.segment.specs.Refusals.{said_as, first_of, refuse◌when◌};
ghost use Rattle.station.specs.Outcomes.{segments};
ghost use Rattle.station.specs.Events.{event_said};
ghost use Rattle.model.specs.Step.{moved_of, peer_of, station_of, toward, with_station, with_toward, mirrored, sound, relinked, posted, moved, delivered, copied, lost, applied};

use crate::{Event, Link, Model, Next, Side, Told};
use segment::{Refusal, Segment};
use station::Station;

impl Side {
    // A and B, and the links towards them, by a match each: what C lays out has them by name.
    fn peer(self) -> Side
        ensures { result ≡ peer_of self }
    {
        match self {
            Side::A => Side::B,
            Side::B => Side::A,
        }
    }
}

impl Model {
    #[tactic(auto, unfolding(crate::specs::Step::station_of))]
    fn station(&self, x: Side) -> Station
        ensures { result ≡ station_of x self.now }
    {
        match x {
            Side::A => self.a,
            Side::B => self.b,
        }
    }

    #[tactic(auto, unfolding(crate::specs::Step::toward))]
    fn toward(&self, x: Side) -> Link
        ensures { result ≡ toward x self.now }
    {
        match x {
            Side::A => self.toa,
            Side::B => self.tob,
        }
    }

    #[tactic(auto, unfolding(crate::specs::Step::with_station))]
    fn set_station(&mut self, x: Side, s: Station)
        ensures { self.new ≡ with_station x self.old s }
    {
        match x {
            Side::A => self.a = s,
            Side::B => self.b = s,
        }
    }

    #[tactic(auto, unfolding(crate::specs::Step::with_toward))]
    fn set_toward(&mut self, x: Side, l: Link)
        ensures { self.new ≡ with_toward x self.old l }
    {
        match x {
            Side::A => self.toa = l,
            Side::B => self.tob = l,
        }
    }

    #[tactic(auto, unfolding(crate::specs::Step::mirrored))]
    fn mirrored(&self) -> bool
        ensures { result ≡ mirrored self.now }
    {
        (self.a.own == self.b.peer)
            & (self.a.ownport == self.b.peerport)
            & (self.a.peer == self.b.own)
            & (self.a.peerport == self.b.ownport)
    }

    #[tactic(auto, unfolding(crate::specs::Step::sound))]
    fn is_sound(&self) -> bool
        ensures { result ≡ sound self.now }
    {
        self.a.is_formed()
            & self.b.is_formed()
            & (self.toa.count <= 32)
            & (self.tob.count <= 32)
            & self.mirrored()
    }

    fn relinked(&self, x: Side, l: Link) -> Next
        ensures { moved_of result ≡ relinked x self.now l }
    {
        let mut model = *self;
        model.set_toward(x, l);
        Next {
            model,
            told: Told::default(),
        }
    }

    // What station x sends goes onto the link towards its peer.
    #[tactic(auto, unfolding(crate::specs::Step::posted, crate::specs::Links::full))]
    fn post(&mut self, x: Side, sent: Option<Segment>, drawn: bool) -> Told
        ensures { moved_of (record { model = self.new; told = result }) ≡ posted x self.old (segments sent) drawn }
    {
        let told = Told {
            sent,
            drawn,
            turned: false,
        };
        let Some(g) = sent else {
            return told;
        };
        let l = self.toward(x.peer());
        if l.is_full() {
            return Told {
                turned: true,
                ..told
            };
        }
        self.set_toward(x.peer(), l.pushed(g));
        told
    }

    // One event of station x: the step goes on from rest.
    #[tactic(auto, unfolding(crate::specs::Step::moved))]
    fn moved(&self, x: Side, mut rest: Model, e: station::Event) -> Result<Next, Refusal>
        ensures { said_as moved_of result ≡ moved x rest (event_said (station_of x self.now) e) }
    {
        let done = self.station(x).step(e)?;
        rest.set_station(x, done.next);
        let told = rest.post(x, done.sent, done.drawn);
        Ok(Next { model: rest, told })
    }
}

// A model that 1 does not refuse.
#[derive(Clone, Copy)]
pub(crate) struct Sound<'a> {
    model: &'a Model,
    ghost is_sound: { sound model.now ≡ true },
}

impl<'a> Sound<'a> {
    // Refusal 1.
    pub(crate) fn of(model: &'a Model) -> Result<Sound<'a>, Refusal>
        ensures { said_as (λ (s : Sound). s.model.now) result ≡ first_of (refuse 1 when not (sound model.now) ∷ []) model.now }
    {
        if !model.is_sound() {
            return Err(Refusal::Form);
        }
        Ok(Sound { model })
    }

    #[tactic(auto, using(crate::proofs::Laws::within), unfolding(crate::specs::Step::delivered, crate::specs::Links::has_place, crate::specs::Links::full))]
    fn delivered(&self, x: Side, n: usize, fresh: u32) -> Result<Next, Refusal>
        ensures { said_as moved_of result ≡ delivered x self.now.model.now n fresh }
    {
        let l = self.model.toward(x);
        let g = l.place(n).ok_or(Refusal::Place)?;
        let mut rest = *self.model;
        rest.set_toward(x, l.removed(n));
        self.model.moved(x, rest, station::Event::Arrive(g, fresh))
    }

    #[tactic(auto, using(crate::proofs::Laws::within), unfolding(crate::specs::Step::copied, crate::specs::Links::has_place, crate::specs::Links::full))]
    fn copied(&self, x: Side, n: usize) -> Result<Next, Refusal>
        ensures { said_as moved_of result ≡ copied x self.now.model.now n }
    {
        let l = self.model.toward(x);
        let g = l.place(n).ok_or(Refusal::Place)?;
        if l.is_full() {
            return Err(Refusal::CopyFull);
        }
        Ok(self.model.relinked(x, l.pushed(g)))
    }

    #[tactic(auto, using(crate::proofs::Laws::within), unfolding(crate::specs::Step::lost, crate::specs::Links::has_place, crate::specs::Links::full))]
    fn lost(&self, x: Side, n: usize) -> Result<Next, Refusal>
        ensures { said_as moved_of result ≡ lost x self.now.model.now n }
    {
        let l = self.model.toward(x);
        l.place(n).ok_or(Refusal::Place)?;
        Ok(self.model.relinked(x, l.removed(n)))
    }

    // One event of station x.
    fn called(&self, x: Side, e: station::Event) -> Result<Next, Refusal>
        ensures { said_as moved_of result ≡ moved x self.now.model.now (event_said (station_of x self.now.model.now) e) }
    {
        self.model.moved(x, *self.model, e)
    }

    #[tactic(auto, unfolding(crate::specs::Step::applied))]
    pub(crate) fn applied(&self, e: Event) -> Result<Next, Refusal>
        ensures { said_as moved_of result ≡ applied self.now.model.now e }
    {
        match e {
            Event::Open(x, n) => self.called(x, station::Event::Open(n)),
            Event::Listen(x) => self.called(x, station::Event::Listen),
            Event::Abort(x) => self.called(x, station::Event::Abort),
            Event::Resend(x) => self.called(x, station::Event::Resend),
            Event::PowerCut(x) => self.called(x, station::Event::PowerCut),
            Event::Deliver(x, n, fresh) => self.delivered(x, n, fresh),
            Event::Copy(x, n) => self.copied(x, n),
            Event::Lose(x, n) => self.lost(x, n),
        }
    }
}
