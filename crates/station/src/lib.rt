// One station: its record, the calls on it, and segments and octets that arrive (01, "A station's
// record", "Calls and power", "Arrival, check by check").
#![tactic(auto)]

mod arrival;
mod calls;
mod forms;
mod sending;

ghost use Rattle.std.specs.Prelude.{◌≡◌, [], ◌∷◌};
ghost use Rattle.segment.specs.Refusals.{first_of, said as segment_said};
ghost use Rattle.station.specs.Outcomes.{said};
ghost use Rattle.station.specs.Calls.{bad_record, open_said, listen_said, abort_said, resend_said, power_cut_said};
ghost use Rattle.station.specs.Arrival.{arrive_said, octets_said};
ghost use Rattle.station.specs.Events.{event_said};
ghost use Rattle.station.specs.Theorems.{KeepsForms, RefusalsExact, OneOutcome, DrawsExactly};

use segment::{Refusal, Segment};

// The states, numbered in 01's order.
#[derive(Clone, Copy, Debug, PartialEq, Eq)]
pub enum State {
    Closed = 0,
    Listen = 1,
    SynSent = 2,
    SynReceived = 3,
    Established = 4,
}

// A station's record, in the words of 01 and the RFC.
#[derive(Clone, Copy, Debug, PartialEq, Eq)]
pub struct Station {
    pub state: State,
    // The mark for "opened passively".
    pub passive: bool,
    // ISS.
    pub iss: u32,
    // SND.UNA.
    pub una: u32,
    // SND.NXT.
    pub nxt: u32,
    // IRS.
    pub irs: u32,
    // RCV.NXT.
    pub rcvnxt: u32,
    // RCV.WND.
    pub rcvwnd: u16,
    // Own address and port, peer's address and port.
    pub own: u32,
    pub ownport: u16,
    pub peer: u32,
    pub peerport: u16,
}

// A step that was taken: the next record, what was sent, and whether the number offered was drawn.
#[derive(Clone, Copy, Debug, PartialEq, Eq)]
pub struct Done {
    pub next: Station,
    pub sent: Option<Segment>,
    pub drawn: bool,
}

// What can happen to a station: with a number to draw, with a whole segment and a fresh number, or
// with nothing.
#[derive(Clone, Copy, Debug, PartialEq, Eq)]
pub enum Event {
    Open(u32),
    Listen,
    Abort,
    Resend,
    PowerCut,
    Arrive(Segment, u32),
}

impl Station {
    // Refusal 1.
    fn check_form(self) -> Result<(), Refusal>
        ensures { segment_said result ≡ first_of (bad_record self ∷ []) tt }
    {
        if !self.is_formed() {
            return Err(Refusal::Form);
        }
        Ok(())
    }

    // From CLOSED or LISTEN to SYN-SENT with a number; SYN is sent. Refusals 1, 7.
    #[tactic(auto, unfolding(crate::specs::Calls::open_said))]
    pub fn open(self, n: u32) -> Result<Done, Refusal>
        ensures { said result ≡ open_said self n }
    {
        self.check_form()?;
        if !self.may_open() {
            return Err(Refusal::OpenOrListen);
        }
        Ok(self.open_step(n))
    }

    // From CLOSED to LISTEN. Refusals 1, 7.
    #[tactic(auto, unfolding(crate::specs::Calls::listen_said))]
    pub fn listen(self) -> Result<Done, Refusal>
        ensures { said result ≡ listen_said self }
    {
        self.check_form()?;
        if self.state != State::Closed {
            return Err(Refusal::OpenOrListen);
        }
        Ok(Done::quiet(self.listening()))
    }

    // To CLOSED, with a reset from SYN-RECEIVED and ESTABLISHED. Refusals 1, 8.
    #[tactic(auto, unfolding(crate::specs::Calls::abort_said))]
    pub fn abort(self) -> Result<Done, Refusal>
        ensures { said result ≡ abort_said self }
    {
        self.check_form()?;
        if self.state == State::Closed {
            return Err(Refusal::AbortOrResend);
        }
        Ok(self.abort_step())
    }

    // The SYN or the SYN,ACK once more; the record stays. Refusals 1, 8.
    #[tactic(auto, unfolding(crate::specs::Calls::resend_said))]
    pub fn resend(self) -> Result<Done, Refusal>
        ensures { said result ≡ resend_said self }
    {
        self.check_form()?;
        if !self.may_resend() {
            return Err(Refusal::AbortOrResend);
        }
        Ok(self.resend_step())
    }

    // Any state to CLOSED; endpoints and window stay. Refusal 1.
    #[tactic(auto, unfolding(crate::specs::Calls::power_cut_said))]
    pub fn power_cut(self) -> Result<Done, Refusal>
        ensures { said result ≡ power_cut_said self }
    {
        self.check_form()?;
        Ok(Done::quiet(self.closed()))
    }

    // A segment arrives; the fresh number is drawn only where LISTEN takes a SYN. Refusals 1, 5, 6.
    #[tactic(auto, unfolding(crate::specs::Arrival::arrive_said, crate::specs::Arrival::endpoint_tests))]
    pub fn arrive(self, g: Segment, fresh: u32) -> Result<Done, Refusal>
        ensures { said result ≡ arrive_said self g fresh }
    {
        self.check_form()?;
        if !self.ours(g) {
            return Err(Refusal::Endpoints);
        }
        if segment::fin_or_text(g) {
            return Err(Refusal::FinOrText);
        }
        Ok(self.arrival_at(g, fresh))
    }

    // Octets arrive between two addresses. Refusals 1 to 6, in that order.
    #[tactic(auto, unfolding(crate::specs::Arrival::octets_said, crate::specs::Arrival::arrive_said, crate::specs::Arrival::endpoint_tests, segment::specs::Read::fields_said, segment::specs::Read::field_tests))]
    pub fn arrive_octets(
        self,
        src: u32,
        dst: u32,
        octets: &[u8],
        fresh: u32,
    ) -> Result<Done, Refusal>
        ensures { said result ≡ octets_said self src dst octets.now fresh }
    {
        self.check_form()?;
        let g = segment::fields_with_text(src, dst, octets)?;
        self.arrive(g, fresh)
    }

    // One event is the call of that event.
    #[tactic(auto, unfolding(crate::specs::Events::event_said))]
    pub fn step(self, e: Event) -> Result<Done, Refusal>
        ensures { said result ≡ event_said self e }
    {
        match e {
            Event::Open(n) => self.open(n),
            Event::Listen => self.listen(),
            Event::Abort => self.abort(),
            Event::Resend => self.resend(),
            Event::PowerCut => self.power_cut(),
            Event::Arrive(g, fresh) => self.arrive(g, fresh),
        }
    }
}

// ---- theorems, each promised by a function that does nothing

// A record of the forms stays one.
#[tactic(auto, using(crate::proofs::Keeps::keeps_forms))]
pub fn keeps_forms()
    ensures { KeepsForms }
{}

// Each refusal is given exactly when 01's table says, and then the record is unchanged.
#[tactic(auto, using(crate::proofs::Exact::refusals_exact))]
pub fn refusals_exact()
    ensures { RefusalsExact }
{}

// The contracts leave one outcome.
pub fn one_outcome()
    ensures { OneOutcome }
{}

// A number is drawn exactly by an open that is taken and by a LISTEN that takes a SYN.
#[tactic(auto, using(crate::proofs::Draws::draws_exactly))]
pub fn draws_exactly()
    ensures { DrawsExactly }
{}
