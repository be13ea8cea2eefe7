// The forms of a record (01, "A station's record").
ghost use Rattle.std.specs.Prelude.{◌≡◌};
ghost use Rattle.station.specs.Forms.{zeroed, opening, acknowledged, synchronized, form_at, formed, closed_of, listen_of, syn_sent_of, received_of, established_of};

use crate::{State, Station};

impl Station {
    // ISS, UNA, NXT, IRS and RCV.NXT.
    #[tactic(auto, unfolding(crate::specs::Forms::zeroed))]
    fn zeroed(self) -> bool
        ensures { result ≡ zeroed self }
    {
        (self.iss == 0) & (self.una == 0) & (self.nxt == 0) & (self.irs == 0) & (self.rcvnxt == 0)
    }

    #[tactic(auto, unfolding(crate::specs::Forms::opening))]
    fn opening(self) -> bool
        ensures { result ≡ opening self }
    {
        (self.una == self.iss) & (self.nxt == seq::add(self.iss, 1))
    }

    #[tactic(auto, unfolding(crate::specs::Forms::acknowledged))]
    fn acknowledged(self) -> bool
        ensures { result ≡ acknowledged self }
    {
        (self.una == self.nxt) & (self.nxt == seq::add(self.iss, 1))
    }

    #[tactic(auto, unfolding(crate::specs::Forms::synchronized))]
    fn synchronized(self) -> bool
        ensures { result ≡ synchronized self }
    {
        self.rcvnxt == seq::add(self.irs, 1)
    }

    #[tactic(auto, unfolding(crate::specs::Forms::form_at))]
    fn form_at(self) -> bool
        ensures { result ≡ form_at self.state self }
    {
        match self.state {
            State::Closed => self.zeroed() & !self.passive,
            State::Listen => self.zeroed() & self.passive,
            State::SynSent => self.opening() & (self.irs == 0) & (self.rcvnxt == 0) & !self.passive,
            State::SynReceived => self.opening() & self.synchronized(),
            State::Established => self.acknowledged() & self.synchronized(),
        }
    }

    // Whether the record is of the forms.
    #[tactic(auto, unfolding(crate::specs::Forms::formed))]
    pub fn is_formed(self) -> bool
        ensures { result ≡ formed self }
    {
        self.form_at() & (0 < self.rcvwnd)
    }

    #[tactic(auto, unfolding(crate::specs::Forms::closed_of, crate::specs::Forms::with))]
    pub(crate) fn closed(self) -> Station
        ensures { result ≡ closed_of self }
    {
        Station {
            state: State::Closed,
            passive: false,
            iss: 0,
            una: 0,
            nxt: 0,
            irs: 0,
            rcvnxt: 0,
            ..self
        }
    }

    #[tactic(auto, unfolding(crate::specs::Forms::closed_of, crate::specs::Forms::listen_of, crate::specs::Forms::with))]
    pub(crate) fn listening(self) -> Station
        ensures { result ≡ listen_of self }
    {
        Station {
            state: State::Listen,
            passive: true,
            ..self.closed()
        }
    }

    #[tactic(auto, unfolding(crate::specs::Forms::syn_sent_of, crate::specs::Forms::with))]
    pub(crate) fn syn_sent(self, iss: u32) -> Station
        ensures { result ≡ syn_sent_of self iss }
    {
        Station {
            state: State::SynSent,
            passive: false,
            iss,
            una: iss,
            nxt: seq::add(iss, 1),
            irs: 0,
            rcvnxt: 0,
            ..self
        }
    }

    #[tactic(auto, unfolding(crate::specs::Forms::received_of, crate::specs::Forms::with))]
    pub(crate) fn received(self, passive: bool, iss: u32, irs: u32) -> Station
        ensures { result ≡ received_of self passive iss irs }
    {
        Station {
            state: State::SynReceived,
            passive,
            iss,
            una: iss,
            nxt: seq::add(iss, 1),
            irs,
            rcvnxt: seq::add(irs, 1),
            ..self
        }
    }

    #[tactic(auto, unfolding(crate::specs::Forms::established_of, crate::specs::Forms::with))]
    pub(crate) fn established(self, passive: bool, iss: u32, irs: u32) -> Station
        ensures { result ≡ established_of self passive iss irs }
    {
        let next = seq::add(iss, 1);
        Station {
            state: State::Established,
            passive,
            iss,
            una: next,
            nxt: next,
            irs,
            rcvnxt: seq::add(irs, 1),
            ..self
        }
    }
}
