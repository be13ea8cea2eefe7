// The calls (01, "Calls and power").
ghost use Rattle.std.specs.Prelude.{◌≡◌};
ghost use Rattle.station.specs.Outcomes.{step_of};
ghost use Rattle.station.specs.Calls.{may_open, open_step, abort_step, may_resend, resend_step};

use crate::{Done, State, Station};

impl Station {
    // Two sentences of 01, this and `may_resend`, each with states of its own.
    #[tactic(auto, unfolding(crate::specs::Calls::may_open))]
    pub(crate) fn may_open(self) -> bool
        ensures { result ≡ may_open self }
    {
        matches!(self.state, State::Closed | State::Listen)
    }

    #[tactic(auto, unfolding(crate::specs::Calls::open_step))]
    pub(crate) fn open_step(self, n: u32) -> Done
        ensures { step_of result ≡ open_step self n }
    {
        let next = self.syn_sent(n);
        Done::drawing(next, next.syn())
    }

    #[tactic(auto, unfolding(crate::specs::Calls::abort_step))]
    pub(crate) fn abort_step(self) -> Done
        ensures { step_of result ≡ abort_step self }
    {
        let next = self.closed();
        if matches!(self.state, State::SynReceived | State::Established) {
            return Done::sending(next, self.rst(self.nxt));
        }
        Done::quiet(next)
    }

    #[tactic(auto, unfolding(crate::specs::Calls::may_resend))]
    pub(crate) fn may_resend(self) -> bool
        ensures { result ≡ may_resend self }
    {
        matches!(self.state, State::SynSent | State::SynReceived)
    }

    #[tactic(auto, unfolding(crate::specs::Calls::resend_step))]
    pub(crate) fn resend_step(self) -> Done
        ensures { step_of result ≡ resend_step self }
    {
        if self.state == State::SynSent {
            return Done::sending(self, self.syn());
        }
        Done::sending(self, self.syn_ack())
    }
}
