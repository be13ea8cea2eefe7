// A segment arrives (01, "Arrival, check by check"; RFC 9293, 3.10.7).
ghost use Rattle.std.specs.Prelude.{◌≡◌};
ghost use Rattle.station.specs.Outcomes.{step_of};
ghost use Rattle.station.specs.Arrival.{at_closed, at_listen, wrong_ack, syn_at_syn_sent, at_syn_sent, in_window, outside, reset_to, ack_at_syn_received, ack_at_established, at_synchronized, arrival_at, ours};

use crate::{Done, State, Station};
use segment::Segment;
use seq::Order;

impl Station {
    #[tactic(auto, unfolding(crate::specs::Arrival::at_closed))]
    fn at_closed(self, g: Segment) -> Done
        ensures { step_of result ≡ at_closed self g }
    {
        if g.header.control.rst {
            return Done::quiet(self);
        }
        Done::sending(self, self.reply_reset(g))
    }

    #[tactic(auto, unfolding(crate::specs::Arrival::at_listen))]
    fn at_listen(self, g: Segment, fresh: u32) -> Done
        ensures { step_of result ≡ at_listen self g fresh }
    {
        if g.header.control.rst {
            return Done::quiet(self);
        }
        if g.header.control.ack {
            return Done::sending(self, self.reply_reset(g));
        }
        if g.header.control.syn {
            let next = self.received(true, fresh, g.header.seq);
            return Done::drawing(next, next.syn_ack());
        }
        Done::quiet(self)
    }

    #[tactic(auto, unfolding(crate::specs::Arrival::wrong_ack))]
    fn wrong_ack(self, g: Segment) -> bool
        ensures { result ≡ wrong_ack self g }
    {
        g.header.control.ack & (g.header.ack != seq::add(self.iss, 1))
    }

    #[tactic(auto, unfolding(crate::specs::Arrival::syn_at_syn_sent))]
    fn syn_at_syn_sent(self, g: Segment) -> Done
        ensures { step_of result ≡ syn_at_syn_sent self g }
    {
        if g.header.control.ack {
            let next = self.established(false, self.iss, g.header.seq);
            return Done::sending(next, next.ack());
        }
        let next = self.received(false, self.iss, g.header.seq);
        Done::sending(next, next.syn_ack())
    }

    #[tactic(auto, unfolding(crate::specs::Arrival::at_syn_sent))]
    fn at_syn_sent(self, g: Segment) -> Done
        ensures { step_of result ≡ at_syn_sent self g }
    {
        if self.wrong_ack(g) {
            if g.header.control.rst {
                return Done::quiet(self);
            }
            return Done::sending(self, self.reply_reset(g));
        }
        if g.header.control.rst {
            if g.header.control.ack {
                return Done::quiet(self.closed());
            }
            return Done::quiet(self);
        }
        if g.header.control.syn {
            return self.syn_at_syn_sent(g);
        }
        Done::quiet(self)
    }

    // (a)
    #[tactic(auto, unfolding(crate::specs::Arrival::in_window))]
    fn in_window(self, g: Segment) -> bool
        ensures { result ≡ in_window self g }
    {
        seq::subtract(g.header.seq, self.rcvnxt) < u32::from(self.rcvwnd)
    }

    // (a), otherwise.
    #[tactic(auto, unfolding(crate::specs::Arrival::outside))]
    fn outside(self, g: Segment) -> Done
        ensures { step_of result ≡ outside self g }
    {
        if g.header.control.rst {
            return Done::quiet(self);
        }
        Done::sending(self, self.ack())
    }

    // (b)
    #[tactic(auto, unfolding(crate::specs::Arrival::reset_to))]
    fn reset_to(self) -> Station
        ensures { result ≡ reset_to self }
    {
        if (self.state == State::SynReceived) & self.passive {
            return self.listening();
        }
        self.closed()
    }

    // (e) in SYN-RECEIVED.
    #[tactic(auto, unfolding(crate::specs::Arrival::ack_at_syn_received))]
    fn ack_at_syn_received(self, g: Segment) -> Done
        ensures { step_of result ≡ ack_at_syn_received self g }
    {
        if g.header.ack == seq::add(self.iss, 1) {
            return Done::quiet(self.established(self.passive, self.iss, self.irs));
        }
        Done::sending(self, self.reply_reset(g))
    }

    // (e) in ESTABLISHED.
    #[tactic(auto, unfolding(crate::specs::Arrival::ack_at_established))]
    fn ack_at_established(self, g: Segment) -> Done
        ensures { step_of result ≡ ack_at_established self g }
    {
        if seq::compare(g.header.ack, self.nxt) == Order::Later {
            return Done::sending(self, self.ack());
        }
        Done::quiet(self)
    }

    // (a) to (e).
    #[tactic(auto, unfolding(crate::specs::Arrival::at_synchronized))]
    fn at_synchronized(self, g: Segment) -> Done
        ensures { step_of result ≡ at_synchronized self g }
    {
        if !self.in_window(g) {
            return self.outside(g);
        }
        if g.header.control.rst {
            return Done::quiet(self.reset_to());
        }
        if g.header.control.syn {
            return Done::sending(self.closed(), self.reply_reset(g));
        }
        if !g.header.control.ack {
            return Done::quiet(self);
        }
        if self.state == State::SynReceived {
            return self.ack_at_syn_received(g);
        }
        self.ack_at_established(g)
    }

    #[tactic(auto, unfolding(crate::specs::Arrival::arrival_at))]
    pub(crate) fn arrival_at(self, g: Segment, fresh: u32) -> Done
        ensures { step_of result ≡ arrival_at self.state self g fresh }
    {
        match self.state {
            State::Closed => self.at_closed(g),
            State::Listen => self.at_listen(g, fresh),
            State::SynSent => self.at_syn_sent(g),
            State::SynReceived | State::Established => self.at_synchronized(g),
        }
    }

    // Addresses and ports of this connection.
    #[tactic(auto, unfolding(crate::specs::Arrival::ours))]
    pub(crate) fn ours(self, g: Segment) -> bool
        ensures { result ≡ ours self g }
    {
        (g.src == self.peer)
            & (g.dst == self.own)
            & (g.header.source == self.peerport)
            & (g.header.destination == self.ownport)
    }
}
