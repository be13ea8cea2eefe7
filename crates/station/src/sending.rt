// What a station sends (01, "Arrival, check by check": "Sent" and "Reply reset"), and what a step that
// is taken gives.
ghost use Rattle.std.specs.Prelude.{◌≡◌};
ghost use Rattle.station.specs.Sent.{seg_len, bits, sends, syn_of, syn_ack_of, ack_of, rst_of, reply_reset};
ghost use Rattle.station.specs.Outcomes.{quiet, sending, drawing, step_of};

use crate::{Done, Station};
use segment::{Control, Header, Segment};

// SEG.LEN.
#[tactic(auto, unfolding(crate::specs::Sent::seg_len))]
fn seg_len(g: Segment) -> u32
    ensures { result ≡ seg_len g }
{
    u32::from(g.header.control.syn)
}

#[tactic(auto, unfolding(crate::specs::Sent::bits))]
fn bits(ack: bool, rst: bool, syn: bool) -> Control
    ensures { result ≡ bits ack rst syn }
{
    Control {
        ack,
        rst,
        syn,
        ..Control::default()
    }
}

impl Station {
    // From the station to its peer, with no text.
    #[tactic(auto, unfolding(crate::specs::Sent::sends))]
    fn sends(self, seq: u32, ack: u32, control: Control, window: u16) -> Segment
        ensures { result ≡ sends self seq ack control window }
    {
        let header = Header {
            source: self.ownport,
            destination: self.peerport,
            seq,
            ack,
            control,
            window,
            urgent: 0,
        };
        Segment {
            header,
            src: self.own,
            dst: self.peer,
            text: 0,
        }
    }

    #[tactic(auto, unfolding(crate::specs::Sent::syn_of))]
    pub(crate) fn syn(self) -> Segment
        ensures { result ≡ syn_of self }
    {
        self.sends(self.iss, 0, bits(false, false, true), self.rcvwnd)
    }

    #[tactic(auto, unfolding(crate::specs::Sent::syn_ack_of))]
    pub(crate) fn syn_ack(self) -> Segment
        ensures { result ≡ syn_ack_of self }
    {
        self.sends(self.iss, self.rcvnxt, bits(true, false, true), self.rcvwnd)
    }

    #[tactic(auto, unfolding(crate::specs::Sent::ack_of))]
    pub(crate) fn ack(self) -> Segment
        ensures { result ≡ ack_of self }
    {
        self.sends(self.nxt, self.rcvnxt, bits(true, false, false), self.rcvwnd)
    }

    #[tactic(auto, unfolding(crate::specs::Sent::rst_of))]
    pub(crate) fn rst(self, seq: u32) -> Segment
        ensures { result ≡ rst_of self seq }
    {
        self.sends(seq, 0, bits(false, true, false), 0)
    }

    #[tactic(auto, unfolding(crate::specs::Sent::reply_reset))]
    pub(crate) fn reply_reset(self, g: Segment) -> Segment
        ensures { result ≡ reply_reset self g }
    {
        if g.header.control.ack {
            return self.rst(g.header.ack);
        }
        let ack = seq::add(g.header.seq, seg_len(g));
        self.sends(0, ack, bits(true, true, false), 0)
    }
}

impl Done {
    // Nothing sent, no number drawn.
    pub(crate) fn quiet(next: Station) -> Done
        ensures { step_of result ≡ quiet next }
    {
        Done {
            next,
            sent: None,
            drawn: false,
        }
    }

    // A segment sent, no number drawn.
    pub(crate) fn sending(next: Station, g: Segment) -> Done
        ensures { step_of result ≡ sending next g }
    {
        Done {
            next,
            sent: Some(g),
            drawn: false,
        }
    }

    // A segment sent, and the number offered drawn.
    pub(crate) fn drawing(next: Station, g: Segment) -> Done
        ensures { step_of result ≡ drawing next g }
    {
        Done {
            drawn: true,
            ..Done::sending(next, g)
        }
    }
}
