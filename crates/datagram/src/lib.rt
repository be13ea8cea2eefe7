// IPv4 datagrams in and out: the whole program as a function from octets to octets (01, "The
// program").
#![tactic(auto)]

mod layout;

ghost use Rattle.std.specs.Prelude.{◌≡◌, ◌≤◌, ◌<◌, length};
ghost use Rattle.station.specs.Outcomes.{segments};
ghost use Rattle.datagram.specs.Program.{datagrams_of, answers, output};
ghost use Rattle.datagram.specs.Promises.{start, box_of, Writes, Replies, Hears};
ghost use Rattle.datagram.specs.Theorems.{NeverOutgrows, CutShort, OneOutcome, Example};

use layout::Datagram;
use segment::Segment;
use station::{State, Station};

// The station, and how many numbers were drawn.
#[derive(Drop)]
struct Listener {
    station: Station,
    drawn: u32,
}

impl Listener {
    fn new() -> Listener
        ensures { box_of result ≡ start }
    {
        Listener {
            station: Station {
                state: State::Listen,
                passive: true,
                iss: 0,
                una: 0,
                nxt: 0,
                irs: 0,
                rcvnxt: 0,
                rcvwnd: 4096,
                own: 0x0a000002,
                ownport: 2000,
                peer: 0x0a000001,
                peerport: 1024,
            },
            drawn: 0,
        }
    }

    // One datagram: what is sent.
    #[tactic(auto, unfolding(crate::specs::Program::heard, crate::specs::Program::heard_by, crate::specs::Program::datagrams_of), using(crate::proofs::Sending::replied))]
    fn heard(&mut self, datagram: Datagram) -> Option<Segment>
        requires drawn_bound { self.old.drawn < 65535 }
        ensures { Hears (box_of self.old) datagram.entry.octets.now self.new result }
    {
        if datagram.protocol() != 6 {
            return None;
        }
        let outcome = self.station.arrive_octets(
            datagram.source_address(),
            datagram.destination_address(),
            datagram.carried_by(),
            65536 * (self.drawn + 1),
        );
        // "A refused datagram .. is skipped".
        let done = outcome.ok()?;
        self.station = done.next;
        self.drawn += u32::from(done.drawn);
        done.sent
    }

    // One datagram, filled into a cleared frame and read from there.
    #[tactic(auto, using(crate::proofs::Parts::taken, crate::proofs::Reading::most, crate::proofs::Reading::there, crate::proofs::Reading::stops_framed, crate::proofs::Reading::heard_framed))]
    fn heard_in_frame(&mut self, datagram: Datagram) -> Option<Segment>
        requires drawn_bound { self.old.drawn < 65535 }
        ensures { Hears (box_of self.old) datagram.entry.octets.now self.new result }
    {
        let size = datagram.total_size();
        let mut frame = [0u8; 1500];
        frame[..size].copy_from_slice(&datagram.octets[..size]);
        self.heard(Datagram { octets: &frame })
    }
}

// The datagrams of what is sent, at the start of the output; how many octets they have: a count, here and in
// `answers`, since C asks `tabor_run` for one. `Replies` is a premise and no invariant of `Done`, which is public
// and whose theorem speaks of each.
#[tactic(auto, unfolding(crate::specs::Program::datagrams_of), using(crate::proofs::Sending::one_written, crate::proofs::Sending::one_sent, crate::proofs::Sending::datagram_size))]
fn write_sent(sent: Option<Segment>, out: &mut [u8]) -> usize
    requires sent_in_bounds { length (datagrams_of (segments sent)) ≤ length out.old }
    requires replies { Replies (segments sent) }
    ensures { Writes (datagrams_of (segments sent)) out.old out.new result }
{
    let Some(g) = sent else {
        return 0;
    };
    layout::write(g, out);
    40
}

// Datagrams back to back, until it stops.
#[tactic(auto, using(crate::proofs::Reading::there, crate::proofs::Reading::some, crate::proofs::Turns::numbered))]
fn answers(input: &[u8], out: &mut [u8]) -> usize
    requires input_len_bound { length input.now ≤ 65535 }
    requires input_in_bounds { length input.now ≤ length out.old }
    ensures { Writes (answers (length input.now) start input.now) out.old out.new result }
{
    let mut listener = Listener::new();
    let mut rest = input;
    let mut done = 0;
    while let Some(datagram) = Datagram::at_start(rest) {
        let sent = listener.heard_in_frame(datagram);
        done += write_sent(sent, &mut out[done..]);
        rest = &rest[datagram.total_size()..];
    }
    done
}

// The whole program: "It reads up to 65,535 octets". No output is too short, since the answers never
// outgrow the input.
#[tactic(auto, using(crate::proofs::Parts::read_of))]
pub fn run(input: &[u8], out: &mut [u8; 65535]) -> usize
    ensures { Writes (output input.now) out.old out.new result }
{
    let size = input.len().min(65535);
    answers(&input[..size], out)
}

// ---- theorems, each promised by a function that does nothing

// The output never outgrows the input that is read.
#[tactic(auto, using(crate::proofs::Runs::never_outgrows))]
pub fn never_outgrows()
    ensures { NeverOutgrows }
{}

// An input cut anywhere gives a beginning of the output.
#[tactic(auto, using(crate::proofs::Runs::cut_short))]
pub fn cut_short()
    ensures { CutShort }
{}

// The contract of `run` leaves one outcome.
#[tactic(auto, using(crate::proofs::Runs::one_outcome))]
pub fn one_outcome()
    ensures { OneOutcome }
{}

// 01's example.
pub fn example()
    ensures { Example }
{}
