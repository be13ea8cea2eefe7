// Owns a record, lends it to each of the lent calls and prints what comes of it, a line for each call:
// the answer, and the record after it. The file `stdout` beside src/ was made from 01, not by this
// program.
#![tactic(auto)]

ghost use Rattle.std.specs.Prelude.{◌≡◌};
ghost use Rattle.std.specs.Fn.{FnOnceReturnsAtMut};

use lent::Reply;
use segment::{Control, Header, Refusal, Segment};
use station::{State, Station};
use std::{fmt, io};

// 10.0.0.2 port 2000, the owner's, and 10.0.0.1 port 1024, its peer's (01, "The program").
const OWN: u32 = 0x0a00_0002;

const OWN_PORT: u16 = 2000;

const PEER: u32 = 0x0a00_0001;

const PEER_PORT: u16 = 1024;

// ---- printing

// A text that is printed only of what is on.
fn word(on: bool, text: &'static str) -> &'static str {
    if on { text } else { "" }
}

fn name(state: State) -> &'static str {
    match state {
        State::Closed => "CLOSED",
        State::Listen => "LISTEN",
        State::SynSent => "SYN-SENT",
        State::SynReceived => "SYN-RECEIVED",
        State::Established => "ESTABLISHED",
    }
}

// What was sent: nothing, or a segment's bits, numbers and window.
#[derive(Clone, Copy)]
struct Sent(Option<Segment>);

impl fmt::Display for Sent {
    fn fmt<W: fmt::Write>(&self, f: &mut fmt::Formatter<W>) -> fmt::Result {
        let Some(g) = self.0 else {
            return f.write_str(" nothing");
        };
        let h = g.header;
        let rst = word(h.control.rst, " RST");
        let syn = word(h.control.syn, " SYN");
        let ack = word(h.control.ack, " ACK");
        write!(
            f,
            "{rst}{syn}{ack} seq {} ack {} window {}",
            h.seq, h.ack, h.window
        )
    }
}

// A refusal's number, or what was sent and whether the number offered was drawn.
#[derive(Clone, Copy)]
struct Answer(Result<Reply, Refusal>);

impl fmt::Display for Answer {
    fn fmt<W: fmt::Write>(&self, f: &mut fmt::Formatter<W>) -> fmt::Result {
        match self.0 {
            Ok(reply) => {
                let sent = Sent(reply.sent);
                let drawn = word(reply.drawn, ", number drawn");
                write!(f, " sent{sent}{drawn}")
            }
            Err(refusal) => write!(f, " refused {}", refusal.number()),
        }
    }
}

// A record in 01's words, without its endpoints.
#[derive(Clone, Copy)]
struct Fields(Station);

impl fmt::Display for Fields {
    fn fmt<W: fmt::Write>(&self, f: &mut fmt::Formatter<W>) -> fmt::Result {
        let s = self.0;
        let state = name(s.state);
        let mark = word(s.passive, " marked");
        write!(f, "{state}{mark} ISS {} UNA {} NXT {}", s.iss, s.una, s.nxt)?;
        write!(
            f,
            " IRS {} RCV.NXT {} RCV.WND {}",
            s.irs, s.rcvnxt, s.rcvwnd
        )
    }
}

// ---- the owner's calls

// What a call did: its answer, and the record after it.
#[derive(Clone, Copy)]
struct Told {
    answer: Result<Reply, Refusal>,
    station: Station,
}

// Lends the record to a call.
fn own<F: FnOnce(&mut Station) -> Result<Reply, Refusal>>(s: &mut Station, call: F) -> Told
    requires { F.IsAlwaysCallable call }
    ensures lent { FnOnceReturnsAtMut F.FnOnce call s.old result.answer s.new }
    ensures told { result.station ≡ s.new }
{
    let answer = call(s);
    Told {
        answer,
        station: *s,
    }
}

// Lends the record to a call, and prints the line of it; also where that fails the record is the one
// that the call left.
fn show<F: FnOnce(&mut Station) -> Result<Reply, Refusal>>(
    rt: &impl Print,
    label: &str,
    s: &mut Station,
    call: F,
) -> io::Result<()>
    requires { F.IsAlwaysCallable call }
    ensures { (r : _) × FnOnceReturnsAtMut F.FnOnce call s.old r s.new }
{
    let told = own(s, call);
    let answer = Answer(told.answer);
    let after = Fields(told.station);
    println!(rt; "{label}{answer}; {after}")
}

// ---- records and segments

// A record in CLOSED. With an ISS other than 0 it is not of the forms.
fn closed(iss: u32) -> Station {
    Station {
        state: State::Closed,
        passive: false,
        iss,
        una: 0,
        nxt: 0,
        irs: 0,
        rcvnxt: 0,
        rcvwnd: 4096,
        own: OWN,
        ownport: OWN_PORT,
        peer: PEER,
        peerport: PEER_PORT,
    }
}

// ACK, and SYN and FIN as given.
fn bits(syn: bool, fin: bool) -> Control {
    Control {
        ack: true,
        syn,
        fin,
        ..Control::default()
    }
}

// A segment from the peer's address and a port.
fn from_peer(source: u16, seq: u32, ack: u32, control: Control) -> Segment {
    let header = Header {
        source,
        destination: OWN_PORT,
        seq,
        ack,
        control,
        window: 4096,
        ..Header::default()
    };
    Segment {
        header,
        src: PEER,
        dst: OWN,
        ..Segment::default()
    }
}

// P11's octets, SYN 100, with the last octet as given: at 0 their checksum is right.
fn syn_octets(last: u8) -> [u8; 20] {
    [
        4, 0, 7, 208, 0, 0, 0, 100, 0, 0, 0, 0, 80, 2, 16, 0, 127, 172, 0, last,
    ]
}

// ACK 101 ack 301 of P2, with FIN on or off.
fn ack_101(fin: bool) -> Segment {
    from_peer(PEER_PORT, 101, 301, bits(false, fin))
}

// ---- the runs

// P1, after a listen and the refusals 7 and 4; then a resend.
fn heard(rt: &impl Print, s: &mut Station) -> io::Result<()> {
    show(rt, "listen:", s, lent::listen_lent)?;
    show(rt, "listen again:", s, lent::listen_lent)?;
    show(rt, "SYN 100, a bit wrong:", s, |s| {
        lent::octets_lent(s, PEER, OWN, &syn_octets(1), 300)
    })?;
    show(rt, "SYN 100, fresh 300:", s, |s| {
        lent::octets_lent(s, PEER, OWN, &syn_octets(0), 300)
    })?;
    show(rt, "resend:", s, lent::resend_lent)
}

// P2, after the refusals 5 and 6.
fn acknowledged(rt: &impl Print, s: &mut Station) -> io::Result<()> {
    show(rt, "ACK 101 ack 301 of another port:", s, |s| {
        lent::arrive_lent(s, from_peer(1025, 101, 301, bits(false, false)), 700)
    })?;
    show(rt, "ACK 101 ack 301 with FIN:", s, |s| {
        lent::arrive_lent(s, ack_101(true), 700)
    })?;
    show(rt, "ACK 101 ack 301:", s, |s| {
        lent::arrive_lent(s, ack_101(false), 700)
    })
}

// What ESTABLISHED refuses with 7, 8 and 4; then an abort, and one too many.
fn aborted(rt: &impl Print, s: &mut Station) -> io::Result<()> {
    show(rt, "open 700:", s, |s| lent::open_lent(s, 700))?;
    show(rt, "resend:", s, lent::resend_lent)?;
    show(rt, "SYN 100, a bit wrong:", s, |s| {
        lent::octets_lent(s, PEER, OWN, &syn_octets(1), 700)
    })?;
    show(rt, "abort:", s, lent::abort_lent)?;
    show(rt, "abort again:", s, lent::abort_lent)
}

// P8, with a resend on the way; then a power cut.
fn opened(rt: &impl Print, s: &mut Station) -> io::Result<()> {
    show(
        rt,
        "open 4294967295:",
        s,
        |s| lent::open_lent(s, 4294967295),
    )?;
    show(rt, "resend:", s, lent::resend_lent)?;
    show(rt, "SYN,ACK 300 ack 0:", s, |s| {
        lent::arrive_lent(s, from_peer(PEER_PORT, 300, 0, bits(true, false)), 700)
    })?;
    show(rt, "power cut:", s, lent::power_cut_lent)
}

// What every call refuses with 1, before any other cause: a record that is not of the forms.
fn broken(rt: &impl Print, s: &mut Station) -> io::Result<()> {
    show(rt, "broken, open 700:", s, |s| lent::open_lent(s, 700))?;
    show(rt, "broken, listen:", s, lent::listen_lent)?;
    show(rt, "broken, abort:", s, lent::abort_lent)?;
    show(rt, "broken, resend:", s, lent::resend_lent)?;
    show(rt, "broken, power cut:", s, lent::power_cut_lent)?;
    show(rt, "broken, ACK 101 ack 301 with FIN:", s, |s| {
        lent::arrive_lent(s, ack_101(true), 700)
    })?;
    show(rt, "broken, SYN 100, a bit wrong:", s, |s| {
        lent::octets_lent(s, PEER, OWN, &syn_octets(1), 700)
    })
}

fn main(rt: HostRuntime) -> io::Result<()> {
    let mut s = closed(0);
    heard(&rt, &mut s)?;
    acknowledged(&rt, &mut s)?;
    aborted(&rt, &mut s)?;
    opened(&rt, &mut s)?;
    broken(&rt, &mut closed(5))
}
