// Structs of numbers, which cross to C by value, and the library's own records, headers, segments and models: each from the other.
#![tactic(auto)]

ghost use Rattle.std.specs.Prelude.{◌≡◌, not, [], ◌∷◌};
ghost use Rattle.segment.specs.Refusals.{said, first_of, refuse◌when◌};
ghost use Rattle.numbers.specs.Numbers.{state_of, known, station_of, record_of, header_of, header_numbers, segment_of, segment_numbers};
ghost use Rattle.numbers.specs.Links.{link_of, link_numbers, both_known, model_of, model_numbers};
ghost use Rattle.numbers.specs.Theorems.{CrossesBack, Examples};

use segment::Refusal;
use station::{State, Station};

// The structs of this file are laid out for `tabor.h`, each beside the crates' own type and not one generic type
// with it.

// A station's record in numbers. State: 0 CLOSED, 1 LISTEN, 2 SYN-SENT, 3 SYN-RECEIVED,
// 4 ESTABLISHED. The mark "opened passively": 0 no, 1 yes.
#[repr(C)]
#[derive(Clone, Copy, Debug, PartialEq, Eq)]
pub struct Record {
    pub iss: u32,
    pub una: u32,
    pub nxt: u32,
    pub irs: u32,
    pub rcvnxt: u32,
    pub own: u32,
    pub peer: u32,
    pub rcvwnd: u16,
    pub ownport: u16,
    pub peerport: u16,
    pub state: u8,
    pub passive: u8,
}

// A header's fields in numbers, the control bits as their octet.
#[repr(C)]
#[derive(Clone, Copy, Debug, Default, PartialEq, Eq)]
pub struct Header {
    pub seq: u32,
    pub ack: u32,
    pub source: u16,
    pub destination: u16,
    pub window: u16,
    pub urgent: u16,
    pub control: u8,
}

// A segment: a header's fields, two addresses and a length of text.
#[repr(C)]
#[derive(Clone, Copy, Debug, Default, PartialEq, Eq)]
pub struct Segment {
    pub header: Header,
    pub src: u32,
    pub dst: u32,
    pub text: u32,
}

// A link: the first count slots hold segments, in the order sent.
#[repr(C)]
#[derive(Clone, Copy, Debug, PartialEq, Eq)]
pub struct Link {
    pub slots: [Segment; 32],
    pub count: usize,
}

// Two stations, the link towards A and the link towards B.
#[repr(C)]
#[derive(Clone, Copy, Debug, PartialEq, Eq)]
pub struct Model {
    pub a: Record,
    pub b: Record,
    pub toa: Link,
    pub tob: Link,
}

// ---- a record

// The state and the mark are numbers that name one.
#[tactic(auto, unfolding(crate::specs::Numbers::known))]
pub fn known(r: Record) -> bool
    ensures { result ≡ known r }
{
    (r.state < 5) & (r.passive < 2)
}

// Each number has a state, as `station_of` promises of all records; `known` tells which name one.
#[tactic(auto, unfolding(crate::specs::Numbers::state_of))]
fn state_of(n: u8) -> State
    ensures { result ≡ state_of n }
{
    match n {
        0 => State::Closed,
        1 => State::Listen,
        2 => State::SynSent,
        3 => State::SynReceived,
        _ => State::Established,
    }
}

// The station of a record, whatever its numbers: promised of all, so it stands beside `try_from`.
#[tactic(auto, unfolding(crate::specs::Numbers::station_of))]
pub fn station_of(r: Record) -> Station
    ensures { result ≡ station_of r }
{
    Station {
        state: state_of(r.state),
        passive: r.passive == 1,
        iss: r.iss,
        una: r.una,
        nxt: r.nxt,
        irs: r.irs,
        rcvnxt: r.rcvnxt,
        rcvwnd: r.rcvwnd,
        own: r.own,
        ownport: r.ownport,
        peer: r.peer,
        peerport: r.peerport,
    }
}

// Numbers that name no state or no mark are refused with 1.
impl TryFrom<Record> for Station {
    type Error = Refusal;

    ghost try_from_gives = { λ r o. said o ≡ first_of (refuse 1 when not (known r) ∷ []) (station_of r) };

    fn try_from(r: Record) -> Result<Station, Refusal> {
        if !known(r) {
            return Err(Refusal::Form);
        }
        Ok(station_of(r))
    }
}

impl From<Station> for Record {
    ghost from_gives = { λ s r. r ≡ record_of s };

    #[tactic(auto, unfolding(crate::specs::Numbers::record_of))]
    fn from(s: Station) -> Record {
        Record {
            iss: s.iss,
            una: s.una,
            nxt: s.nxt,
            irs: s.irs,
            rcvnxt: s.rcvnxt,
            own: s.own,
            peer: s.peer,
            rcvwnd: s.rcvwnd,
            ownport: s.ownport,
            peerport: s.peerport,
            state: s.state as u8,
            passive: u8::from(s.passive),
        }
    }
}

// ---- a header and a segment

impl From<Header> for segment::Header {
    ghost from_gives = { λ h g. g ≡ header_of h };

    #[tactic(auto, unfolding(crate::specs::Numbers::header_of))]
    fn from(h: Header) -> segment::Header {
        segment::Header {
            source: h.source,
            destination: h.destination,
            seq: h.seq,
            ack: h.ack,
            control: segment::control_at(u32::from(h.control)),
            window: h.window,
            urgent: h.urgent,
        }
    }
}

impl From<segment::Header> for Header {
    ghost from_gives = { λ h g. g ≡ header_numbers h };

    #[tactic(auto, unfolding(crate::specs::Numbers::header_numbers))]
    fn from(h: segment::Header) -> Header {
        Header {
            seq: h.seq,
            ack: h.ack,
            source: h.source,
            destination: h.destination,
            window: h.window,
            urgent: h.urgent,
            control: segment::control_octet(h.control),
        }
    }
}

impl From<Segment> for segment::Segment {
    ghost from_gives = { λ g h. h ≡ segment_of g };

    #[tactic(auto, unfolding(crate::specs::Numbers::segment_of))]
    fn from(g: Segment) -> segment::Segment {
        segment::Segment {
            header: segment::Header::from(g.header),
            src: g.src,
            dst: g.dst,
            text: g.text,
        }
    }
}

impl From<segment::Segment> for Segment {
    ghost from_gives = { λ g h. h ≡ segment_numbers g };

    #[tactic(auto, unfolding(crate::specs::Numbers::segment_numbers))]
    fn from(g: segment::Segment) -> Segment {
        Segment {
            header: Header::from(g.header),
            src: g.src,
            dst: g.dst,
            text: g.text,
        }
    }
}

// ---- two stations and their links

// A link's slots by place, in a loop: `map` copies them through an array of 32 `Option`s, and after `iter_mut` a proof
// knows nothing of the elements.
impl From<Link> for model::Link {
    ghost from_gives = { λ l k. k ≡ link_of l };

    #[tactic(auto, unfolding(crate::specs::Links::link_of), using(crate::proofs::Filled::filling))]
    fn from(l: Link) -> model::Link {
        let mut slots = [segment::Segment::default(); 32];
        for (i, g) in l.slots.iter().enumerate() {
            slots[i] = segment::Segment::from(*g);
        }
        model::Link {
            slots,
            count: l.count,
        }
    }
}

impl From<model::Link> for Link {
    ghost from_gives = { λ l k. k ≡ link_numbers l };

    #[tactic(auto, unfolding(crate::specs::Links::link_numbers), using(crate::proofs::Filled::filling))]
    fn from(l: model::Link) -> Link {
        let mut slots = [Segment::default(); 32];
        for (i, g) in l.slots.iter().enumerate() {
            slots[i] = Segment::from(*g);
        }
        Link {
            slots,
            count: l.count,
        }
    }
}

// Both records' states and marks are numbers that name one.
#[tactic(auto, unfolding(crate::specs::Links::both_known))]
pub fn both_known(m: Model) -> bool
    ensures { result ≡ both_known m }
{
    known(m.a) & known(m.b)
}

// The model of numbers, whatever they are: promised of all, so it stands beside `try_from`.
#[tactic(auto, unfolding(crate::specs::Links::model_of))]
pub fn model_of(m: Model) -> model::Model
    ensures { result ≡ model_of m }
{
    model::Model {
        a: station_of(m.a),
        b: station_of(m.b),
        toa: model::Link::from(m.toa),
        tob: model::Link::from(m.tob),
    }
}

// Numbers that name no state or no mark are refused with 1.
impl TryFrom<Model> for model::Model {
    type Error = Refusal;

    ghost try_from_gives = { λ m o. said o ≡ first_of (refuse 1 when not (both_known m) ∷ []) (model_of m) };

    fn try_from(m: Model) -> Result<model::Model, Refusal> {
        if !both_known(m) {
            return Err(Refusal::Form);
        }
        Ok(model_of(m))
    }
}

impl From<model::Model> for Model {
    ghost from_gives = { λ m k. k ≡ model_numbers m };

    #[tactic(auto, unfolding(crate::specs::Links::model_numbers))]
    fn from(m: model::Model) -> Model {
        Model {
            a: Record::from(m.a),
            b: Record::from(m.b),
            toa: Link::from(m.toa),
            tob: Link::from(m.tob),
        }
    }
}

// ---- theorems, promised by functions that do nothing

// What crosses comes back as it was.
#[tactic(auto, using(crate::proofs::Crossing::crosses_back))]
pub fn crosses_back()
    ensures { CrossesBack }
{}

// Which number is which, by hand.
#[tactic(auto, using(crate::proofs::Crossing::examples))]
pub fn examples()
    ensures { Examples }
{}
