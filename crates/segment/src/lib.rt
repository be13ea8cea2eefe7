// Segments: the header's fields, reading them from octets and writing them (01, "Octets of a
// segment"; RFC 9293, 3.1).
#![tactic(auto)]

ghost use Rattle.std.specs.Prelude.{◌≡◌, ◌*◌, ◌≤◌, ◌<◌, ◌^◌, [], ◌∷◌, ◌++◌, length, get_or};
ghost use Rattle.checksum.specs.Sum.{at16};
ghost use Rattle.segment.specs.Refusals.{number};
ghost use Rattle.segment.specs.Octets.{two, four, control_at, weight, control_octet, at32, octets_of, header_words, fields_at};
ghost use Rattle.segment.specs.Read.{size_wrong, header_length_wrong, checksum_wrong, text_length, segment_at, fin_or_text, FieldsSay, ReadSays};
ghost use Rattle.segment.specs.Write.{made, WriteSays};
ghost use Rattle.segment.specs.Theorems.{ReadsBack, WritesBack, RefusalsExact, OneOutcome};

// The eight control bits, high to low.
#[derive(Clone, Copy, Debug, Default, PartialEq, Eq)]
pub struct Control {
    pub cwr: bool,
    pub ece: bool,
    pub urg: bool,
    pub ack: bool,
    pub psh: bool,
    pub rst: bool,
    pub syn: bool,
    pub fin: bool,
}

// The header's fields. Header length, reserved bits and checksum are the writer's, and no fields.
#[derive(Clone, Copy, Debug, Default, PartialEq, Eq)]
pub struct Header {
    // Source port.
    pub source: u16,
    // Destination port.
    pub destination: u16,
    // Sequence number, SEG.SEQ.
    pub seq: u32,
    // Acknowledgment number, SEG.ACK.
    pub ack: u32,
    pub control: Control,
    // SEG.WND.
    pub window: u16,
    // Urgent pointer.
    pub urgent: u16,
}

// A segment: a header's fields, two addresses and a length of text.
#[derive(Clone, Copy, Debug, Default, PartialEq, Eq)]
pub struct Segment {
    pub header: Header,
    // Source address.
    pub src: u32,
    // Destination address.
    pub dst: u32,
    pub text: u32,
}

// What is refused, each with 01's number.
#[derive(Clone, Copy, Debug, PartialEq, Eq)]
pub enum Refusal {
    // The record is not of the forms, a link's count is above 32, or the endpoints do not mirror.
    Form = 1,
    // Fewer than 20 or more than 65,515 octets.
    Size = 2,
    // A header length below 5 words or beyond the octets.
    HeaderLength = 3,
    Checksum = 4,
    // Addresses or ports that are not of this connection.
    Endpoints = 5,
    FinOrText = 6,
    // An open or a listen from a state not named for it.
    OpenOrListen = 7,
    // An abort in CLOSED, a resend outside SYN-SENT and SYN-RECEIVED.
    AbortOrResend = 8,
    // No such place on the link.
    Place = 9,
    // Output below 20 octets.
    Output = 10,
    // A copy onto a full link.
    CopyFull = 11,
    // More than 4,096 events.
    Events = 12,
}

impl Refusal {
    // 01's number.
    pub fn number(self) -> u8
        ensures { result ≡ number self }
    {
        self as u8
    }
}

// ---- numbers in octets

// The octet at a place, 0 past the end.
fn octet_at(s: &[u8], at: usize) -> u8
    ensures { result ≡ get_or s.now at 0 }
{
    s.get(at).copied().unwrap_or(0)
}

// The same, as a number to reckon with.
pub fn octet(s: &[u8], at: usize) -> u32
    ensures { (result ≡ get_or s.now at 0) × (result < 256) }
{
    u32::from(octet_at(s, at))
}

// The 16-bit number at a place, high octet first. A place among the first 65,536 is enough for every
// header.
pub fn get16(s: &[u8], at: u16) -> u16
    ensures { result ≡ at16 s.now at }
{
    let at = usize::from(at);
    u16::from_be_bytes([octet_at(s, at), octet_at(s, at + 1)])
}

// The 32-bit number at a place, high octet first.
pub fn get32(s: &[u8], at: u8) -> u32
    ensures { result ≡ at32 s.now at }
{
    let at = usize::from(at);
    u32::from_be_bytes([
        octet_at(s, at),
        octet_at(s, at + 1),
        octet_at(s, at + 2),
        octet_at(s, at + 3),
    ])
}

// ---- control bits

// The control bits in an octet.
pub fn control_at(x: u32) -> Control
    ensures { result ≡ control_at x }
{
    Control {
        cwr: x / 128 % 2 == 1,
        ece: x / 64 % 2 == 1,
        urg: x / 32 % 2 == 1,
        ack: x / 16 % 2 == 1,
        psh: x / 8 % 2 == 1,
        rst: x / 4 % 2 == 1,
        syn: x / 2 % 2 == 1,
        fin: x / 1 % 2 == 1,
    }
}

// The weight of a bit that is on; `u8::from(on) * w` is no plainer.
fn weigh(on: bool, w: u8) -> u8
    ensures { (result ≡ weight on w) × (result ≤ w) }
{
    if on { w } else { 0 }
}

// The octet of control bits.
pub fn control_octet(k: Control) -> u8
    ensures { result ≡ control_octet k }
{
    weigh(k.cwr, 128)
        + weigh(k.ece, 64)
        + weigh(k.urg, 32)
        + weigh(k.ack, 16)
        + weigh(k.psh, 8)
        + weigh(k.rst, 4)
        + weigh(k.syn, 2)
        + weigh(k.fin, 1)
}

// ---- reading

// Refusal 2.
fn size_wrong(s: &[u8]) -> bool
    ensures { result ≡ size_wrong s.now }
{
    (s.len() < 20) | (65515 < s.len())
}

// The header length in 32-bit words.
fn header_words(s: &[u8]) -> usize
    ensures { (result ≡ header_words s.now) × (result < 16) }
{
    (octet(s, 12) / 16) as usize
}

// Refusal 3.
fn header_length_wrong(s: &[u8]) -> bool
    ensures { result ≡ header_length_wrong s.now }
{
    let words = header_words(s);
    (words < 5) | (s.len() < words * 4)
}

// Refusal 4.
fn checksum_wrong(src: u32, dst: u32, s: &[u8]) -> bool
    ensures { result ≡ checksum_wrong src dst s.now }
{
    checksum::sum(src, dst, s) != 65535
}

// The fields, whatever the octets.
fn fields_at(s: &[u8]) -> Header
    ensures { result ≡ fields_at s.now }
{
    Header {
        source: get16(s, 0),
        destination: get16(s, 2),
        seq: get32(s, 4),
        ack: get32(s, 8),
        control: control_at(octet(s, 13)),
        window: get16(s, 14),
        urgent: get16(s, 18),
    }
}

// What stands behind the header.
fn text_length(s: &[u8]) -> u32
    requires s_in_bounds { header_words s.now * 4 ≤ length s.now }
    requires s_len_bound { length s.now ≤ 65515 }
    ensures { result ≡ text_length s.now }
{
    (s.len() - header_words(s) * 4) as u32
}

// Refusal 6.
pub fn fin_or_text(g: Segment) -> bool
    ensures { result ≡ fin_or_text g }
{
    g.header.control.fin | (0 < g.text)
}

// Octets that arrive: the segment they are, or refusal 2, 3 or 4, in that order. 5 and 6 are its
// station's to test.
#[tactic(auto, unfolding(crate::specs::Read::fields_said, crate::specs::Read::field_tests))]
pub fn fields_with_text(src: u32, dst: u32, s: &[u8]) -> Result<Segment, Refusal>
    ensures { FieldsSay src dst s.now result }
{
    if size_wrong(s) {
        return Err(Refusal::Size);
    }
    if header_length_wrong(s) {
        return Err(Refusal::HeaderLength);
    }
    if checksum_wrong(src, dst, s) {
        return Err(Refusal::Checksum);
    }
    Ok(Segment {
        header: fields_at(s),
        src,
        dst,
        text: text_length(s),
    })
}

// A header read: its fields, or refusal 2, 3, 4 or 6, in that order.
#[tactic(auto, unfolding(crate::specs::Read::read_said, crate::specs::Read::read_tests, crate::specs::Read::fields_said, crate::specs::Read::field_tests))]
pub fn read(src: u32, dst: u32, s: &[u8]) -> Result<Header, Refusal>
    ensures { ReadSays src dst s.now result }
{
    let g = fields_with_text(src, dst, s)?;
    if fin_or_text(g) {
        return Err(Refusal::FinOrText);
    }
    Ok(g.header)
}

// ---- writing

// The twenty octets of a header with a checksum, high octet first.
fn octets(h: Header, check: u16) -> [u8; 20]
    ensures { result ≡ octets_of h check }
{
    let [s1, s0] = h.source.to_be_bytes();
    let [d1, d0] = h.destination.to_be_bytes();
    let [q3, q2, q1, q0] = h.seq.to_be_bytes();
    let [a3, a2, a1, a0] = h.ack.to_be_bytes();
    let k = control_octet(h.control);
    let [w1, w0] = h.window.to_be_bytes();
    let [c1, c0] = check.to_be_bytes();
    let [u1, u0] = h.urgent.to_be_bytes();
    [
        s1, s0, d1, d0, q3, q2, q1, q0, a3, a2, a1, a0, 80, k, w1, w0, c1, c0, u1, u0,
    ]
}

// The twenty octets of a header with its own checksum.
#[tactic(auto, unfolding(crate::specs::Write::made))]
fn make(src: u32, dst: u32, h: Header) -> [u8; 20]
    ensures { result ≡ made src dst h }
{
    let unchecked = octets(h, 0);
    octets(h, checksum::checksum(src, dst, &unchecked))
}

// A header write: the first 20 octets of the output and no others, or refusal 6 or 10, in that
// order, and the output as it was.
#[tactic(auto, unfolding(crate::specs::Write::write_said, crate::specs::Write::write_tests, crate::specs::Write::write_leaves))]
pub fn write(src: u32, dst: u32, h: Header, out: &mut [u8]) -> Result<(), Refusal>
    ensures { WriteSays src dst h out.old out.new result }
{
    if h.control.fin {
        return Err(Refusal::FinOrText);
    }
    if out.len() < 20 {
        return Err(Refusal::Output);
    }
    out[..20].copy_from_slice(&make(src, dst, h));
    Ok(())
}

// ---- theorems, each promised by a function that does nothing

// Reading what was written gives all fields again.
#[tactic(auto, using(crate::proofs::RoundTrip::reads_back))]
pub fn reads_back()
    ensures { ReadsBack }
{}

// Writing what was read gives the same octets.
#[tactic(auto, using(crate::proofs::RoundTrip::writes_back))]
pub fn writes_back()
    ensures { WritesBack }
{}

// Each refusal is given exactly when 01's table says, in its order, and for no other cause.
#[tactic(auto, using(crate::proofs::Exact::refusals_exact))]
pub fn refusals_exact()
    ensures { RefusalsExact }
{}

// The contracts of reading and writing leave one outcome.
pub fn one_outcome()
    ensures { OneOutcome }
{}
