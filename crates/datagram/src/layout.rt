// IPv4 datagrams: the parts of one that is read, and the writing of a segment's (01, "The program";
// RFC 791, 3.1).
ghost use Rattle.std.specs.Prelude.{◌≡◌, ◌≤◌, true, false, ◌++◌, length, drop, MatchOption};
ghost use Rattle.datagram.specs.Layout.{version, header_size, total_size, protocol, source_address, destination_address, carried_by, stops_at, header_with, header_checksum, datagram_of};

use segment::Segment;

// ---- where it stops

fn version(s: &[u8]) -> u32
    ensures { result ≡ version s.now }
{
    segment::octet(s, 0) / 16
}

fn header_size(s: &[u8]) -> usize
    ensures { result ≡ header_size s.now }
{
    (segment::octet(s, 0) % 16 * 4) as usize
}

fn total_size(s: &[u8]) -> usize
    ensures { result ≡ total_size s.now }
{
    usize::from(segment::get16(s, 2))
}

#[tactic(auto, unfolding(crate::specs::Layout::stops_at))]
fn stops_at(s: &[u8]) -> bool
    ensures { result ≡ stops_at s.now }
{
    let header = header_size(s);
    let total = total_size(s);
    version(s) != 4 || header < 20 || total < header || 1500 < total || s.len() < total
}

// ---- the parts of a datagram

// Octets that begin with a whole datagram.
#[derive(Clone, Copy)]
pub(crate) struct Datagram<'a> {
    pub(crate) octets: &'a [u8],
    ghost whole: { stops_at octets.now ≡ false },
}

impl<'a> Datagram<'a> {
    // None where it stops.
    pub(crate) fn at_start(octets: &'a [u8]) -> Option<Datagram<'a>>
        ensures { MatchOption result (stops_at octets.now ≡ true) (λ (d : Datagram). d.octets.now ≡ octets.now) }
    {
        if stops_at(octets) {
            return None;
        }
        Some(Datagram { octets })
    }

    pub(crate) fn total_size(&self) -> usize
        ensures { result ≡ total_size self.now.octets.now }
    {
        total_size(self.octets)
    }

    pub(crate) fn protocol(&self) -> u32
        ensures { result ≡ protocol self.now.octets.now }
    {
        segment::octet(self.octets, 9)
    }

    pub(crate) fn source_address(&self) -> u32
        ensures { result ≡ source_address self.now.octets.now }
    {
        segment::get32(self.octets, 12)
    }

    pub(crate) fn destination_address(&self) -> u32
        ensures { result ≡ destination_address self.now.octets.now }
    {
        segment::get32(self.octets, 16)
    }

    // What stands behind the header, up to the total length.
    #[tactic(auto, using(crate::proofs::Reading::whole, crate::proofs::Reading::carried_part))]
    pub(crate) fn carried_by(&self) -> &'a [u8]
        ensures { result.now ≡ carried_by self.now.octets.now }
    {
        &self.octets[header_size(self.octets)..self.total_size()]
    }
}

// ---- the datagram of a segment

// The header with a checksum.
#[tactic(auto, using(crate::proofs::Parts::two_octets, crate::proofs::Parts::four_octets))]
fn header_with(g: Segment, check: u16) -> [u8; 20]
    ensures { result ≡ header_with g check }
{
    let [c1, c0] = check.to_be_bytes();
    let [s3, s2, s1, s0] = g.src.to_be_bytes();
    let [d3, d2, d1, d0] = g.dst.to_be_bytes();
    [
        0x45, 0, 0, 40, 0, 0, 0x40, 0, 64, 6, c1, c0, s3, s2, s1, s0, d3, d2, d1, d0,
    ]
}

#[tactic(auto, unfolding(crate::specs::Layout::header_checksum))]
fn header_checksum(g: Segment) -> u16
    ensures { result ≡ header_checksum g }
{
    65535 - checksum::add_words(0, &header_with(g, 0))
}

// The first 40 octets of the output and no others.
pub(crate) fn write(g: Segment, out: &mut [u8])
    requires in_bounds { 40 ≤ length out.old }
    requires fin_value { g.header.control.fin ≡ false }
    ensures { out.new ≡ datagram_of g ++ drop 40 out.old }
{
    out[..20].copy_from_slice(&header_with(g, header_checksum(g)));
    // Not refused: FIN is off, and there is room.
    let _ = segment::write(g.src, g.dst, g.header, &mut out[20..]);
}
