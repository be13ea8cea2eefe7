// Reads and writes the header vectors of docs/VECTORS.md and prints what it gets, a line for each.
// The file `stdout` beside src/ was made from the papers, not by this program.
#![tactic(auto)]

use segment::{Control, Header, Refusal};
use std::{fmt, io};

// 10.0.0.1, 10.0.0.2 and 10.0.0.3.
const ONE: u32 = 0x0a00_0001;

const TWO: u32 = 0x0a00_0002;

const THREE: u32 = 0x0a00_0003;

// ---- printing

// Each octet as two digits, with a space before it.
#[derive(Clone, Copy)]
struct Hex<'a>(&'a [u8]);

impl fmt::Display for Hex<'_> {
    fn fmt<W: fmt::Write>(&self, f: &mut fmt::Formatter<W>) -> fmt::Result {
        for x in self.0 {
            write!(f, " {x:02x}")?;
        }
        Ok(())
    }
}

// The control bits that are on, by name, high to low.
#[derive(Clone, Copy)]
struct Bits(Control);

impl fmt::Display for Bits {
    fn fmt<W: fmt::Write>(&self, f: &mut fmt::Formatter<W>) -> fmt::Result {
        let k = self.0;
        if k == Control::default() {
            return write!(f, " none");
        }
        for (on, name) in [
            (k.cwr, "CWR"),
            (k.ece, "ECE"),
            (k.urg, "URG"),
            (k.ack, "ACK"),
            (k.psh, "PSH"),
            (k.rst, "RST"),
            (k.syn, "SYN"),
            (k.fin, "FIN"),
        ] {
            if on {
                write!(f, " {name}")?;
            }
        }
        Ok(())
    }
}

#[derive(Clone, Copy)]
struct Fields(Header);

impl fmt::Display for Fields {
    fn fmt<W: fmt::Write>(&self, f: &mut fmt::Formatter<W>) -> fmt::Result {
        let h = self.0;
        write!(f, "source {} destination {} ", h.source, h.destination)?;
        write!(f, "seq {} ack {} control{} ", h.seq, h.ack, Bits(h.control))?;
        write!(f, "window {} urgent {}", h.window, h.urgent)
    }
}

#[derive(Clone, Copy)]
struct Refused(Refusal);

impl fmt::Display for Refused {
    fn fmt<W: fmt::Write>(&self, f: &mut fmt::Formatter<W>) -> fmt::Result {
        write!(f, "refused {}", self.0.number())
    }
}

// ---- one vector

fn read(rt: &impl Print, label: &str, src: u32, dst: u32, s: &[u8]) -> io::Result<()> {
    match segment::read(src, dst, s) {
        Ok(h) => println!(rt; "{label}: {}", Fields(h)),
        Err(refusal) => println!(rt; "{label}: {}", Refused(refusal)),
    }
}

fn arriving(rt: &impl Print, label: &str, s: &[u8]) -> io::Result<()> {
    match segment::fields_with_text(ONE, TWO, s) {
        Ok(g) => println!(rt; "{label}: {} text {}", Fields(g.header), g.text),
        Err(refusal) => println!(rt; "{label}: {}", Refused(refusal)),
    }
}

// The output holds aa in every octet before.
fn write(
    rt: &impl Print,
    label: &str,
    src: u32,
    dst: u32,
    h: Header,
    out: &mut [u8],
) -> io::Result<()> {
    match segment::write(src, dst, h, out) {
        Ok(()) => println!(rt; "{label}: written{}", Hex(out)),
        Err(refusal) => println!(rt; "{label}: {}, output{}", Refused(refusal), Hex(out)),
    }
}

// ---- headers

// P11's header, with a window and with FIN on or off.
fn p11(window: u16, fin: bool) -> Header {
    Header {
        source: 1024,
        destination: 2000,
        seq: 100,
        control: Control {
            syn: true,
            fin,
            ..Control::default()
        },
        window,
        ..Header::default()
    }
}

// Every control bit but FIN.
fn all_bits() -> Header {
    Header {
        source: 65535,
        destination: 258,
        seq: 16909060,
        ack: 4278255360,
        control: Control {
            cwr: true,
            ece: true,
            urg: true,
            ack: true,
            psh: true,
            rst: true,
            syn: true,
            fin: false,
        },
        window: 772,
        urgent: 1286,
    }
}

// P11's octets, but for octets 12 and 13, the window and the checksum.
fn octets(words: u8, control: u8, window: u16, checksum: u16) -> [u8; 20] {
    let [w1, w0] = window.to_be_bytes();
    let [c1, c0] = checksum.to_be_bytes();
    [
        0x04, 0x00, 0x07, 0xd0, 0, 0, 0, 0x64, 0, 0, 0, 0, words, control, w1, w0, c1, c0, 0, 0,
    ]
}

fn p11_octets() -> [u8; 20] {
    octets(0x50, 0x02, 0x1000, 0x7fac)
}

// ---- the vectors, in the order of docs/VECTORS.md

fn read_back(rt: &impl Print) -> io::Result<()> {
    write(rt, "P11 write", ONE, TWO, p11(4096, false), &mut [0xaa; 24])?;
    read(rt, "P11 read", ONE, TWO, &p11_octets())?;
    let p12 = p11(36780, false);
    write(rt, "P12 write", ONE, TWO, p12, &mut [0xaa; 20])?;
    for (label, checksum) in [("P12 read 0000", 0), ("P12 read ffff", 0xffff)] {
        read(rt, label, ONE, TWO, &octets(0x50, 0x02, 0x8fac, checksum))?;
    }
    Ok(())
}

fn options(rt: &impl Print) -> io::Result<()> {
    let mss = [
        0x04, 0x00, 0x07, 0xd0, 0xff, 0xff, 0xff, 0xff, 0x00, 0x00, 0x00, 0x00, 0x60, 0x02, 0xff,
        0xff, 0x78, 0x54, 0x00, 0x00, 0x02, 0x04, 0x05, 0xb4,
    ];
    read(rt, "options read", ONE, TWO, &mss)?;
    // 40 octets of options, of kind 1.
    let mut options_40 = [1; 60];
    options_40[..20].copy_from_slice(&[
        0xff, 0xff, 0x00, 0x01, 0x12, 0x34, 0x56, 0x78, 0x9a, 0xbc, 0xde, 0xf0, 0xf0, 0x18, 0x00,
        0x01, 0x05, 0x32, 0x00, 0x00,
    ]);
    read(rt, "options 40 read", ONE, TWO, &options_40)?;
    let reserved = octets(0x5f, 0x02, 0x1000, 0x70ac);
    read(rt, "reserved read", ONE, TWO, &reserved)
}

fn every_bit(rt: &impl Print) -> io::Result<()> {
    write(rt, "all bits write", ONE, TWO, all_bits(), &mut [0xaa; 20])?;
    let all = [
        0xff, 0xff, 0x01, 0x02, 0x01, 0x02, 0x03, 0x04, 0xff, 0x00, 0xff, 0x00, 0x50, 0xfe, 0x03,
        0x04, 0x8f, 0xd0, 0x05, 0x06,
    ];
    read(rt, "all bits read", ONE, TWO, &all)?;
    let no_bits = Header::default();
    write(rt, "no bits write", 0, 0, no_bits, &mut [0xaa; 20])?;
    let none = [
        0, 0, 0, 0, 0, 0, 0, 0, 0, 0, 0, 0, 0x50, 0, 0, 0, 0xaf, 0xe5, 0, 0,
    ];
    read(rt, "no bits read", 0, 0, &none)
}

fn text_and_fin(rt: &impl Print) -> io::Result<()> {
    let hello = [
        0x04, 0x00, 0x07, 0xd0, 0x00, 0x00, 0x00, 0x64, 0x00, 0x00, 0x00, 0x00, 0x50, 0x18, 0x10,
        0x00, 0x3b, 0xbf, 0x00, 0x00, 0x68, 0x65, 0x6c, 0x6c, 0x6f,
    ];
    arriving(rt, "text arriving", &hello)?;
    read(rt, "text read", ONE, TWO, &hello)?;
    let fin = octets(0x50, 0x11, 0x1000, 0x7f9d);
    arriving(rt, "fin arriving", &fin)?;
    read(rt, "fin read", ONE, TWO, &fin)
}

fn sizes(rt: &impl Print) -> io::Result<()> {
    let whole = p11_octets();
    // Lent where they stand, so that they are the program's and not on the stack.
    for (label, s) in [
        ("19 octets", &whole[..19]),
        ("no octets", &[]),
        ("65515 octets", &[0; 65515]),
        ("65516 octets", &[0; 65516]),
    ] {
        read(rt, label, ONE, TWO, s)?;
    }
    Ok(())
}

fn damaged(rt: &impl Print) -> io::Result<()> {
    let right = p11_octets();
    let mut wrong = right;
    wrong[19] = 1;
    for (label, src, dst, s) in [
        ("length 4", ONE, TWO, &octets(0x40, 0x02, 0x1000, 0x7fac)),
        ("length 6", ONE, TWO, &octets(0x60, 0x02, 0x1000, 0x7fac)),
        ("one bit wrong", ONE, TWO, &wrong),
        ("other addresses", THREE, TWO, &right),
        ("addresses turned", TWO, ONE, &right),
    ] {
        read(rt, label, src, dst, s)?;
    }
    Ok(())
}

fn refused_writes(rt: &impl Print) -> io::Result<()> {
    let (right, fin) = (p11(4096, false), p11(4096, true));
    write(rt, "fin write", ONE, TWO, fin, &mut [0xaa; 24])?;
    write(rt, "fin write short", ONE, TWO, fin, &mut [0xaa; 19])?;
    write(rt, "short write", ONE, TWO, right, &mut [0xaa; 19])?;
    write(rt, "empty write", ONE, TWO, right, &mut [])
}

fn main(rt: HostRuntime) -> io::Result<()> {
    read_back(&rt)?;
    options(&rt)?;
    every_bit(&rt)?;
    text_and_fin(&rt)?;
    sizes(&rt)?;
    damaged(&rt)?;
    refused_writes(&rt)
}
