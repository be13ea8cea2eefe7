// The proved station for firmware in C or Rust: numbers, structs of numbers by value, and octets.
// `tabor.h` beside this crate has the same for C.
#![tactic(auto)]

mod answering;

ghost use Rattle.std.specs.Prelude.{◌≡◌};
ghost use Rattle.checksum.specs.Sum.{checksum_of};
ghost use Rattle.datagram.specs.Program.{output};
ghost use Rattle.datagram.specs.Promises.{Writes};
ghost use Rattle.station.specs.declared.Event.TheVariants as Event;
ghost use Rattle.numbers.specs.Numbers.{station_of, segment_of};
ghost use Rattle.station.specs.Outcomes.{said};
ghost use Rattle.station.specs.Events.{event_said};
ghost use Rattle.station.specs.Arrival.{octets_said};
ghost use Rattle.boundary.specs.Calls.{if_known, event_told, Arrives};
ghost use Rattle.boundary.specs.Headers.{read_told, Written};
ghost use Rattle.events.specs.Lists.{count_of, events_at};
ghost use Rattle.model.specs.Play.{play_said};
ghost use Rattle.telling.specs.Told.{played_of};
ghost use Rattle.boundary.specs.Player.{step_told, play_told};
ghost use Rattle.boundary.specs.Theorems.{OneOutcome};

use numbers::{Header, Model, Record, Segment};
use segment::Refusal;
use station::{Done, Station};
use telling::{Played, Reading, Stepped, Told};

// Octets that are no event and no list of events: none of 01's numbers, `TABOR_NO_LIST` in `tabor.h`.
const NO_LIST: u8 = 255;

// ---- a station's calls

// One event of a station in numbers.
fn stepped(r: Record, e: station::Event) -> Result<Done, Refusal>
    ensures { said result ≡ if_known r (event_said (station_of r) e) }
{
    Station::try_from(r)?.step(e)
}

fn event(r: Record, e: station::Event) -> Told
    ensures { result ≡ event_told r e }
{
    telling::told_of(r, stepped(r, e))
}

// C calls each event by a name of its own.
#[unsafe(no_mangle)]
pub extern "C" fn tabor_open(r: Record, n: u32) -> Told
    ensures { result ≡ event_told r (Event.Open n) }
{
    event(r, station::Event::Open(n))
}

#[unsafe(no_mangle)]
pub extern "C" fn tabor_listen(r: Record) -> Told
    ensures { result ≡ event_told r Event.Listen }
{
    event(r, station::Event::Listen)
}

#[unsafe(no_mangle)]
pub extern "C" fn tabor_abort(r: Record) -> Told
    ensures { result ≡ event_told r Event.Abort }
{
    event(r, station::Event::Abort)
}

#[unsafe(no_mangle)]
pub extern "C" fn tabor_resend(r: Record) -> Told
    ensures { result ≡ event_told r Event.Resend }
{
    event(r, station::Event::Resend)
}

#[unsafe(no_mangle)]
pub extern "C" fn tabor_power_cut(r: Record) -> Told
    ensures { result ≡ event_told r Event.PowerCut }
{
    event(r, station::Event::PowerCut)
}

// ---- arrival

// A segment arrives.
#[unsafe(no_mangle)]
pub extern "C" fn tabor_arrive(r: Record, g: Segment, fresh: u32) -> Told
    ensures { result ≡ event_told r (Event.Arrive (segment_of g) fresh) }
{
    event(r, station::Event::Arrive(segment::Segment::from(g), fresh))
}

// Octets arrive; what is sent is written as octets, too. An output below 20 octets is 10, after 1 to 6
// and whether or not anything is sent.
#[tactic(auto, using(datagram::proofs::Sending::replies))]
#[unsafe(no_mangle)]
pub extern "C" fn tabor_arrive_octets(
    r: Record,
    src: u32,
    dst: u32,
    octets: &[u8],
    fresh: u32,
    out: &mut [u8],
) -> Told
    ensures { Arrives r src dst octets.now fresh out.old out.new result }
{
    match Station::try_from(r) {
        Err(why) => telling::refused(r, why.number()),
        Ok(station) => answering::answered(r, station.arrive_octets(src, dst, octets, fresh), out),
    }
}

// ---- headers

#[unsafe(no_mangle)]
pub extern "C" fn tabor_read(src: u32, dst: u32, octets: &[u8]) -> Reading
    ensures { result ≡ read_told src dst octets.now }
{
    telling::reading_of(segment::read(src, dst, octets))
}

// 0 where the header is written, otherwise 01's number.
#[unsafe(no_mangle)]
pub extern "C" fn tabor_write(src: u32, dst: u32, h: Header, out: &mut [u8]) -> u8
    ensures { Written src dst h out.old out.new result }
{
    telling::number_of(segment::write(src, dst, segment::Header::from(h), out))
}

// The checksum of octets in which it is zero, or of those without it.
#[unsafe(no_mangle)]
pub extern "C" fn tabor_checksum(src: u32, dst: u32, octets: &[u8]) -> u16
    ensures { result ≡ checksum_of src dst octets.now }
{
    checksum::checksum(src, dst, octets)
}

// ---- two stations and their links, and the program

// One event in octets. Octets that are no event are 255.
#[tactic(auto, using(crate::proofs::Reported::answered))]
#[unsafe(no_mangle)]
pub extern "C" fn tabor_step(m: Model, octets: &[u8]) -> Stepped
    ensures { result ≡ step_told m octets.now }
{
    if !events::is_event(octets) {
        return telling::not_stepped(m, NO_LIST);
    }
    match model::Model::try_from(m) {
        Err(why) => telling::not_stepped(m, why.number()),
        Ok(mut after) => {
            let answer = after.step(events::event_at(octets));
            telling::stepped_of(m, after, answer)
        }
    }
}

// The events in octets, played from a model. A function of its own: what is refused before it pays nothing for the list.
#[tactic(auto, using(crate::proofs::Reported::played_whole))]
fn played_from(m: Model, mut after: model::Model, octets: &[u8]) -> Played
    ensures { result ≡ played_of m (play_said after (count_of octets.now) (events_at (count_of octets.now) octets.now)) }
{
    let list = events::list(octets);
    let report = after.play(&list, events::count(octets));
    telling::played_of(m, after, report)
}

// The events in octets, played. Octets that are no list of events are 255.
#[unsafe(no_mangle)]
pub extern "C" fn tabor_play(m: Model, octets: &[u8]) -> Played
    ensures { result ≡ play_told m octets.now }
{
    if !events::is_list(octets) {
        return telling::not_played(m, NO_LIST);
    }
    match model::Model::try_from(m) {
        Err(why) => telling::not_played(m, why.number()),
        Ok(model) => played_from(m, model, octets),
    }
}

// The whole program: how many octets of the output are written.
#[unsafe(no_mangle)]
pub extern "C" fn tabor_run(input: &[u8], out: &mut [u8; 65535]) -> usize
    ensures { Writes (output input.now) out.old out.new result }
{
    datagram::run(input, out)
}

// ---- a theorem, promised by a function that does nothing

// The promises leave one outcome.
pub fn one_outcome()
    ensures { OneOutcome }
{}
