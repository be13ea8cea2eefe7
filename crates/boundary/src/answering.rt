// What octets that arrive are answered by, in numbers and in octets.
ghost use Rattle.std.specs.Prelude.{◌≡◌, ◌≤◌, length};
ghost use Rattle.station.specs.Outcomes.{said, segments};
ghost use Rattle.datagram.specs.Promises.{sent_by, Replies};
ghost use Rattle.boundary.specs.Calls.{if_room, written, Answers};

use numbers::Record;
use segment::{Refusal, Segment};
use station::Done;
use telling::Told;

// What is sent, at the output's start. `Replies` is a premise here, in `answered` and in datagram: station's
// `Done` is public and its theorem speaks of each, so it cannot have it as an invariant.
fn write_sent(sent: Option<Segment>, out: &mut [u8])
    requires in_bounds { 20 ≤ length out.old }
    requires replies { Replies (segments sent) }
    ensures { out.new ≡ written (segments sent) out.old }
{
    if let Some(g) = sent {
        // Not refused: FIN is off, and there is room.
        let _ = segment::write(g.src, g.dst, g.header, out);
    }
}

// An outcome told, its segment written; an output below 20 octets is refused first.
pub(crate) fn answered(r: Record, outcome: Result<Done, Refusal>, out: &mut [u8]) -> Told
    requires { Replies (sent_by (said outcome)) }
    ensures { Answers r (if_room out.old (said outcome)) out.old out.new result }
{
    if let Ok(done) = outcome {
        if out.len() < 20 {
            return telling::refused(r, Refusal::Output.number());
        }
        write_sent(done.sent, out);
    }
    telling::told_of(r, outcome)
}
