// Links (01, "Two stations and their links").
ghost use Rattle.std.specs.Prelude.{◌≡◌, ◌<◌, ◌≤◌, Some, None, if◌then◌else◌};
ghost use Rattle.model.specs.Links.{blank, full, has_place, at_place, pushed, removed};

use crate::Link;
use segment::Segment;

// What a slot that is cleared has.
#[tactic(auto, unfolding(crate::specs::Links::blank, station::specs::Sent::bits))]
fn blank() -> Segment
    ensures { result ≡ blank }
{
    Segment::default()
}

impl Link {
    #[tactic(auto, unfolding(crate::specs::Links::full))]
    pub(crate) fn is_full(&self) -> bool
        ensures { result ≡ full self.now }
    {
        32 <= self.count
    }

    // The segment at place n, if there is such a place.
    #[tactic(auto, unfolding(crate::specs::Links::has_place, crate::specs::Links::at_place))]
    pub(crate) fn place(&self, n: usize) -> Option<Segment>
        requires { self.now.count ≤ 32 }
        ensures { result ≡ (if has_place self.now n then Some (at_place self.now n) else None) }
    {
        if n < self.count {
            Some(self.slots[n])
        } else {
            None
        }
    }

    #[tactic(auto, unfolding(crate::specs::Links::pushed))]
    pub(crate) fn pushed(self, g: Segment) -> Link
        requires { self.count < 32 }
        ensures { result ≡ pushed self g }
    {
        let mut next = self;
        next.slots[self.count] = g;
        next.count += 1;
        next
    }

    // Those behind place n move up, past the count too, so that every slot has one value.
    #[tactic(auto, unfolding(crate::specs::Links::removed))]
    pub(crate) fn removed(self, n: usize) -> Link
        requires { (n < self.count) × (self.count ≤ 32) }
        ensures { result ≡ removed self n }
    {
        let mut next = self;
        next.slots.copy_within(n + 1.., n);
        next.slots[31] = blank();
        next.count -= 1;
        next
    }
}
