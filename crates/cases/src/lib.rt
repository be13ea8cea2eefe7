// A case made by hand for every rule of a station and of two stations with their links, beside P1 to P12
// (the crate examples) and with numbers of its own: each state, each test taken and not taken, both marks,
// every refusal. A rule that is wrong in its definition and in its code at once is refused here. Each
// theorem is promised by a function that does nothing, and is computed. (Those of octets are in the crate
// octet_cases, since sums take the checker long.)
#![tactic(auto)]

ghost use Rattle.cases.specs.Calls.{Calls};
ghost use Rattle.cases.specs.Arrival.{Unsynchronized, Synchronized};
ghost use Rattle.cases.specs.Forms.{Forms};
ghost use Rattle.cases.specs.Links.{Links};

// Open, listen, abort, resend, power cut.
pub fn of_calls()
    ensures { Calls }
{}

// A segment arrives in CLOSED, LISTEN and SYN-SENT.
pub fn of_unsynchronized()
    ensures { Unsynchronized }
{}

// A segment arrives in SYN-RECEIVED and ESTABLISHED.
pub fn of_synchronized()
    ensures { Synchronized }
{}

// Records that are of the forms, and records that are not.
pub fn of_forms()
    ensures { Forms }
{}

// Events of two stations and their links, and lists of them.
pub fn of_links()
    ensures { Links }
{}
