// Demand 3: what holds of every history of two stations (the request, demand 3; 01, "Two stations and
// their links"). Each theorem is promised by a function that does nothing.
#![tactic(auto)]

ghost use Rattle.opening.specs.Runs.{ReachableExists, SpacingIsNeeded, Incident};
ghost use Rattle.opening.specs.Statement.{EstablishedAgree, NineSteps, WindowIsEnough};

// An established station is with the opening it believes it is with.
#[tactic(auto, using(crate::proofs::Agree::established_agree))]
pub fn established_agree()
    ensures { EstablishedAgree }
{}

// After a power cut at one end the nine steps establish both anew.
#[tactic(auto, using(crate::proofs::Anew::nine_steps))]
pub fn nine_steps()
    ensures { NineSteps }
{}

// For agreement alone numbers need be no further apart than the larger window.
#[tactic(auto, using(crate::proofs::Agree::window_is_enough))]
pub fn window_is_enough()
    ensures { WindowIsEnough }
{}

// The hypotheses of demand 3 can be met, at their edge too.
#[tactic(auto, using(crate::proofs::Computed::reachable_exists))]
pub fn reachable_exists()
    ensures { ReachableExists }
{}

// With numbers that are only distinct, or one nearer than the window, agreement fails; with numbers one
// nearer than 65,536 the nine steps fail.
#[tactic(auto, using(crate::proofs::Computed::spacing_is_needed))]
pub fn spacing_is_needed()
    ensures { SpacingIsNeeded }
{}

// One number drawn twice is enough for the calving date to come back wrong.
#[tactic(auto, using(crate::proofs::Computed::incident))]
pub fn incident()
    ensures { Incident }
{}
