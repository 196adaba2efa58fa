// No code: demand 3 about the run of a whole step list (specs/Demand.antt) and the stronger statement that it is proved from
// (specs/Refinement.antt), both of the definitions that `steps::run` is proved to meet.
#![tactic(auto)]
