// No code: what it is for bits to stay known and for a step to be known exactly (specs/Knownness.antt), and that each run of the plain
// machine is so.
#![tactic(auto)]
