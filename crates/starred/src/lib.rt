// No code: the cases that document 01 marks with a star, and cases of document 02, points 2 to 5, each as one table over the definitions
// (specs/Starred.antt), and their proofs.
#![tactic(auto)]
