// What is true of the definitions of `rules` themselves, whatever code meets them: no functions here. specs/ names what holds of every state of a run, proofs/ shows it, and proofs/Demands states what a user is told.
#![tactic(auto)]
