// What a scan's calls give together, while the beam runs (document 02, P1): laws over any list of calls,
// whoever makes them. There is nothing to run here; specs/Calls.antt has what is said, proofs/Grouping.antt
// and proofs/Alike.antt the theorems. They cite what the crate scan promises, and no code.
#![tactic(auto)]
