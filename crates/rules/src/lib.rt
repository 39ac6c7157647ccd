#![tactic(auto)]

// The definitions of document 01 and of the requests that amend it, and no code: what a reader must believe stands in specs/, in 01's order,
// and what is proved of it in proofs/.
