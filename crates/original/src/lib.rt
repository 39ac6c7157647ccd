#![tactic(auto)]

// The published Rust, read as functions on lists, and no code: the transcription stands in specs/, and the proof that it ends as 01's
// definitions say in proofs/.
