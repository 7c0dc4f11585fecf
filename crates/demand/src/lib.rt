// No code. Demand 3 is said in specs/ and proved in proofs/, of the crates below; proofs/Runs.antt shows
// that lists of calls have runs, proofs/Known.antt and proofs/KnownReports.antt the known values of
// blocks, depots and reports.
#![tactic(auto)]
