// Document 01's sample rows. Those marked P are proved of the definitions themselves, all in one table under one statement:
// the table is specs/Rows, the statement proofs/Main. The others a program runs: crates/sample_runs. There is no code here.
#![tactic(auto)]
