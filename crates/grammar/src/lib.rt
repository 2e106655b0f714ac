// Grammars: what words are one, what its derivations, its trees and their sizes are, and the laws of these, over any cost of
// terminals and rule uses. The definitions are specs/, the laws proofs/, the final statements proofs/Main. There is no code here.
#![tactic(auto)]
