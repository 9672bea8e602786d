// Laws that several crates' proofs cite and that no document defines. No code: see proofs/.

#![tactic(auto)]
