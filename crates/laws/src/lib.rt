// Nothing to run: the definitions in specs/ and the laws in proofs/ that the crates above share.
#![tactic(auto)]
