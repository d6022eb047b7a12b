// Document 01's starred examples: definitions that compute, and no code.
#![tactic(auto)]
