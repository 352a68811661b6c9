// Document 01's six rules and its marked examples M1 to M12: specs/ says them, proofs/ shows them all by computation.
#![tactic(auto)]
