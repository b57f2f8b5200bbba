// Document 01 as a definition in antt: specs/ is the definition, proofs/ has theorems about it. No code.

#![tactic(auto)]
