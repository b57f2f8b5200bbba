// General lists and numbers: small functions in specs/, their laws in proofs/. Nothing of CIP stands here, and no code.

#![tactic(auto)]
