// No code: the definitions of document 01 and of X.696 stand in specs/, the laws about them in proofs/.
#![tactic(auto)]
