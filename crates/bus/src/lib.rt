// The bus of demand 3, and the proof that a band that passes keeps its figure on it. No functions: the definitions are in specs/, the theorems in proofs/.
#![tactic(auto)]
