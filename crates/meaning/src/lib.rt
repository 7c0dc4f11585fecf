// No code. What the rounding of `numbers` means, without its formula, is said in specs/ and proved in
// proofs/; square roots and machine arithmetic are to cite it.
#![tactic(auto)]
