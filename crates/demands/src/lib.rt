// What is proved, together: stated in specs/ and proved in proofs/; there is no code here.
#![tactic(auto)]
