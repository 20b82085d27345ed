// What the programs write, as definitions: in specs/ their texts, byte by byte, and the longest of each; in proofs/ laws about them. There is no code
// here.
#![tactic(auto)]
