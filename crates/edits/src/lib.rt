// "The recorder is a guest on the owner's sheet", as definitions: in specs/ the edit, what is answered, and when two sheets are alike for a node; in
// proofs/ that an edited sheet is valid, and that alike sheets answer alike. There is no code here.
#![tactic(auto)]
