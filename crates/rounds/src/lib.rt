// "Find the budgets", as definitions: in specs/ the rounds, what is answered, and what holds of the row that is found; in proofs/ that it holds. There
// is no code here.
#![tactic(auto)]
