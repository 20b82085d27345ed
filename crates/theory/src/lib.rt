// The theory: what is true of orders, counts, sums, queues and busy windows, with no sheet and no word of one. There is no code
// here: specs/ has what the definitions of other crates are built from, proofs/ the laws, up to the theorem about a node's queue.
#![tactic(auto)]
