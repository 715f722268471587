// The starred bench figures of document 01, and the refusal that stands beside one of them, as one statement over one table.
// There is no function here: specs/ has the table, proofs/ the theorem.
#![tactic(auto)]
