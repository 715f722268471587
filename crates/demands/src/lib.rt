// The customer's demands, as theorems over the promises of the calls: laws only, no function.
// The library's operations are ten: the step vectors, the first hit, the listing, the plain map call, the adding one, the blanking list,
// saving, reading, the text, the report.
// All but the report are C functions too, and demand 1 is said of these as well.
// specs/ has the few words that the demands add to document 01's; proofs/ has a file for each demand, or for each part of
// one, one on line 0, one on phases, one on maps that start clean, one on the blanking list, one on texts and reports, two on all ten
// operations (no second reply fits, an outcome fits every input), and what these share.
#![tactic(auto)]
