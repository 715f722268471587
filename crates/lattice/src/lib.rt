#![tactic(auto)]

// The mathematics of one source: the lattice of steps from hit to hit, its division sequence, its pair of vectors.
// There is no function here: proofs/ has the laws that the crates above cite, for every period, width and coset.
