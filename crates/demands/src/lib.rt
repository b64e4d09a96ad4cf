// No code: the demands as theorems over the contracts of the calls, and the small stripes by hand.
// Start with specs/Demands.antt; each statement there has its proof under the same name, in small letters, in proofs/.
#![tactic(auto)]
