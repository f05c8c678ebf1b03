// What follows where the judge and the finder meet. No functions: the promises are in specs/, and
// so are their proofs, but for those on what is written down by hand, which are in proofs/.
#![tactic(auto)]
