// What the listing engine promises: the definitions that a reader must believe (specs), in the order and the names of the papers,
// and the theorems about them (proofs). Everything else is proved equal to these definitions. No code.
#![tactic(auto)]
