// The model of the gateway, and what is proved of it; there is no code here.
//
// specs/ has the box and its calls, the lone box, which calls are addressed to an arm, and the statements. proofs/
// has demand 3 for any list of calls, that every table keeps its shape and its ranges, and that a request that is
// written, served and answered gives what the arm holds. The entries of the crate gateway answer as this model does.
#![tactic(auto)]
