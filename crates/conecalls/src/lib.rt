// What every call on one cone of a list has in common, as definitions: specs/Deed. The crates list_.. say by it what each call comes to, and the
// theorems on the order of calls run that. proofs/Ranges and proofs/Return are the laws of lending a cone's own ranges. There is no code here.
#![tactic(auto)]
