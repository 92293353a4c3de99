// No code. What a caller proves who uses the unchecked changes: after an opening and after each batch or clock change the next may follow, and each is the step of its whole call.

#![tactic(auto)]
