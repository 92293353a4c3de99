// Lists of naturals and tests on them: definitions (specs/) and laws (proofs/) that every crate shares. No code.

#![tactic(auto)]
