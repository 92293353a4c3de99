// The factor of I + AA^T as patterns: definitions (specs/), the theorems about them (specs/Statements.antt) and their proofs. No code.

#![tactic(auto)]
