// The calls of the product as definitions: which number a call gives, what it answers, what it leaves of everything lent, and what an accepted change leaves
// in the tables. The contracts of the entries cite these, and so do the theorems about lists of calls. No code.

#![tactic(auto)]
