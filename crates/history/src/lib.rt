// What holds of every list of calls from an accepted opening: the demand on histories, over the definitions that the entries' contracts cite; and on any
// tables what F = 0 means at an opening and what an accepted question answers, the walk of a column beside its reader among others. No code.

#![tactic(auto)]
