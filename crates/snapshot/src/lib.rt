// All records of the columns of L, and all parents, kept in the work table and brought back exactly, whatever happened to these tables in between: records in 2F
// places, in time that goes with F, parents in m places, in time that goes with m. The places of parents may come to hold more in their upper parts.
#![tactic(auto)]

pub mod restoring;
pub mod saving;
