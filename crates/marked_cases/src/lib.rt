// The marked cases of the rules themselves, as one table, and sentences on the rights file, on writing a record, on a split's limits and on funds of either sign. There is no code here: see specs/.

#![tactic(auto)]
