// Whether the values still to be laid can bring every bundle (pile) to a goal: by what the bundles lack, and without a look at a partition.
#![tactic(auto)]

pub mod loads;
pub mod pruning;
