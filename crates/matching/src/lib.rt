// Which agents (yards) wait, and which bundles (piles) the others are matched with.
#![tactic(auto)]
