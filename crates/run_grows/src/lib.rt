//! What effects of calls find: why they ask for blocks, which tables they link, where pairs were copied from; and that what waits is listed.
#![tactic(auto)]
