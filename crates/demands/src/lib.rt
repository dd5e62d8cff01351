// What the functions promise together: no function.
#![tactic(auto)]
