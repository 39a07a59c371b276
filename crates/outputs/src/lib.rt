// Theorems about the bodies that a node writes: advertisements, requests and replies. There is no function here.
#![tactic(auto)]
