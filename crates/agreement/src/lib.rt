// Theorems about two gateways that get messages of one set: demand 3 of the scope. There is no function here.
#![tactic(auto)]
