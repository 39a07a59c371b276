// Never twice within a lifetime: what one gateway calls new, over every history of calls. Theorems; there is no function here.
#![tactic(auto)]
