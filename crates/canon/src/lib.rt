// The canonical bytes of a body: definitions and laws only. `encode` writes them.
#![tactic(auto)]
