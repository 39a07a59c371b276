// Theorems about the canonical bytes of an RPC: they mean the same RPC, and they are never longer than a body that means it. No function.
#![tactic(auto)]
