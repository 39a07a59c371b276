// The RPC as a value, and which bodies mean it: definitions only, written from the gossipsub and Protocol Buffers documents.
#![tactic(auto)]
