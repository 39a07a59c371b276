// Theorems that join the decoder to the meaning of a body: a body is accepted exactly where it is well formed and within capacity, and the
// records that were written, read back, are the RPC that it means. No function.
#![tactic(auto)]
