// Theorems about RPCs that are written from lent lists: what the bytes mean, what is read back from them and what can be lent, when they are refused, and what
// is signed of them. There is no function here.
#![tactic(auto)]
