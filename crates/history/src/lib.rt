// Histories of a gateway: calls one after the other, what they leave and answer. Definitions and laws; there is no function here.
#![tactic(auto)]
