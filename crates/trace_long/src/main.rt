#![tactic(auto)]

// Plays a trace: see the crate play. The stored one meets every refusal that a trace can show, and ends in `long`.
fn main() {
    play::play();
}
