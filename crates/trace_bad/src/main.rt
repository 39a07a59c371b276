#![tactic(auto)]

// Plays a trace: see the crate play. In the stored one nodes catch up with each other, and it ends in `bad`.
fn main() {
    play::play();
}
