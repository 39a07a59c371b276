#![tactic(auto)]

// Plays a trace: see the crate play.
fn main() {
    play::play();
}
