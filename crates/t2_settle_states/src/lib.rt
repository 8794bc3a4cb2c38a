// The states of a layer's precincts, settled once all packets are accepted.
#![tactic(auto)]

ghost use Rattle.std.specs.Prelude.{◌≡◌, ◌++◌, ◌+◌, ◌≤◌, length, take, drop};
ghost use Rattle.t800.specs.Base.{sum};
ghost use Rattle.t2_settle_states.specs.Settle.{Settles, settle_layer};

// The words from `wait` to `at`, and the next layer of the state from there on.
fn settle_layer(scratch: &[u32], states: &mut [u32], wait: usize, at: usize)
    requires { (wait ≤ at) × (at + 4 ≤ length states.old) × (length scratch.now ≡ length states.old) }
    ensures { states.new ≡ settle_layer scratch.now states.old wait at }
{
    lists::copy(&scratch[wait..at], &mut states[wait..at]);
    states[at + 3] = scratch[at + 3];
}

// The states of the first n precincts, of which the lists have how many words each one has and how many passes its packet. Those with
// passes are copied together up to the next one without: of that the next layer is the only word that differs.
pub fn settle_states(
    scratch: &[u32],
    states: &mut [u32],
    words: &[usize],
    passes: &[usize],
    n: usize,
)
    requires { (n ≤ length words.now) × (n ≤ length passes.now) × (length scratch.now ≡ length states.old)
        × Settles (take n words.now) (take n passes.now) scratch.now states.old }
    ensures { states.new ≡ take (sum (take n words.now)) scratch.now
        ++ drop (sum (take n words.now)) states.old }
{
    let mut at = 0; // where precinct i's words begin
    let mut wait = 0; // words from here to `at` are not settled yet
    for i in 0..n {
        let size = words[i];
        if passes[i] == 0 {
            settle_layer(scratch, states, wait, at);
            wait = at + size;
        }
        at += size;
    }
    lists::copy(&scratch[wait..at], &mut states[wait..at]);
}
