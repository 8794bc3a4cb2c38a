// States of readers behind one another in one list: how many, whether in range, and where each begins.
#![tactic(auto)]

ghost use Rattle.std.specs.Prelude.{◌≡◌, not, ◌*◌, ◌≤◌, ◌<◌, length, nat_lt};
ghost use Rattle.std.specs.List.{list_all};
ghost use Rattle.t800.specs.Gathered.{states_in, bad_states, state_at};
ghost use Rattle.tcd_states.specs.States.{start_of, AllValid, counted, Indexed};

// Where a state begins, and how many words it has.
#[derive(Clone, Copy)]
pub struct Found {
    pub start: usize,
    pub words: usize,
}

// ---- whether refusal 5 is given

// How many states there are; `None` where one is out of range.
pub fn count_states(states: &[u32]) -> Option<usize>
    ensures { result ≡ counted (states_in states.now) }
{
    let mut at: usize = 0;
    let mut count: usize = 0;
    while at < states.len() {
        let words = tcd_state::state_in_front(tcd_style::READER, &states[at..])?;
        at += words;
        count += 1;
    }
    Some(count)
}

// Whether there is a state at each of these places.
fn places_in(places: &[u32], count: usize) -> bool
    ensures { result ≡ list_all (λ place. nat_lt place count) places.now }
{
    places.iter().all(|&place| (place as usize) < count)
}

pub fn states_fit(states: &[u32], scratch_len: usize, places: &[u32]) -> bool
    ensures { result ≡ not (bad_states states.now scratch_len places.now) }
{
    if scratch_len != states.len() {
        return false;
    }
    let Some(count) = count_states(states) else {
        return false;
    };
    places_in(places, count)
}

// ---- where each begins

// How many words the first state has.
fn first_length(states: &[u32]) -> usize
    requires { AllValid (states_in states.now) × (1 ≤ length states.now) }
    ensures { result ≡ length (state_at (states_in states.now) 0) }
{
    let bands = tcd_first_words::bands_of(states);
    let n = tcd_first_words::word(states, 1) as usize;
    tcd_layout::state_length(bands, n)
}

// How many words the first n states have together, or all where there are fewer.
fn length_of_first(states: &[u32], n: usize) -> usize
    requires { AllValid (states_in states.now) }
    ensures { result ≡ start_of (states_in states.now) n }
{
    let mut at: usize = 0;
    let mut i: usize = 0;
    while i < n {
        if states.len() <= at {
            return at;
        }
        let words = first_length(&states[at..]);
        at += words;
        i += 1;
    }
    at
}

// A stride for which 256 entries are enough.
fn stride_for(count: usize) -> usize
    ensures { (1 ≤ result) × (count ≤ 256 * result) }
{
    count / 256 + 1
}

// Fills `starts`; the answer is the stride: entry i is where the state at place i × stride begins.
pub fn index_states(states: &[u32], count: usize, starts: &mut [usize]) -> usize
    requires { AllValid (states_in states.now) × (count ≡ length (states_in states.now)) × (length starts.old ≡ 256) }
    ensures { Indexed (states_in states.now) result starts.new × (count ≤ 256 * result) }
{
    let stride = stride_for(count);
    let mut at: usize = 0;
    let mut i: usize = 0;
    while i < 256 {
        starts[i] = at;
        let words = length_of_first(&states[at..], stride);
        at += words;
        i += 1;
    }
    stride
}

pub fn find_state(states: &[u32], starts: &[usize], stride: usize, place: usize) -> Found
    requires { AllValid (states_in states.now) × Indexed (states_in states.now) stride starts.now
        × (place < length (states_in states.now)) }
    ensures { (result.start ≡ start_of (states_in states.now) place)
        × (result.words ≡ length (state_at (states_in states.now) place)) }
{
    let from = starts[place / stride];
    let start = from + length_of_first(&states[from..], place % stride);
    let words = first_length(&states[start..]);
    Found { start, words }
}
