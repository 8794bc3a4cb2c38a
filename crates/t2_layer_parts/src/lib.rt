// The precinct in front of a layer's lists: how much of each it has, what turns it away, and its packet.
#![tactic(auto)]

ghost use Rattle.std.specs.Prelude.{◌≡◌, ◌+◌, ◌≤◌, min, length};
ghost use Rattle.t800.specs.State.{writer, layer, bands, blocks};
ghost use Rattle.t800.specs.WriteHeader.{contribution};
ghost use Rattle.tcd_state.specs.Front.{words_in_front};
ghost use Rattle.t2_put_packet.specs.Put.{answer_of};
ghost use Rattle.t2_layer_parts.specs.Front.{FrontIs, lists_of, rest, PutInFront, WrittenInFront};

use t800::{Markers, Refusal};

// How much of the lists it has: words of the states, blocks, passes and body bytes.
#[derive(Clone, Copy)]
pub struct Front {
    pub words: usize,
    pub blocks: usize,
    pub passes: usize,
    pub bytes: usize,
}

// Counts, lengths and marks that it asks for, or as many as there are; and what these counts add up to.
#[derive(Clone, Copy)]
struct Lists {
    counts: usize,
    lengths: usize,
    marks: usize,
    passes: u64,
}

// Those of the bands in use: the words of the others are zeros.
fn num_blocks(states: &[u32]) -> usize
    requires { 1 ≤ words_in_front writer states.now }
    ensures { result ≡ length (blocks (bands states.now)) }
{
    let first = tcd_levels::area(states[4], states[5]);
    let second = tcd_levels::area(states[7], states[8]);
    let third = tcd_levels::area(states[10], states[11]);
    first + second + third
}

fn lists_of(states: &[u32], counts: &[u32], lengths: usize, marks: usize) -> Lists
    requires { 1 ≤ words_in_front writer states.now }
    ensures { result ≡ lists_of (length (blocks (bands states.now))) counts.now lengths marks }
{
    let blocks = num_blocks(states).min(counts.len());
    let passes = t2_narrow::total(&counts[..blocks]);
    Lists {
        counts: blocks,
        lengths: passes.min(lengths as u64) as usize,
        marks: passes.min(marks as u64) as usize,
        passes,
    }
}

// 5, 6, 3, 7, 8, 9 and 10. Of the bodies only their length matters.
fn in_front(
    states: &[u32],
    counts: &[u32],
    lengths: &[u32],
    marks: &[u8],
    bodies: usize,
) -> Result<Front, Refusal>
    ensures { FrontIs states.now (contribution counts.now lengths.now marks.now)
        bodies result }
{
    let Some(words) = tcd_state::state_in_front(tcd_style::WRITER, states) else {
        return Err(Refusal::State);
    };
    let lists = lists_of(states, counts, lengths.len(), marks.len());
    let blocks = lists.counts;
    let passes = lists.lengths;
    if let Some(why) = t2_refusals::refusal_of_valid(
        &states[..words],
        &counts[..blocks],
        &lengths[..passes],
        &marks[..lists.marks],
        lists.passes,
    ) {
        return Err(why);
    }
    let bytes = t2_narrow::total(&lengths[..passes]);
    if (bodies as u64) < bytes {
        return Err(Refusal::Body);
    }
    Ok(Front {
        words,
        blocks,
        passes,
        bytes: bytes as usize,
    })
}

// The bytes of its packet, whose state is in its part of the scratch; 11.
fn put_in_front(
    front: Front,
    states: &[u32],
    scratch: &mut [u32],
    counts: &[u32],
    lengths: &[u32],
    marks: &[u8],
    bodies: &[u8],
    markers: Markers,
    number: u32,
    output: &mut [u8],
) -> Result<usize, Refusal>
    requires { (FrontIs states.now (contribution counts.now lengths.now marks.now) (length bodies.now) (Ok front))
        × (length scratch.old ≡ length states.now) }
    ensures { PutInFront (rest states.now scratch.old
        (contribution counts.now lengths.now marks.now) bodies.now output.old)
        markers number (answer_of result) scratch.new output.new }
{
    let words = front.words;
    let passes = front.passes;
    t2_put_packet::put(
        &states[..words],
        &mut scratch[..words],
        &counts[..front.blocks],
        &lengths[..passes],
        &marks[..passes],
        &bodies[..front.bytes],
        markers,
        number,
        output,
    )
}

// The single call, but that its state is settled later. The answer has the bytes of its packet.
pub fn write_in_front(
    states: &[u32],
    scratch: &mut [u32],
    counts: &[u32],
    lengths: &[u32],
    marks: &[u8],
    bodies: &[u8],
    markers: Markers,
    number: u32,
    output: &mut [u8],
) -> Result<(Front, usize), Refusal>
    requires { length scratch.old ≡ length states.now }
    ensures { WrittenInFront (rest states.now scratch.old
        (contribution counts.now lengths.now marks.now) bodies.now output.old)
        markers number result scratch.new output.new }
{
    let front = in_front(states, counts, lengths, marks, bodies.len())?;
    let packet = put_in_front(
        front, states, scratch, counts, lengths, marks, bodies, markers, number, output,
    )?;
    Ok((front, packet))
}
