// The coding of blocks in a packet header (opj_t2_encode_packet of t2.rs): a block from its parts, and a row of them.
#![tactic(auto)]

ghost use Rattle.std.specs.Prelude.{◌≡◌, ◌+◌, ◌<◌, T, length, get_or};
ghost use Rattle.t800.specs.WriteHeader.{code_block};
ghost use Rattle.t800.specs.Segments.{segments_of};
ghost use Rattle.bio_bytes.specs.Writing.{output, FreeBitsClear};
ghost use Rattle.t2_write_codes.specs.PassTable.{is_pass_table};
ghost use Rattle.tgt_write.specs.Coding.{leaf_coded, put_coded};
ghost use Rattle.t2_write_lengths.specs.Blocks.{PassesFit};
ghost use Rattle.tcd_places.specs.Places.{BlockIn, RowIn, block_in, row_blocks};
ghost use Rattle.t2_write_block.specs.Runs.{running, code_next, code_all, NextFits, AllFit};
ghost use Rattle.t800.specs.State.{not_yet_included};

use t800::Bio;
use tcd_places::Place;

// What a packet's blocks are coded by: the table of pass codes, the layer, and the caller's counts, lengths and marks.
#[derive(Clone, Copy)]
pub struct Coding<'a> {
    pub codes: &'a [u16; 328],
    pub layer: u32,
    pub counts: &'a [u32],
    pub lengths: &'a [u32],
    pub marks: &'a [u8],
    ghost table: { T (is_pass_table codes.now) },
    ghost early: { layer < not_yet_included },
}

// Where the bits stand, and how many blocks and passes of the caller's lists are done.
#[derive(Clone, Copy)]
pub struct Run {
    pub bio: Bio,
    pub block: usize,
    pub pass: usize,
}

// ---- one block

fn code_block(
    codes: &[u16; 328],
    words: &mut [u32],
    out: &mut [u8],
    b: Bio,
    p: Place,
    row: &[usize; 7],
    layer: u32,
    count: u32,
    lengths: &[u32],
    marks: &[u8],
) -> Bio
    requires { (T (is_pass_table codes.now)) × (FreeBitsClear b) × (BlockIn (length words.old) p row.now)
        × (layer < not_yet_included)
        × (PassesFit (get_or words.old p.at 0) (get_or words.old (p.at + 1) 0) count lengths.now marks.now) }
    ensures { leaf_coded words.new out.new result
        ≡ put_coded (output out.old b)
        (code_block layer (block_in p row.now 0) count (segments_of lengths.now marks.now)
        words.old) }
{
    let told = t2_write_block_parts::code_inclusion(words, out, b, p, row, layer, count);
    if count == 0 {
        return told;
    }
    let planes = t2_write_block_parts::code_zero_planes(words, out, told, p, row);
    t2_write_block_parts::code_passes(codes, words, out, planes, p.at, count, lengths, marks)
}

// ---- a row of blocks

fn code_next(
    words: &mut [u32],
    out: &mut [u8],
    r: Run,
    p: Place,
    row: &[usize; 7],
    by: &Coding<'_>,
) -> Run
    requires { (FreeBitsClear r.bio) × (BlockIn (length words.old) p row.now)
        × (NextFits by.now.counts.now by.now.lengths.now by.now.marks.now words.old p.at r.block r.pass) }
    ensures { running words.new out.new result
        ≡ code_next by.now.layer by.now.counts.now by.now.lengths.now by.now.marks.now (block_in p row.now 0)
        (running words.old out.old r) }
{
    let block = r.block;
    let next = block + 1;
    let from = r.pass;
    let count = by.counts[block];
    let to = from + count as usize;
    let bio = code_block(
        by.codes,
        words,
        out,
        r.bio,
        p,
        row,
        by.layer,
        count,
        &by.lengths[from..to],
        &by.marks[from..to],
    );
    Run {
        bio,
        block: next,
        pass: to,
    }
}

// n blocks.
pub fn code_row(
    words: &mut [u32],
    out: &mut [u8],
    r: Run,
    p: Place,
    n: usize,
    row: &[usize; 7],
    by: &Coding<'_>,
) -> Run
    requires { (FreeBitsClear r.bio) × (RowIn (length words.old) p row.now n)
        × (AllFit by.now.counts.now by.now.lengths.now by.now.marks.now words.old (row_blocks p row.now 0 n 0) r.block r.pass) }
    ensures { running words.new out.new result
        ≡ code_all by.now.layer by.now.counts.now by.now.lengths.now by.now.marks.now (row_blocks p row.now 0 n 0)
        (running words.old out.old r) }
{
    let mut run = r;
    for i in 0..n {
        let place = tcd_places::place_at(p, i);
        run = code_next(words, out, run, place, row, by);
    }
    run
}
