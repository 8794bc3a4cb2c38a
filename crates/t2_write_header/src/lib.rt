// A packet header coded from a place of the output on (opj_t2_encode_packet of t2.rs): the first bit and, where a block has passes, all
// blocks and the last byte.
#![tactic(auto)]

ghost use Rattle.std.specs.Prelude.{◌≡◌, ◌≤◌, ◌<◌, length};
ghost use Rattle.t800.specs.State.{layer, not_yet_included};
ghost use Rattle.t800.specs.WriteHeader.{contribution, code_present, code_absent};
ghost use Rattle.t2_refusal_laws.specs.Refusals.{measure_refusal_for};
ghost use Rattle.t2_write_header.specs.Header.{header_coded, put_at, put_header};

use t2_write_block::Coding;

// One byte, whose first bit is the only one.
fn encode_absent(words: &mut [u32], out: &mut [u8], start: usize) -> usize
    requires { (13 ≤ length words.old) × (layer words.old < not_yet_included) × (start ≤ 6) }
    ensures { header_coded words.new out.new result
        ≡ put_at (code_absent words.old) start out.old }
{
    bio_bytes::store(out, start, 0);
    words[3] += 1;
    start + 1
}

fn encode_present(
    words: &mut [u32],
    out: &mut [u8],
    start: usize,
    counts: &[u32],
    lengths: &[u32],
    marks: &[u8],
) -> usize
    requires { (measure_refusal_for words.old (length words.old) (contribution counts.now lengths.now marks.now) ≡ 0)
        × (start ≤ 6) }
    ensures { header_coded words.new out.new result
        ≡ put_at (code_present (contribution counts.now lengths.now marks.now) words.old) start
        out.old }
{
    let bands = tcd_first_words::bands_of(words);
    let n = words[1] as usize;
    let layer = words[3];
    let by = Coding {
        codes: &t2_write_codes::pass_codes::PASS_CODES,
        layer,
        counts,
        lengths,
        marks,
    };
    let b = bio_bytes::opj_bio_init_enc(start);
    let first = bio_write_lent::bit_out(out, b, 1);
    let last = t2_write_bands::code_bands(words, out, first, bands, n, &by);
    let end = bio_write::opj_bio_flush(out, last);
    words[3] = layer + 1;
    end.bp
}

// The place after it. Bytes for which the output has no room are counted and not stored.
pub fn encode_header(
    words: &mut [u32],
    out: &mut [u8],
    start: usize,
    counts: &[u32],
    lengths: &[u32],
    marks: &[u8],
) -> usize
    requires { (measure_refusal_for words.old (length words.old) (contribution counts.now lengths.now marks.now) ≡ 0)
        × (start ≤ 6) }
    ensures { header_coded words.new out.new result
        ≡ put_header (contribution counts.now lengths.now marks.now) words.old start
        out.old }
{
    if lengths.is_empty() {
        return encode_absent(words, out, start);
    }
    encode_present(words, out, start, counts, lengths, marks)
}
