// The engine's calls for programs in C and Rust: slices as pointer and length, the refusal as result, the rest in a lent list of words.
#![tactic(auto)]

ghost use Rattle.std.specs.Prelude.{◌≡◌};
ghost use Rattle.t800.specs.State.{writer, reader};
ghost use Rattle.t800.specs.WriteHeader.{contribution};
ghost use Rattle.t800.specs.Exports.{state_length_of, start_call, measure_call, write_call, write_layer_call};
ghost use Rattle.t800.specs.Exports.{read_call, read_gathered_call, gather_call, spread_call, describe_call};

use t800::SegmentRecord;

// ---- starts

// The length that a start asks of its state; 0 where it would give 1, or 3 for `bands`.
#[unsafe(no_mangle)]
pub extern "C" fn tonkelvi_state_length(count: u32, bands: &[u32]) -> usize
    ensures { result ≡ state_length_of count bands.now }
{
    tonkelvi_bands::state_length_of(count, bands)
}

// Gives 0 or a refusal.
#[unsafe(no_mangle)]
pub extern "C" fn tonkelvi_start_writer(
    count: u32,
    bands: &[u32],
    style: u8,
    planes: &[u32],
    state: &mut [u32],
) -> u32
    ensures { record { answer = result; state = state.new }
        ≡ start_call writer count bands.now style planes.now state.old }
{
    tonkelvi_starts::start_writer(count, bands, style, planes, state)
}

// Gives 0 or a refusal; the planes are to be an empty list.
#[unsafe(no_mangle)]
pub extern "C" fn tonkelvi_start_reader(
    count: u32,
    bands: &[u32],
    style: u8,
    planes: &[u32],
    state: &mut [u32],
) -> u32
    ensures { record { answer = result; state = state.new }
        ≡ start_call reader count bands.now style planes.now state.old }
{
    tonkelvi_starts::start_reader(count, bands, style, planes, state)
}

// ---- packets

// Answers header and body bytes.
#[unsafe(no_mangle)]
pub extern "C" fn tonkelvi_measure(
    state: &[u32],
    scratch: &mut [u32],
    counts: &[u32],
    lengths: &[u32],
    marks: &[u8],
    sop: bool,
    eph: bool,
    answer: &mut [u64],
) -> u32
    ensures { record { refusal = result; scratch = scratch.new; answer = answer.new }
        ≡ measure_call state.now scratch.old
        (contribution counts.now lengths.now marks.now) (record { sop = sop; eph = eph })
        answer.old }
{
    tonkelvi_packets::measure(state, scratch, counts, lengths, marks, sop, eph, answer)
}

// Answers the packet's bytes.
#[unsafe(no_mangle)]
pub extern "C" fn tonkelvi_write(
    state: &mut [u32],
    scratch: &mut [u32],
    counts: &[u32],
    lengths: &[u32],
    marks: &[u8],
    body: &[u8],
    sop: bool,
    eph: bool,
    number: u32,
    output: &mut [u8],
    answer: &mut [u64],
) -> u32
    ensures { record {
      refusal = result;
      state = state.new;
      scratch = scratch.new;
      output = output.new;
      answer = answer.new;
    }
        ≡ write_call state.old scratch.old
        (contribution counts.now lengths.now marks.now) body.now
        (record { sop = sop; eph = eph }) number output.old answer.old }
{
    tonkelvi_packets::write(
        state, scratch, counts, lengths, marks, body, sop, eph, number, output, answer,
    )
}

// Answers the place of the precinct refused, and the bytes of all packets.
#[unsafe(no_mangle)]
pub extern "C" fn tonkelvi_write_layer(
    states: &mut [u32],
    scratch: &mut [u32],
    packet_numbers: &[u32],
    counts: &[u32],
    lengths: &[u32],
    marks: &[u8],
    bodies: &[u8],
    sop: bool,
    eph: bool,
    output: &mut [u8],
    answer: &mut [u64],
) -> u32
    ensures { record {
      refusal = result;
      states = states.new;
      scratch = scratch.exit.now;
      output = output.new;
      answer = answer.new;
    }
        ≡ write_layer_call states.old (record {
          scratch = scratch.entry.now;
          contribution = contribution counts.now lengths.now marks.now;
          bodies = bodies.now;
          markers = record { sop = sop; eph = eph };
          numbers = packet_numbers.now;
          output = output.old;
        }) answer.old }
{
    tonkelvi_layers::write_layer(
        states,
        scratch,
        packet_numbers,
        counts,
        lengths,
        marks,
        bodies,
        sop,
        eph,
        output,
        answer,
    )
}

// Answers present, bytes taken, segments, SOP mark, EPH mark, bits past the end.
#[unsafe(no_mangle)]
pub extern "C" fn tonkelvi_read(
    state: &mut [u32],
    scratch: &mut [u32],
    src: &[u8],
    sop: bool,
    eph: bool,
    reports: &mut [u32],
    work: &mut [u32],
    records: &mut [SegmentRecord],
    answer: &mut [u64],
) -> u32
    ensures { record {
      refusal = result;
      state = state.new;
      scratch = scratch.new;
      reports = reports.new;
      work = work.new;
      records = records.new;
      answer = answer.new;
    }
        ≡ read_call state.old scratch.old (record { sop = sop; eph = eph }) src.now
        reports.old work.old records.old answer.old }
{
    let room = records.len();
    let a = tonkelvi_read_parts::read_words(
        state, scratch, src, sop, eph, reports, work, room, answer,
    );
    let m = t2_read_numbers::to_fill(a, room);
    t2_records::fill(records, work, m);
    a.refusal
}

// Answers present, header bytes taken, bytes of src taken, segments, SOP mark, EPH mark, bits past the end.
#[unsafe(no_mangle)]
pub extern "C" fn tonkelvi_read_gathered(
    state: &mut [u32],
    scratch: &mut [u32],
    headers: &[u8],
    src: &[u8],
    sop: bool,
    eph: bool,
    reports: &mut [u32],
    work: &mut [u32],
    records: &mut [SegmentRecord],
    answer: &mut [u64],
) -> u32
    ensures { record { refusal = result; state = state.new; scratch = scratch.new; reports = reports.new; work = work.new; records = records.new; answer = answer.new }
        ≡ read_gathered_call state.old scratch.old (record { sop = sop; eph = eph }) headers.now
        src.now reports.old work.old records.old answer.old }
{
    let room = records.len();
    let a = tonkelvi_gathered_parts::gathered_words(
        state, scratch, headers, src, sop, eph, reports, work, room, answer,
    );
    let m = t2_read_numbers::to_fill(a, room);
    t2_records::fill(records, work, m);
    a.refusal
}

// ---- headers gathered in front, and back

// Answers the bytes put in headers and in bodies.
#[unsafe(no_mangle)]
pub extern "C" fn tonkelvi_gather_headers(
    row: &[u8],
    states: &[u32],
    scratch: &mut [u32],
    places: &[u32],
    sop: bool,
    eph: bool,
    headers: &mut [u8],
    bodies: &mut [u8],
    answer: &mut [u64],
) -> u32
    ensures { record {
      refusal = result;
      scratch = scratch.new;
      headers = headers.new;
      bodies = bodies.new;
      answer = answer.new;
    }
        ≡ gather_call row.now states.now scratch.old places.now
        (record { sop = sop; eph = eph }) headers.old bodies.old answer.old }
{
    tonkelvi_moves::gather_headers(
        row, states, scratch, places, sop, eph, headers, bodies, answer,
    )
}

// Answers the bytes put in the row.
#[unsafe(no_mangle)]
pub extern "C" fn tonkelvi_spread_headers(
    headers: &[u8],
    bodies: &[u8],
    states: &[u32],
    scratch: &mut [u32],
    places: &[u32],
    sop: bool,
    eph: bool,
    row: &mut [u8],
    answer: &mut [u64],
) -> u32
    ensures { record { refusal = result; scratch = scratch.new; row = row.new; answer = answer.new }
        ≡ spread_call headers.now bodies.now states.now scratch.old places.now
        (record { sop = sop; eph = eph }) row.old answer.old }
{
    tonkelvi_moves::spread_headers(
        headers, bodies, states, scratch, places, sop, eph, row, answer,
    )
}

// ---- what a state is

// Answers role, next layer, blocks.
#[unsafe(no_mangle)]
pub extern "C" fn tonkelvi_describe(state: &[u32], answer: &mut [u64]) -> u32
    ensures { record { refusal = result; answer = answer.new } ≡ describe_call state.now answer.old }
{
    tonkelvi_state::describe(state, answer)
}
