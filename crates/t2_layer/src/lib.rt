// One layer written and read back with the engine's calls.
#![tactic(auto)]

ghost use Rattle.std.specs.Prelude.{◌≡◌};
ghost use Rattle.t800.specs.Packet.{refused_answer};
ghost use Rattle.t800.specs.WriteHeader.{contribution};
ghost use Rattle.t2_layer.specs.Layer.{first_layer, lent, layer_result, write_and_read};

use t800::{Band, Markers, ReadAnswer};

fn refused(refusal: u32) -> ReadAnswer
    ensures { result ≡ refused_answer refusal }
{
    ReadAnswer {
        refusal,
        present: 0,
        taken: 0,
        segments: 0,
        sop: 0,
        eph: 0,
        past: 0,
    }
}

// A precinct's first layer, written and read back; proofs/Layer.antt has what that gives.
pub fn write_and_read(
    count: u32,
    bands: [Band; 3],
    style: u8,
    planes: &[u32],
    writer: &mut [u32],
    reader: &mut [u32],
    scratch: &mut [u32],
    counts: &[u32],
    lengths: &[u32],
    marks: &[u8],
    body: &[u8],
    markers: Markers,
    number: u32,
    output: &mut [u8],
    reports: &mut [u32],
    records: &mut [u32],
) -> ReadAnswer
    ensures { layer_result result writer.new reader.new scratch.new output.new reports.new
        records.new
        ≡ write_and_read (first_layer count bands style planes.now
        (contribution counts.now lengths.now marks.now) body.now markers number)
        (lent writer.old reader.old scratch.old output.old reports.old
        records.old) }
{
    let first = t2::start_writer(count, bands, style, planes, writer);
    if first != 0 {
        return refused(first);
    }
    let second = t2::start_reader(count, bands, style, &planes[0..0], reader);
    if second != 0 {
        return refused(second);
    }
    let written = t2::write(
        writer, scratch, counts, lengths, marks, body, markers, number, output,
    );
    if written.refusal != 0 {
        return refused(written.refusal);
    }
    t2::read(reader, scratch, output, markers, reports, records)
}
