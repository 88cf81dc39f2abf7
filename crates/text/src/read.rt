// Read: a first pass over the text finds the first fault and writes nothing; a second pass writes the bytes.
ghost use Rattle.std.specs.Prelude.{◌+◌, ◌*◌, ◌≤◌, ◌<◌, ◌≡◌, [], ◌++◌, length, drop};
ghost use Rattle.frames.specs.Edition.{frame_bytes};
ghost use Rattle.frames.specs.Steps.Sizes.{county_size, most_bytes};
ghost use Rattle.frames.specs.Frame.{head_bytes, nodes};
ghost use Rattle.frames.specs.Faults.{framed};
ghost use Rattle.network.specs.Steps.Taken.{Gathered};
ghost use Rattle.network.specs.Steps.Checks.{HeadFits};
ghost use Rattle.text.specs.Read.{read_of};
ghost use Rattle.text.specs.Told.{refused_at, told, told_of, ReadDid};
ghost use Rattle.text.specs.Steps.Spelled.{spelled_text};
ghost use Rattle.text.specs.Steps.Lines.{LineDecoded, LineFault, FrameRead, SegmentJudged, LineJudged, HeadJudged, lines_after};

use crate::{GoodHead, Refused};
use digits::{Scanned, decode_into, scan_line};
use frames::decoded::head_of;
use frames::edition::frame_bytes;
use frames::frame::sum_of;
use frames::ranges::{ends_ok, head_ok, street_ok};
use frames::sizes::is_town;
use frames::{Head, fields, sizes};
use network::kept::kept_bytes;
use network::legs::{claim_legs, ends_of, no_legs};
use refusals::Refusal;

// Reads the first line of what is left of a text into the buffer, where it has as many bytes as the buffer: then its digits and its 0A stand where they
// must, and nothing is searched for.
#[tactic(auto, using(crate::proofs::LineLaws::line_decoded))]
fn whole_line(rest: &[u8], frame: &mut [u8]) -> bool
    requires { (0 < length frame.old) × (length frame.old ≤ most_bytes) }
    ensures { LineDecoded rest.now frame.old frame.new result }
{
    let digits = 2 * frame.len();
    if rest.len() <= digits {
        return false;
    }
    if rest[digits] != 10 {
        return false;
    }
    decode_into(rest, frame)
}

// The fault of a first line that has another number of bytes than it should.
#[tactic(auto, using(crate::proofs::LineLaws::fault_told))]
fn fault_of(rest: &[u8]) -> Refusal
    ensures { LineFault rest.now result }
{
    let Some(Scanned { count, sum }) = scan_line(rest) else {
        return Refusal::NotDigits;
    };
    if count == 0 {
        return Refusal::NotDigits;
    }
    if sum != 0 {
        return Refusal::WrongCheck;
    }
    Refusal::WrongFrame
}

// Reads a first line as a frame of this kind and of the buffer's length.
#[tactic(auto, using(crate::proofs::LineLaws::frame_read))]
fn frame_line(rest: &[u8], kind: u8, frame: &mut [u8]) -> Result<(), Refusal>
    requires { (0 < length frame.old) × (length frame.old ≤ most_bytes) }
    ensures { FrameRead rest.now kind frame.old frame.new result }
{
    if !whole_line(rest, frame) {
        return Err(fault_of(rest));
    }
    if sum_of(frame) != 0 {
        return Err(Refusal::WrongCheck);
    }
    if frame[fields::KIND] != kind {
        return Err(Refusal::WrongFrame);
    }
    Ok(())
}

// Judges the frame of segment s, whose line had no fault of its own, and takes its legs where it has no fault either.
#[tactic(auto, using(crate::proofs::LineLaws::frame_judged))]
fn judge_frame(frame: &[u8], head: Head, s: usize, legs: &mut [u8]) -> Result<(), Refusal>
    requires { (framed 2 (frame_bytes head.edition) frame.now 0 ≡ 0) × HeadFits head legs.old }
    ensures { SegmentJudged frame.now head s legs.old legs.new result }
{
    if head.segments <= s {
        return Err(Refusal::WrongCount);
    }
    if !street_ok(frame, head.edition) {
        return Err(Refusal::WrongField);
    }
    if !ends_ok(frame, head.nodes) {
        return Err(Refusal::WrongField);
    }
    if !claim_legs(ends_of(frame), legs) {
        return Err(Refusal::LegTaken);
    }
    Ok(())
}

// Judges the line of segment s, read into a buffer of a frame's length.
#[tactic(auto, using(crate::proofs::LineLaws::line_judged))]
fn judge_line(
    rest: &[u8],
    head: Head,
    s: usize,
    frame: &mut [u8],
    legs: &mut [u8],
) -> Result<(), Refusal>
    requires { HeadFits head legs.old × (length frame.old ≡ frame_bytes head.edition) }
    ensures { LineJudged rest.now head s legs.old legs.new result }
{
    frame_line(rest, fields::SEGMENT_KIND, frame)?;
    judge_frame(frame, head, s, legs)
}

// A refusal of the line with this number.
fn refused_at(refusal: Refusal, line: usize) -> Refused
    ensures { result ≡ refused_at refusal line }
{
    Refused { refusal, line }
}

// The answer for the lines after a good head, with a byte for each of the head's nodes. A line that has no fault is as long as each other one.
#[tactic(auto, using(crate::proofs::LinesRead::lines_judged))]
fn judge_lines(lines: &[u8], first: &GoodHead, legs: &mut [u8]) -> Result<usize, Refused>
    requires { Gathered (nodes first.now.bytes) [] legs.old }
    ensures { told result ≡ told_of (lines_after first.now.bytes lines.now) }
{
    let head = head_of(&first.bytes);
    let size = frame_bytes(head.edition);
    let line = 2 * size + 1;
    let mut buffer = [0u8; sizes::MOST_BYTES];
    let frame = &mut buffer[..size];
    let mut s: usize = 0;
    let mut rest = lines;
    while !rest.is_empty() {
        judge_line(rest, head, s, frame, legs).map_err(|refusal| refused_at(refusal, s + 2))?;
        rest = &rest[line..];
        s += 1;
    }
    if s < head.segments {
        return Err(refused_at(Refusal::WrongCount, s + 2));
    }
    Ok(kept_bytes(head))
}

// The same in memory of its own for so many nodes.
fn judge_in<const NODES: usize>(lines: &[u8], first: &GoodHead) -> Result<usize, Refused>
    requires { (nodes first.now.bytes ≤ NODES) × (NODES ≤ county_size) }
    ensures { told result ≡ told_of (lines_after first.now.bytes lines.now) }
{
    let mut legs = no_legs::<NODES>();
    judge_lines(lines, first, &mut legs)
}

// The same in a county's memory. It is never inlined, so that a town takes no stack for a county.
#[inline(never)]
pub fn judge_in_county(lines: &[u8], first: &GoodHead) -> Result<usize, Refused>
    ensures { told result ≡ told_of (lines_after first.now.bytes lines.now) }
{
    judge_in::<{ sizes::COUNTY }>(lines, first)
}

// The same in a town's memory, where the network is no larger.
#[tactic(auto, using(frames::proofs::TownLaws::town_nodes))]
fn judge_segments(lines: &[u8], first: &GoodHead) -> Result<usize, Refused>
    ensures { told result ≡ told_of (lines_after first.now.bytes lines.now) }
{
    let head = head_of(&first.bytes);
    if is_town(head.nodes, head.segments) {
        judge_in::<{ sizes::TOWN }>(lines, first)
    } else {
        judge_in_county(lines, first)
    }
}

// Judges the head's line and the output's room. Where it finds no fault, it gives the head, and the lines after it decide.
#[tactic(auto, using(crate::proofs::LinesRead::head_judged), unfolding(crate::specs::Read::read_of, frames::specs::Faults::head_fault))]
fn judge_head(text: &[u8], room: usize) -> Result<GoodHead, Refusal>
    ensures { HeadJudged text.now room result }
{
    if text.is_empty() {
        return Err(Refusal::WrongFrame);
    }
    let mut bytes = [0; fields::HEAD_BYTES];
    frame_line(text, fields::HEAD_KIND, &mut bytes)?;
    if !head_ok(&bytes) {
        return Err(Refusal::WrongField);
    }
    if room < kept_bytes(head_of(&bytes)) {
        return Err(Refusal::OutputTooShort);
    }
    Ok(GoodHead { bytes })
}

// The answer for a text and an output of `room` bytes.
pub fn judge_text(text: &[u8], room: usize) -> Result<usize, Refused>
    ensures { told result ≡ told_of (read_of text.now room) }
{
    let first = judge_head(text, room).map_err(|refusal| refused_at(refusal, 1))?;
    judge_segments(&text[fields::HEAD_LINE..], &first)
}

// Writes the bytes of a text that was judged good: its head and so many lines of frames of this size.
fn write_frames(text: &[u8], size: usize, segments: usize, output: &mut [u8])
    requires { (2 * head_bytes + 1 + (2 * size + 1) * segments ≤ length text.now) × (head_bytes + size * segments ≤ length output.old) × (size ≤ most_bytes) }
    ensures { output.new ≡ spelled_text size segments text.now ++ drop (head_bytes + size * segments) output.old }
{
    decode_into(text, &mut output[0..fields::HEAD_BYTES]);
    for s in 0..segments {
        let at = fields::HEAD_LINE + (2 * size + 1) * s;
        let out = fields::HEAD_BYTES + size * s;
        decode_into(&text[at..], &mut output[out..out + size]);
    }
}

// Reads a network text into the output: the first faulty line decides, and a refusal leaves the output as it was.
#[tactic(auto, using(crate::proofs::KeptText::was_refused))]
pub fn read(text: &[u8], output: &mut [u8]) -> Result<usize, Refused>
    ensures { ReadDid text.now output.old output.new result }
{
    let count = judge_text(text, output.len())?;
    let mut first = [0; fields::HEAD_BYTES];
    decode_into(text, &mut first);
    let head = head_of(&first);
    write_frames(text, frame_bytes(head.edition), head.segments, output);
    Ok(count)
}
