// What program levels prints of a text.
ghost use Rattle.std.specs.Prelude.{◌≡◌, [], ◌++◌, ◌+◌, ◌≤◌, ◌<◌, length};
ghost use Rattle.network.specs.Network.{segments_of};
ghost use Rattle.refusals.specs.Numbers.{number_of};
ghost use Rattle.arrayvec.specs.ArrayString.{array_string_len};
ghost use Rattle.levels.specs.Levels.{most_input, most_lines, level_line, level_lines, refused_line, levels_room, levels_of};

use arrayvec::ArrayString;
use frames::edition;
use printing::put_field;
use refusals::Refusal;
use splicereel::read::read;
use streets::kept::Network;
use text::Refused;

// What is printed: at most so many bytes, which lie in the value itself.
pub type Page = ArrayString<65536>;

// One line: a segment's number, level and measure.
fn put_level(net: &Network, segment: usize, page: &mut Page)
    requires { (segment < segments_of net.now.bytes.now) × (array_string_len page.old + 63 ≤ 65536) }
    ensures text { page.new.bytes ≡ page.old.bytes ++ level_line net.now.bytes.now segment }
    ensures len { array_string_len page.new ≤ array_string_len page.old + 63 }
{
    let grade = net.segment_grade(segment);
    put_field(segment, ' ', page);
    put_field(usize::from(grade.level), ' ', page);
    put_field(usize::from(grade.measure), '\n', page);
}

// A line for each segment of a network that a page has room for.
fn put_levels(net: &Network, page: &mut Page)
    requires { (page.old.bytes ≡ []) × (segments_of net.now.bytes.now ≤ most_lines) }
    ensures { page.new.bytes ≡ level_lines net.now.bytes.now 0 (segments_of net.now.bytes.now) }
{
    for segment in 0..net.segments() {
        put_level(net, segment, page);
    }
}

fn put_refusal(refusal: Refusal, line: usize, page: &mut Page)
    requires { page.old.bytes ≡ [] }
    ensures { page.new.bytes ≡ refused_line (number_of refusal) line }
{
    page.push_str("refused ");
    put_field(usize::from(u8::from(refusal)), ' ', page);
    put_field(line, '\n', page);
}

// On a page that is lent: a line for each segment of the text's network, or one line for its refusal. So many bytes have no more lines than a page has room
// for.
pub fn levels(text: &[u8], page: &mut Page)
    requires { length text.now ≤ most_input }
    ensures { page.new.bytes ≡ levels_of text.now }
{
    let mut net = [0; edition::MOST_KEPT];
    page.clear();
    match read(text, &mut net) {
        Err(Refused { refusal, line }) => put_refusal(refusal, line, page),
        Ok(count) => {
            let net = Network::of(&net[..count]);
            put_levels(&net, page);
        }
    }
}
