// The moves: a kept network of edition 02 as one of edition 03, and back.
ghost use Rattle.moves.specs.Moving.{MoveDid};

use refusals::Refusal;

// Writes a network of edition 02 at the front of the output as one of edition 03 and gives the number of bytes written, or refuses it and leaves the output
// as it was.
pub fn move_up(net: &[u8], output: &mut [u8]) -> Result<usize, Refusal>
    ensures { MoveDid 2 3 net.now output.old output.new result }
{
    moves::moving::move_up(net, output)
}

// The same of a network of edition 03, as one of edition 02.
pub fn move_back(net: &[u8], output: &mut [u8]) -> Result<usize, Refusal>
    ensures { MoveDid 3 2 net.now output.old output.new result }
{
    moves::moving::move_back(net, output)
}
