// A stream that arrives in blocks.

ghost use Rattle.std.specs.Prelude.{◌≡◌};
ghost use Rattle.second.specs.Lanes.{lanes_of, room_in};
ghost use Rattle.reader.specs.Reader.{started};
ghost use Rattle.reader.specs.Blocks.{fed_of, lanes_fed, end_of};

use reader::{Fed, Reader};
use second::LentLanes;
use stream::ReadAnswer;

// The reader before the first block.
pub fn pb_start() -> Reader
    ensures { result ≡ started }
{
    reader::start()
}

// Feeds a block into a reader and five lanes.
pub fn pb_feed(
    reader: Reader,
    block: &[u8],
    states: &mut [u8],
    speeds: &mut [u16],
    altitudes: &mut [i32],
    co2: &mut [u32],
    nox: &mut [u32],
) -> Fed
    ensures { let lanes = lanes_of states.old speeds.old altitudes.old co2.old nox.old in
        let left = lanes_of states.new speeds.new altitudes.new co2.new nox.new in
        (result ≡ fed_of (room_in lanes) reader block.now)
        × (left ≡ lanes_fed reader block.now lanes) }
{
    let mut lanes = LentLanes {
        states,
        speeds,
        altitudes,
        co2,
        nox,
    };
    blocks::feed(reader, block, &mut lanes)
}

// The answer at the end of the stream.
pub fn pb_end(reader: Reader) -> ReadAnswer
    ensures { result ≡ end_of reader }
{
    reader::end(reader)
}
