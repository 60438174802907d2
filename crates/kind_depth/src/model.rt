// The list of a message of type 3: the numbers of its nonlinear representation model.
ghost use Rattle.std.specs.Prelude.{◌≡◌, ◌≤◌};
ghost use Rattle.bits.specs.Answers.{out_of};
ghost use Rattle.bits.specs.Bits.{Payload};
ghost use Rattle.format.specs.Reading.{run_at};
ghost use Rattle.format.specs.Syntax.{listed};
ghost use Rattle.kind_depth.specs.Depth.{most, listed_number, model as modelFormat};

use bits::cursor::Cursor;
use bits::read::Reading;
use format::limit::at_most;
use format::list::read_list;

// The most numbers that the list may have.
pub const MOST: usize = 63;

const NUM_MINUS1_MOST: u32 = MOST as u32 - 1;

#[derive(Clone, Copy)]
pub(crate) struct Model {
    pub count: u8,
    pub numbers: [u16; MOST],
}

// The list is there only where the type is 3.
#[tactic(auto, using(format::proofs::Steps::reading, format::proofs::ReaderLaws::judging))]
pub(crate) fn read_model(s: &[u8], c: Cursor, depth_representation_type: u8) -> Reading<Model>
    requires { Payload s.now }
    ensures { out_of result ≡ run_at (modelFormat depth_representation_type) s.now c.at }
{
    if depth_representation_type != 3 {
        let none = Model {
            count: 0,
            numbers: [0u16; MOST],
        };
        return Ok((none, c));
    }
    let (depth_nonlinear_representation_num_minus1, c) = at_most::<u8>(s, c, NUM_MINUS1_MOST)?;
    let count = depth_nonlinear_representation_num_minus1 + 1;
    let mut numbers = [0u16; MOST];
    let c = read_list(&mut numbers, c, count as usize, |at| at_most(s, at, 65535))?;
    Ok((Model { count, numbers }, c))
}
