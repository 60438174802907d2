// The four grid positions of kind 45.
ghost use Rattle.std.specs.Prelude.{◌≡◌};
ghost use Rattle.bits.specs.Answers.{out_of};
ghost use Rattle.bits.specs.Bits.{Payload};
ghost use Rattle.format.specs.Reading.{run_at};
ghost use Rattle.kind_frame_packing.specs.FramePacking.{positions};

use bits::cursor::Cursor;
use bits::element::u;
use bits::read::Reading;

// As coded, in sixteenths of a sample from the upper left corner.
#[repr(C)]
#[derive(Clone, Copy, Default)]
pub struct Grid {
    pub fp_frame0_grid_position_x: u8,
    pub fp_frame0_grid_position_y: u8,
    pub fp_frame1_grid_position_x: u8,
    pub fp_frame1_grid_position_y: u8,
}

impl Grid {
    #[tactic(auto, using(format::proofs::Steps::reading))]
    pub(crate) fn read(s: &[u8], c: Cursor) -> Reading<Grid>
        requires { Payload s.now }
        ensures { out_of result ≡ run_at positions s.now c.at }
    {
        let (fp_frame0_grid_position_x, c) = u(s, c, 4)?;
        let (fp_frame0_grid_position_y, c) = u(s, c, 4)?;
        let (fp_frame1_grid_position_x, c) = u(s, c, 4)?;
        let (fp_frame1_grid_position_y, c) = u(s, c, 4)?;
        let grid = Grid {
            fp_frame0_grid_position_x,
            fp_frame0_grid_position_y,
            fp_frame1_grid_position_x,
            fp_frame1_grid_position_y,
        };
        Ok((grid, c))
    }
}
