// What a message of kind 45 carries unless it cancels.
ghost use Rattle.std.specs.Prelude.{◌≡◌};
ghost use Rattle.bits.specs.Answers.{out_of};
ghost use Rattle.bits.specs.Bits.{Payload};
ghost use Rattle.format.specs.Reading.{run_at};
ghost use Rattle.kind_frame_packing.specs.FramePacking.{carried};

use crate::flags::Flags;
use crate::grid::Grid;
use bits::cursor::Cursor;
use bits::element::u;
use bits::read::Reading;

#[repr(C)]
#[derive(Clone, Copy, Default)]
pub struct Layout {
    pub fp_arrangement_type: u8,
    pub fp_quincunx_sampling_flag: u8,
    pub fp_content_interpretation_type: u8,
    pub flags: Flags,
    pub grid: Grid,
    pub fp_arrangement_persistence_flag: u8,
}

impl Layout {
    #[tactic(auto, using(format::proofs::Steps::reading))]
    pub(crate) fn read(s: &[u8], c: Cursor) -> Reading<Layout>
        requires { Payload s.now }
        ensures { out_of result ≡ run_at carried s.now c.at }
    {
        let (fp_arrangement_type, c) = u(s, c, 7)?;
        let (fp_quincunx_sampling_flag, c) = u(s, c, 1)?;
        let (fp_content_interpretation_type, c) = u(s, c, 6)?;
        let (fp_spatial_flipping_flag, c) = u(s, c, 1)?;
        let (fp_frame0_flipped_flag, c) = u(s, c, 1)?;
        let (fp_field_views_flag, c) = u(s, c, 1)?;
        let (fp_current_frame_is_frame0_flag, c) = u(s, c, 1)?;
        let (fp_frame0_self_contained_flag, c) = u(s, c, 1)?;
        let (fp_frame1_self_contained_flag, c) = u(s, c, 1)?;
        // A reserved type has positions too: only type 5 has none.
        let (grid, c) = if fp_quincunx_sampling_flag == 0 && fp_arrangement_type != 5 {
            Grid::read(s, c)?
        } else {
            (Grid::default(), c)
        };
        // fp_arrangement_reserved_byte
        let (_, c) = u::<u8>(s, c, 8)?;
        let (fp_arrangement_persistence_flag, c) = u(s, c, 1)?;
        let layout = Layout {
            fp_arrangement_type,
            fp_quincunx_sampling_flag,
            fp_content_interpretation_type,
            flags: Flags {
                fp_spatial_flipping_flag,
                fp_frame0_flipped_flag,
                fp_field_views_flag,
                fp_current_frame_is_frame0_flag,
                fp_frame0_self_contained_flag,
                fp_frame1_self_contained_flag,
            },
            grid,
            fp_arrangement_persistence_flag,
        };
        Ok((layout, c))
    }
}
