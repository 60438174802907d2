// The six flags of kind 45, handed out as coded whatever the type is.
#[repr(C)]
#[derive(Clone, Copy, Default)]
pub struct Flags {
    pub fp_spatial_flipping_flag: u8,
    pub fp_frame0_flipped_flag: u8,
    pub fp_field_views_flag: u8,
    pub fp_current_frame_is_frame0_flag: u8,
    pub fp_frame0_self_contained_flag: u8,
    pub fp_frame1_self_contained_flag: u8,
}
