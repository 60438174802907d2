// Emulation prevention bytes: in the video's bytes a 03 is put after 00 00 where 00 to 03 would follow, and taken out again before a payload is read.
use print::Out;

fn contained(s: &[u8]) -> bool {
    s.windows(3).any(|three| matches!(three, [0, 0, 3]))
}

// A payload that has them may end too early, break a rule or have a bad tail.
pub(crate) fn emulation(out: &mut Out, n: u32, payload: &[u8]) {
    if matches!(n, 3 | 5 | 7) && contained(payload) {
        out.text(
            "\n  Look at: the bytes contain 00 00 03: if the capture still has its emulation prevention bytes, \
            remove each 03 after 00 00 first.",
        );
    }
}
