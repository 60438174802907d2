// The number that a caller gets: in a word or two, in a sentence, and where to look.
use crate::kind;
use print::Out;

fn words(n: u32) -> &'static str {
    match n {
        0 => "taken",
        1 => "unknown kind",
        2 => "bad size",
        3 => "payload too short",
        4 => "too many zeros",
        5 => "rule broken",
        6 => "too many regions",
        7 => "bad tail",
        8 => "no such slot, or it is closed",
        9 => "no region table",
        10 => "too few rows lent",
        _ => "set aside",
    }
}

// Of a read or a feed.
pub(crate) fn read(out: &mut Out, n: u32) {
    out.number(u64::from(n));
    out.text(" ");
    out.text(words(n));
}

// Of any other call.
pub fn called(out: &mut Out, n: u32) {
    if n == 0 {
        out.text("0 done");
    } else {
        read(out, n);
    }
}

fn told(n: u32) -> &'static str {
    match n {
        0 => "Taken: the payload is a message within the rules.",
        1 => "Refused: the kind is none of those that are read.",
        2 => "Refused: the stated size exceeds 8192 or the bytes that are there.",
        3 => "Refused: the payload ends before its message does.",
        4 => "Refused: a ue(v) number starts with 32 zero bits.",
        5 => "Refused: a field has a value that the rules do not allow.",
        6 => "Refused: kind 155 with more than 16 regions.",
        7 => "Refused: what follows the message is no permitted tail.",
        8 => {
            "Refused: the slot number is 8 or more, or, except for opening, the slot is closed."
        }
        9 => "Refused: no region table can be made of what the slot holds.",
        10 => "Refused: fewer than nine numbers were lent for each row.",
        _ => {
            "Set aside: kind 45 with a reserved id, type or interpretation. It is read, and no slot changes."
        }
    }
}

pub fn sentence(out: &mut Out, n: u32) {
    out.text(told(n));
}

// Where to look when a payload of the kind is not taken.
pub(crate) fn hint(out: &mut Out, n: u32, kind: u64) {
    match n {
        1 => kind::number_hint(out),
        2 => out.text("whether the size counts a header too, or the capture lost bytes."),
        3 => out.text("whether the kind is right, and whether the capture lost bytes at the end."),
        4 => out.text("whether the kind is right: so many zeros are padding and no message."),
        5 => out.text(kind::rule_hint(kind)),
        6 => out.text("the second byte, rwp_num_packed_regions."),
        7 => out.text(
            "the last byte: it needs a one bit after the message; zero bytes at the end are not permitted.",
        ),
        20 => out.text(
            "fp_arrangement_id (256 to 511 and 2147483648 on are reserved), the type (3, 4 or 5) and the interpretation (0 to 2).",
        ),
        _ => {}
    }
}
