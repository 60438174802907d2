// What the tool does, for someone with nobody to ask.
use print::Out;
use show::kind::list;
use show::number::sentence;

// What a call may answer.
const NUMBERS: [u32; 12] = [0, 1, 2, 3, 4, 5, 6, 7, 8, 9, 10, 20];

fn meanings(out: &mut Out) {
    for n in NUMBERS {
        out.text("\n  ");
        out.number(u64::from(n));
        out.text("  ");
        sentence(out, n);
    }
}

fn usage(out: &mut Out) {
    out.text(
        "Bruskelde reads SEI messages (H.274) and keeps what eight slots hold.\n\n\
        \x20 ./bruskelde 45 81 81 00 00 00 02          explains a payload: its kind, then its bytes\n\
        \x20 ./bruskelde 45 @FILE                      the same of the raw bytes of a file or pipe; @- is standard input\n\
        \x20 ./bruskelde FILE                          runs a script of calls\n\
        \x20 ./bruskelde -                             the same from standard input: each line is answered as it comes\n\
        \x20 ./bruskelde examples/camera-switch.txt    a slot passes from one camera to another\n\n\
        Bytes are hex, at most 10000; they may be pasted with 0x, colons, commas and spaces. Other numbers are decimal.\n\
        A payload is what follows payloadType and payloadSize. A capture of the video's bytes may still have its emulation prevention bytes, a 03 put in\n\
        after 00 00: remove each of them first, or the payload is read wrongly, or refused, as a rule with 3, 5 or 7.\n\
        Exit status: 0; 1 a line was wrong; 2 the file can't be read or the tool can't be built; 3 some call was refused.\n\n",
    );
}

fn calls(out: &mut Out) {
    out.text(
        "Calls of a script, one a line; # starts a comment:\n\
        \x20 open SLOT                       opens slot 0 to 7, or opens it anew: it holds nothing\n\
        \x20 feed SLOT KIND [size=N] BYTES   reads a payload; kinds 45, 47, 150, 154 and 155 are held, each in place of the one before\n\
        \x20 picture SLOT                    explains what is held, and drops what does not persist\n\
        \x20 table SLOT NUMBERS              the region table of the held kind 155; it needs 9 numbers a row, so 288 are enough\n\
        \x20 sequence SLOT                   a new sequence starts: nothing is held\n\
        \x20 close SLOT                      closes the slot\n\
        \x20 read KIND [size=N] BYTES        reads a payload with no slot\n\
        \x20 explain KIND [size=N] BYTES     the same in words, a field a line\n\
        \x20 help                            this text\n\
        size=N states another size than the bytes have.\n\
        Of a read or a feed the answer is CALL: NUMBER WORDS NAME=VALUE NAME=VALUE .., with one space before each name and none in a name or value.\n\
        CALL ends at the line's last colon and space; lines below that begin with spaces have more of the fields.\n\n",
    );
}

pub fn help(out: &mut Out) {
    usage(out);
    calls(out);
    out.text("Kinds (payloadType):\n");
    list(out);
    out.text("\nNumbers that a call answers (0 is done for a call that reads nothing):");
    meanings(out);
    out.text("\n");
}
