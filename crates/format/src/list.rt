// A record's list: what is read over and over, and then zeros.
ghost use Rattle.std.specs.Prelude.{◌≡◌, ◌≤◌, ℕ, List, length, replicate};
ghost use Rattle.format.specs.Format.{Format, zeros};
ghost use Rattle.format.specs.Readers.{Reads, list_out};
ghost use Rattle.format.specs.Reading.{run_at};
ghost use Rattle.format.specs.Syntax.{listed};

use bits::cursor::Cursor;
use bits::read::Reading;
use bits::refusal::Refusal;

// So many entries of a list of zeros are read as count says. The list is lent, since one that is handed up would lie on the stack twice. What it has
// on a refusal is not said.
pub fn read_list<T: Copy, F: Fn(Cursor) -> Reading<T>>(
    list: &mut [T],
    c: Cursor,
    count: usize,
    read: F,
) -> Result<Cursor, Refusal>
    requires ready { F.IsAlwaysCallable read }
    requires few { count ≤ length list.old }
    ensures { (f : Format T T) (s : List ℕ) → list.old ≡ replicate (length list.old) (zeros f) → Reads (F.post read) f s → list_out result list.new ≡ run_at (listed (length list.old) count f) s c.at }
{
    let mut at = c;
    for i in 0..count {
        let (entry, next) = read(at)?;
        list[i] = entry;
        at = next;
    }
    Ok(at)
}
