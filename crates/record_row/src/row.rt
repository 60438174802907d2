// What has a row: its fields as numbers, one after another, which stand in a row after the extension count.
ghost use Rattle.std.specs.Prelude.{◌≡◌, ◌+◌, ◌≤◌, ◌<◌, ℕ, List, ◌∷◌, length};
ghost use Rattle.std.proofs.lemmas.List.Edits.{sets};
ghost use Rattle.answers.specs.Answer.{outcome_number};
ghost use Rattle.lent.specs.Lent.{left};
ghost use Rattle.record_row.specs.Handing.{wrote_by};

use answers::Outcome;
use bits::refusal::Refusal;

pub trait Row: Copy {
    ghost fields: { Self → List ℕ };

    // How many there are.
    fn count(self) -> usize
        ensures { result ≡ length (fields self) };

    // Writes them at `at` and after it.
    fn put(self, row: &mut [u64], at: usize)
        requires { at + length (fields self) ≤ length row.old }
        ensures { row.new ≡ sets row.old at (fields self) };
}

// The extension count and the fields, over the front of a row that has room for them.
fn fill<R: Row>(row: &mut [u64], extension: u32, x: R)
    requires { length (R.fields x) < length row.old }
    ensures { row.new ≡ sets row.old 0 (extension ∷ R.fields x) }
{
    row[0] = u64::from(extension);
    x.put(row, 1);
}

// A row that has room for them and no more.
#[tactic(auto, using(crate::proofs::RowLaws::filled))]
pub(crate) fn filled<R: Row, const N: usize>(extension: u32, x: R) -> [u64; N]
    requires { length (R.fields x) + 1 ≡ N }
    ensures { result ≡ extension ∷ R.fields x }
{
    let mut row = [0u64; N];
    fill(&mut row, extension, x);
    row
}

// What the call comes to. The room is judged first, and then all fields are written or none; of what is refused none is.
#[tactic(auto, using(crate::proofs::HandingLaws::handing))]
pub(crate) fn hand<R: Row>(row: &mut [u64], outcome: Outcome, extension: u32, x: R) -> Outcome
    ensures { left (outcome_number result) row.new ≡ wrote_by outcome (extension ∷ R.fields x) row.old }
{
    if let Outcome::Refused(_) = outcome {
        return outcome;
    }
    if row.len() <= x.count() {
        return Outcome::Refused(Refusal::rows());
    }
    fill(row, extension, x);
    outcome
}
