// What reading something answers: what was read, with the cursor after it; or why there is nothing.
use crate::cursor::Cursor;
use crate::refusal::Refusal;

pub type Reading<T> = Result<(T, Cursor), Refusal>;
