// Which refusal a call is given: document 01's table, a row at a time.
ghost use Rattle.std.specs.Prelude.{◌≡◌, cond};

// One row of a call's table: its number if it applies, else what the later rows give. After the last row comes 0, no refusal.
// A call writes its rows in rising order: row(1, c1, row(5, c5, row(8, c8, 0))).
pub fn row(number: u8, applies: bool, later: u8) -> u8
    ensures { result ≡ cond applies number later }
{
    if applies { number } else { later }
}
