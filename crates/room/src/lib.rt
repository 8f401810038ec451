// The room that a job asks for: what the main table needs, and whether the lent tables are long enough.
#![tactic(auto)]

ghost use Rattle.std.specs.Prelude.{◌≡◌, ◌||◌, ◌≤◌, ltb};
ghost use Rattle.text.specs.Limits.{grammar_table, record_chars, most_size};
ghost use Rattle.answer.specs.Answer.{table_need};

use text::limits;

// The numbers that the main table needs.
pub fn need(size: usize, n: usize) -> usize
    requires { (size ≤ most_size) × (n ≤ record_chars) }
    ensures { result ≡ table_need size n }
{
    size * ((n + 1) * (n + 2) / 2)
}

// The first table is shorter than its need, or the second too short.
pub fn too_short(first: usize, need: usize, second: usize) -> bool
    ensures { result ≡ (ltb first need || ltb second grammar_table) }
{
    if first < need {
        return true;
    }
    second < limits::GRAMMAR_TABLE
}
