// Tables whose rows have keys that differ.
ghost use Rattle.std.specs.Prelude.{◌≡◌, ◌↔◌, filter, find, count_by, nat_lt, IsNone, IfSome, option_copied};
ghost use Rattle.std.specs.List.{list_any};
ghost use Rattle.std.specs.Option.{option_to_list};
ghost use Rattle.case_tables.specs.Keys.{has_key, HasKeyTwice, HaveDistinctKeys};

use crate::row::CaseRow;
use std::marker::Model;

/// Rows of which no two have one key. Contracts see their list.
#[derive(Clone, Copy, Debug)]
pub struct Table<const N: usize> {
    rows: [CaseRow; N],
}

impl<const N: usize> Model for Table<N> {
    ghost use Rattle.std.specs.Prelude.{List};
    ghost use Rattle.case_tables.specs.declared.row.CaseRow.{CaseRow};
    ghost use Rattle.case_tables.specs.Keys.{HaveDistinctKeys};

    ghost Value = { List CaseRow };

    ghost view = { λ t. t.rows };

    ghost invariant = { λ t. HaveDistinctKeys t.rows };

    ghost inverse = { λ rows. record { rows = rows } };
}

impl<const N: usize> Table<N> {
    /// The table of these rows, where their keys differ.
    pub fn new(rows: [CaseRow; N]) -> Option<Table<N>>
        ensures none { IsNone result ↔ HasKeyTwice rows.entry }
        ensures some { IfSome result (λ t. t ≡ rows.entry) }
    {
        if has_key_twice(&rows) {
            None
        } else {
            Some(Table { rows })
        }
    }

    // The table of rows that are known to have different keys.
    pub(crate) fn of(rows: [CaseRow; N]) -> Table<N>
        requires { HaveDistinctKeys rows }
        ensures { result ≡ rows.entry }
    {
        Table { rows }
    }

    /// The row with the key: there is one at most.
    pub fn find(&self, key: u16) -> Option<CaseRow>
        ensures first { result ≡ find (has_key key) self.now }
        ensures only { option_to_list result ≡ filter (has_key key) self.now }
    {
        first_with(&self.rows, key).copied()
    }
}

// The first of the rows that has the key.
fn first_with(rows: &[CaseRow], key: u16) -> Option<&CaseRow>
    ensures { option_copied result ≡ find (has_key key) rows.now }
{
    rows.iter().find(|row| row.key == key)
}

// How many of the rows have the key.
fn count_with(rows: &[CaseRow], key: u16) -> usize
    ensures { result ≡ count_by (has_key key) rows.now }
{
    rows.iter().filter(|row| row.key == key).count()
}

// Whether some key stands in two rows.
fn has_key_twice(rows: &[CaseRow]) -> bool
    ensures { result ≡ list_any (λ row. nat_lt 1 (count_by (has_key row.key) rows.now)) rows.now }
{
    rows.iter().any(|row| 1 < count_with(rows, row.key))
}
