ghost use Rattle.std.specs.Prelude.{◌≡◌, ◌<◌, [], map, length, slice_index_or};

use std::marker::Model;

/// The select rates of consecutive issue ages, in units of 10^-9: for each age those of its select period, by
/// duration. Contracts see them as a list of lists.
#[derive(Drop)]
pub struct SelectRows {
    rows: Vec<Vec<u32>>,
}

impl Model for SelectRows {
    ghost use Rattle.std.specs.Prelude.{List, ℕ, map};

    ghost Value = { List (List ℕ) };

    ghost view = { λ s. map (λ row. row.items) s.rows.items };
}

impl SelectRows {
    pub fn new(rows: Vec<Vec<u32>>) -> SelectRows
        ensures { result ≡ map (λ row. row.items) rows.items }
    {
        SelectRows { rows }
    }

    /// How many issue ages there are.
    pub fn len(&self) -> usize
        ensures { result ≡ length self.now }
    {
        self.rows.len()
    }

    /// The rates of the issue age at a place, counted from 0.
    pub fn row(&self, index: usize) -> &[u32]
        requires { index < length self.now }
        ensures { result.now ≡ slice_index_or self.now index [] }
    {
        self.rows[index].as_slice()
    }

    pub fn into_vec(self) -> Vec<Vec<u32>>
        ensures { map (λ row. row.items) result.items ≡ self }
    {
        let SelectRows { rows } = self;
        rows
    }
}
