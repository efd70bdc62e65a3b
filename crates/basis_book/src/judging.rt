ghost use Rattle.std.specs.Prelude.{◌≡◌, ℕ, ◌+◌, ◌≤◌, ◌<◌, [], ◌∷◌, ◌++◌, List, OnOk, IfOk, MatchBool, MatchOption, MatchResult, length, Some, None};
ghost use Rattle.basis_book.specs.declared.row.BasisRow.{BasisRow as ARow};
ghost use Rattle.basis_book.specs.Row.{IsRow};
ghost use Rattle.basis_book.specs.Rows.{AreRows, IsAfter, Falls, IsRowsFault};
ghost use Rattle.basis_book.specs.Dated.{AreBounded};
ghost use Rattle.basis_book.specs.inside.Fields.{AreThree, list_of};
ghost use Rattle.basis_book.specs.inside.Judged.{Judged};

use crate::fault::BasisFault;
use crate::fields::BasisFields;
use crate::name::Name;
use crate::points::points_of;
use crate::reading::Reading;
use crate::row::{BasisRow, BasisRows, MOST_ROWS};
use life_dates::parse_day;
use memory_requests::push;
use policy_types::NoMemory;
use std::alloc::Global;

/// The basis row that three fields spell.
fn row_of(alloc: Global, fields: &BasisFields) -> Result<Option<BasisRow>, NoMemory>
    ensures { IfOk result (λ found.
        MatchOption found ((row : ARow) → IsRow (list_of fields.now) row → ⊥) (IsRow (list_of fields.now))) }
{
    let Some(from_day) = parse_day(fields.day) else {
        return Ok(None);
    };
    let Some(bp) = points_of(fields.points) else {
        return Ok(None);
    };
    let Some(table) = Name::of(alloc, fields.table)? else {
        return Ok(None);
    };
    Ok(Some(BasisRow {
        from_day,
        table,
        bp,
    }))
}

/// Whether the day of the next row is after that of the last.
fn is_after(rows: &[BasisRow], next: &BasisRow) -> bool
    ensures { MatchBool result (IsAfter rows.now next.now.from_day) (Falls rows.now next.now.from_day) }
{
    let Some(last) = rows.last() else {
        return true;
    };
    last.from_day < next.from_day
}

/// Judges the next row, given its number, counted from 1, and its fields.
fn judge(
    alloc: Global,
    found: &mut Vec<BasisRow>,
    number: u32,
    fields: Option<BasisFields>,
) -> Result<(), BasisFault>
    ensures { (rows : List (List (List ℕ))) (row : List (List ℕ))
        → AreThree row fields.entry → AreRows rows found.old.items
        → number ≡ length rows + 1 → number ≤ 1000
        → MatchResult result (λ _. AreRows (rows ++ row ∷ []) found.new.items)
        (IsRowsFault (rows ++ row ∷ [])) }
{
    let Some(fields) = fields else {
        return Err(BasisFault::BadBasisRow(number));
    };
    let row = match row_of(alloc, &fields) {
        Ok(Some(row)) => row,
        Ok(None) => return Err(BasisFault::BadBasisRow(number)),
        Err(lack) => return Err(BasisFault::NoMemory(lack)),
    };
    if !is_after(found.as_slice(), &row) {
        return Err(BasisFault::NotRising(number));
    }
    match push(found, row) {
        Ok(()) => Ok(()),
        Err(lack) => Err(BasisFault::NoMemory(lack)),
    }
}

impl Reading {
    /// No rows.
    pub fn new(alloc: Global) -> Self
        ensures { Judged [] result }
    {
        Reading {
            found: Vec::new(alloc),
            count: 0,
            fault: None,
        }
    }

    /// Takes the next row.
    pub fn add(&mut self, alloc: Global, fields: Option<BasisFields>) -> Result<(), NoMemory>
        ensures { (rows : List (List (List ℕ))) (row : List (List ℕ))
            → AreThree row fields.entry → Judged rows self.old
            → OnOk result (Judged (rows ++ row ∷ []) self.new) }
    {
        if self.count > MOST_ROWS as u32 {
            return Ok(());
        }
        self.count += 1;
        if self.count > MOST_ROWS as u32 {
            return Ok(());
        }
        if self.fault.is_some() {
            return Ok(());
        }
        match judge(alloc, &mut self.found, self.count, fields) {
            Ok(()) => Ok(()),
            Err(BasisFault::NoMemory(lack)) => Err(lack),
            Err(fault) => {
                self.fault = Some(fault);
                Ok(())
            }
        }
    }

    /// The rows, or their fault.
    pub fn finish(self) -> Result<BasisRows, BasisFault>
        ensures { (rows : List (List (List ℕ))) → Judged rows self
            → MatchResult result
            (λ found. (length rows ≤ 1000) × AreRows rows found × AreBounded found)
            (IsRowsFault rows) }
    {
        if self.count > MOST_ROWS as u32 {
            return Err(BasisFault::TooManyRows);
        }
        match self.fault {
            Some(fault) => Err(fault),
            None => Ok(BasisRows::new(self.found)),
        }
    }
}
