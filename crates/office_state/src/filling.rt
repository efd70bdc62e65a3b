// The policies as they stood at a position, one or a part of them.
ghost use Rattle.std.specs.Prelude.{◌≡◌, ◌+◌, ◌*◌, ◌≤◌, ◌<◌, Some, length, slice_get, take, drop, vec_capacity};
ghost use Rattle.policy_machine.specs.Book.{book};
ghost use Rattle.office_state.specs.inside.Books.{commands_in, floor_in, looks_at_most};

use crate::books::Books;
use outside_io::Steps;
use policy_types::Policy;
use std::marker::Brand;
use std::sync::ledger::{Blank, Ledger};

/// The most policies that one read gives.
pub const POLICIES_PER_READ: u32 = 256;

impl Books {
    /// The policy of this index, in order of issue, after the first `p` commands, which the floor leaves.
    pub(crate) fn policy(&self, index: u32, p: u32) -> Policy
        requires floor { floor_in self.now ≤ p }
        requires within { index < length (book (take p (commands_in self.now))) }
        ensures { slice_get (book (take p (commands_in self.now))) index ≡ Some result }
    {
        policy_at::<Brand>(self, index, p, Blank::new(1))
    }

    /// Fills the window with the policies after the first `p` commands, which the floor leaves, in order of issue, from
    /// the index `first` on and 256 of them at most.
    pub(crate) fn fill(&self, first: u32, p: u32, window: &mut Vec<Policy>)
        requires room { 256 ≤ vec_capacity window.old }
        requires floor { floor_in self.now ≤ p }
        ensures policies { window.new.items ≡ take 256 (drop first (book (take p (commands_in self.now)))) }
        ensures room { vec_capacity window.new ≡ vec_capacity window.old }
    {
        fill_window::<Brand>(self, first, p, window, Blank::new(1));
    }
}

// The same with a ledger that the blank becomes.
fn policy_at<L: Ledger>(books: &Books, index: u32, p: u32, blank: Blank) -> Policy
    requires name { blank.name ≡ L.name }
    requires parts { blank.parts ≡ L.parts }
    requires some { 0 < L.parts }
    requires floor { floor_in books.now ≤ p }
    requires within { index < length (book (take p (commands_in books.now))) }
    ensures { slice_get (book (take p (commands_in books.now))) index ≡ Some result }
{
    let mut steps: Steps<L> = Steps::open(blank);
    books.policy_counted(index, p, &mut steps)
}

// The same with a ledger that the blank becomes.
fn fill_window<L: Ledger>(books: &Books, first: u32, p: u32, window: &mut Vec<Policy>, blank: Blank)
    requires name { blank.name ≡ L.name }
    requires parts { blank.parts ≡ L.parts }
    requires some { 0 < L.parts }
    requires room { 256 ≤ vec_capacity window.old }
    requires floor { floor_in books.now ≤ p }
    ensures policies { window.new.items ≡ take 256 (drop first (book (take p (commands_in books.now)))) }
    ensures room { vec_capacity window.new ≡ vec_capacity window.old }
{
    let mut steps: Steps<L> = Steps::open(blank);
    books.fill_counted(first, p, window, &mut steps);
}

impl Books {
    // The policy of an index, and how many looks it took.
    fn policy_counted<L: Ledger>(&self, index: u32, p: u32, steps: &mut Steps<L>) -> Policy
        requires floor { floor_in self.now ≤ p }
        requires within { index < length (book (take p (commands_in self.now))) }
        ensures policy { slice_get (book (take p (commands_in self.now))) index ≡ Some result }
        ensures looks { steps.new ≤ steps.old + looks_at_most }
    {
        self.versions.at(index, p, steps)
    }

    // The policies of a window, and how many looks they took.
    fn fill_counted<L: Ledger>(
        &self,
        first: u32,
        p: u32,
        window: &mut Vec<Policy>,
        steps: &mut Steps<L>,
    )
        requires room { 256 ≤ vec_capacity window.old }
        requires floor { floor_in self.now ≤ p }
        ensures policies { window.new.items ≡ take 256 (drop first (book (take p (commands_in self.now)))) }
        ensures room { vec_capacity window.new ≡ vec_capacity window.old }
        ensures looks { steps.new ≤ steps.old + 256 * looks_at_most }
    {
        window.clear();
        let end = self
            .policies(p)
            .min(first.saturating_add(POLICIES_PER_READ));
        for index in first..end {
            let policy = self.policy_counted(index, p, steps);
            window.push_reserved(policy);
        }
    }
}
