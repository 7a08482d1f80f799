// The rows of one summary, one after the other. A row is the places of the head among the question's terms; place by place it is tried whether some row
// begins so, by the search for places of the body.
ghost use Rattle.std.specs.Prelude.{◌≡◌, ◌<◌};
ghost use Rattle.task.specs.Held.{task_of};
ghost use Rattle.summary_rows.specs.RowPlaces.{PlacesWith, FirstRow, StartPlaces, NextPlaces, NextRowNeeds, FrontNeeds, OnTargets, Begins, NextPlace};
ghost use Rattle.summary_rows.specs.FixedPlaces.{fixing};

use crate::RowTask;
use codes::{SLOTS, USES_GOALS};
use placing::{Places, places_from};

impl RowTask<'_> {
    // The bindings that put the first j places of the head on the targets ks.
    fn fixed(&self, j: usize, ks: Places) -> [u64; SLOTS]
        requires { OnTargets (task_of self.now.task) self.now.head j ks }
        ensures { result ≡ fixing self.now.task.source.now self.now.task.target.now ks j }
    {
        let mut g = [0u64; SLOTS];
        for i in 0..j {
            let slot = self.task.source_term(i, 0) as usize;
            g[slot] = self.task.target_term(usize::from(ks[i]), 0);
        }
        g
    }

    // Whether some row begins with the first j of the places ks: whether the body can be placed where their terms are bound.
    // The head's other places take no part in it: the body binds their variables, and each has then one term.
    fn row_begins(&self, j: usize, ks: Places) -> bool
        requires { OnTargets (task_of self.now.task) self.now.head j ks }
        ensures { Begins (task_of self.now.task) self.now.head j ks result }
    {
        places_from(&self.task, self.head, self.fixed(j, ks)).is_some()
    }

    // The first place from `from` on that some row has behind the first j of ks, put there.
    fn next_place(&self, j: usize, ks: Places, from: usize) -> Option<Places>
        requires front_needs { FrontNeeds (task_of self.now.task) self.now.head j ks }
        requires j_lt_head { j < self.now.head }
        ensures { NextPlace (task_of self.now.task) self.now.head j ks from result }
    {
        for k in from..self.task.own.len() {
            if !self.task.is_related(j, k) {
                continue;
            }
            let mut all = ks;
            all[j] = k as u16;
            if self.row_begins(j + 1, all) {
                return Some(all);
            }
        }
        None
    }

    // The first row that begins with the first j of ks: place after place takes the first that some row has there.
    fn row_with(&self, j: usize, ks: Places) -> Places
        requires { FrontNeeds (task_of self.now.task) self.now.head j ks }
        ensures { FirstRow (PlacesWith (task_of self.now.task) self.now.head j ks) self.now.head ks result }
    {
        let mut all = ks;
        for i in j..self.head {
            all = self.next_place(i, all, 0).unwrap();
        }
        all
    }

    // The first row of all, if some row begins with no places.
    pub fn first_row(&self) -> Option<Places>
        ensures { StartPlaces (task_of self.now.task) self.now.head result }
    {
        let ks = [0u16; USES_GOALS];
        if self.row_begins(0, ks) {
            return Some(self.row_with(0, ks));
        }
        None
    }

    // The first row after the one that ks begins with: the last place that can go further on does, and those behind it start anew.
    pub fn next_row(&self, ks: Places) -> Option<Places>
        requires { NextRowNeeds (task_of self.now.task) self.now.head ks }
        ensures { NextPlaces (task_of self.now.task) self.now.head ks result }
    {
        for j in (0..self.head).rev() {
            let from = usize::from(ks[j]) + 1;
            if let Some(front) = self.next_place(j, ks, from) {
                return Some(self.row_with(j + 1, front));
            }
        }
        None
    }
}
