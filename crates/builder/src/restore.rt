// Restore points: `restore_point` and `restore`. Neither writes into the run.
ghost use Rattle.std.specs.Prelude.{◌≡◌, ◌+◌, ◌*◌, ◌≤◌, ◌<◌, ltb, length, if◌then◌else◌};
ghost use Rattle.format.specs.WordList.{list_count};
ghost use Rattle.format.specs.Builder.{is_among, open_before, reaches_past, point_fits};
ghost use Rattle.format.specs.Builder.{point_verdict, restore_point, restore_verdict, restore};
ghost use Rattle.tree.specs.Refusal.{verdict_answer};
ghost use Rattle.builder.specs.State.{numbers, seen};
ghost use Rattle.builder.specs.Restoring.{point_of, point_answer, closed_from};
ghost use Rattle.builder.specs.Taken.{Taken};

use crate::sort::is_subtree;
use crate::state::{Builder, Point, Stepped};
use crate::steps::rule;
use pack::row;
use tree::refusal::Refusal;
use width::TREE_WORDS;

impl Builder {
    // Whether i is among the open trees.
    #[tactic(auto, using(crate::proofs::RestoreReturns::among_cases))]
    fn is_among(&self, i: u32) -> bool
        requires { self.now.depth ≤ 255 }
        ensures { result ≡ is_among i (numbers self.now.opened self.now.depth) }
    {
        for d in (0..self.depth).rev() {
            if self.opened[d] == i {
                return true;
            }
        }
        false
    }

    // How many of the open trees stand before tree n.
    fn open_before(&self, n: u32) -> usize
        requires { self.now.depth ≤ 255 }
        ensures { result ≡ length (open_before n (numbers self.now.opened self.now.depth)) }
    {
        let mut k: usize = 0;
        for d in (0..self.depth).rev() {
            k += usize::from(self.opened[d] < n);
        }
        k
    }

    // Whether tree i is a closed subtree that reaches past tree n. An open one has count 0 stored and comes so far only
    // in an altered run.
    #[tactic(auto, using(crate::proofs::RestoreReturns::past_cases))]
    fn reaches_past(&self, list: &[u32], n: u32, i: u32) -> bool
        requires { (i < list_count list.now) × (self.now.depth ≤ 255) }
        ensures { result ≡ reaches_past list.now (seen self.now) n i }
    {
        let at = i as usize;
        is_subtree(list, at)
            && (n as usize) < at + 1 + list[TREE_WORDS * at + 1] as usize
            && !self.is_among(i)
    }

    // No closed subtree from tree 1 to tree n - 1 may reach past tree n.
    fn closed_fit(&self, list: &[u32], n: u32) -> Result<(), Refusal>
        requires { (n ≤ list_count list.now) × (self.now.depth ≤ 255) }
        ensures { result ≡ verdict_answer (closed_from list.now (seen self.now) n 1) }
    {
        for i in 1..n {
            rule(!self.reaches_past(list, n, i), row::POINT, 0)?;
        }
        Ok(())
    }

    fn point_fits(&self, list: &[u32], point: Point) -> Result<(), Refusal>
        requires { (point.trees ≤ list_count list.now) × (self.now.depth ≤ 255) }
        ensures { result ≡ verdict_answer (point_fits list.now (seen self.now) (point_of point)) }
    {
        self.closed_fit(list, point.trees)?;
        rule(
            self.open_before(point.trees) == point.opened as usize,
            row::POINT,
            0,
        )
    }

    fn point_verdict(&self, list: &[u32]) -> Result<(), Refusal>
        ensures { result ≡ verdict_answer (point_verdict list.now (seen self.now)) }
    {
        rule(!self.disagrees(list), row::STATE, 0)
    }

    fn restore_verdict(&self, list: &[u32], point: Point) -> Result<(), Refusal>
        ensures { result ≡ verdict_answer
            (restore_verdict list.now (seen self.now) (point_of point)) }
    {
        self.point_verdict(list)?;
        rule(1 <= point.trees, row::POINT, 0)?;
        if self.count <= point.trees {
            Ok(())
        } else {
            self.point_fits(list, point)
        }
    }

    pub fn restore_point(self, list: &[u32]) -> Result<Point, Refusal>
        ensures { result ≡ point_answer
            (point_verdict list.now (seen self)) (restore_point list.now (seen self)) }
    {
        rule(!self.disagrees(list), row::STATE, 0)?;
        Ok(Point {
            trees: self.count,
            opened: self.depth as u32,
        })
    }

    #[tactic(auto, using(crate::proofs::RestoreReturns::restore_cases))]
    pub fn restore(mut self, list: &[u32], point: Point) -> Stepped
        ensures { Taken (restore (point_of point)) self list.now result list.now }
    {
        let verdict = self.restore_verdict(list, point);
        if let Err(_) = verdict {
            return Stepped {
                verdict,
                builder: self,
            };
        }
        if self.count <= point.trees {
            return Stepped {
                verdict,
                builder: self,
            };
        }
        self.count = point.trees;
        self.depth = point.opened as usize;
        Stepped {
            verdict,
            builder: self,
        }
    }
}
